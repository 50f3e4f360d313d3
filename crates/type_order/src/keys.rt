//! What is asked of a type by its key.
ghost use Rattle.std.specs.Prelude.{◌≡◌, ◌<◌, length, IfOk};
ghost use Rattle.sig_pool.specs.Pool.{HasAll};
ghost use Rattle.type_hierarchy.specs.Hierarchy.{interfaces, parent};
ghost use Rattle.type_order.specs.Keys.{vector_element, is_value_name};
ghost use Rattle.type_hierarchy.specs.Meaning.{meant, IsWithin, Means};
ghost use Rattle.type_hierarchy.specs.Pooled.{HasOption};
ghost use Rattle.type_hierarchy.specs.Stack.{stack_of, pointer_to, boxed_of};
ghost use Rattle.type_hierarchy.specs.World.{hierarchy, type_at, Stays};

use crate::arrays::vector_element_id;
use crate::found::found_parent;
use crate::interfaces::interface_ids;
use crate::stacks::{boxed_of_id, pointer_to_id, stack_of_id};
use crate::terms::term_at;
use crate::types::World;
use il_lists::{Items, NoMemory};
use sig_pool::SigId;
use std::alloc::Global;
use type_hierarchy::stack_type::{StackType, TypeKey, TypeKeys};
use type_terms::{Scope, SigType, TypeName};

/// What a value of the key's type is on the stack (ECMA-335 I.12.3.2.1): int32 for bool, char and integers
/// of up to 32 bits, int64, native int, F, a reference, a managed pointer to the verification type, of an
/// enum what its underlying type is, a value of any other type, and Bad for void and typed references.
///
/// The key is one that this world gave. NoMemory where there is no memory.
pub fn st_of(w: &mut World, k: &TypeKey) -> Result<StackType, NoMemory>
    requires { k.now < length w.old.nodes }
    ensures ok { IfOk result (λ s. Means w.new.nodes s (stack_of (hierarchy w.old) (type_at w.old k.now))) }
    ensures stays { Stays w.old w.new }
{
    stack_of_id(&w.tables, &mut w.pool, k.id())
}

/// A managed pointer to the verification type of the key's type (ECMA-335 I.8.7.1).
///
/// The key is one that this world gave. NoMemory where there is no memory.
pub fn pointer_to(w: &mut World, k: &TypeKey) -> Result<StackType, NoMemory>
    requires { k.now < length w.old.nodes }
    ensures ok { IfOk result (λ s. Means w.new.nodes s (pointer_to (hierarchy w.old) (type_at w.old k.now))) }
    ensures stays { Stays w.old w.new }
{
    pointer_to_id(&w.tables, &mut w.pool, k.id())
}

/// What a value of the key's type is as an object: a reference where it is a reference type, and else a
/// boxed value (ECMA-335 III.4.1).
///
/// The key is one that this world gave. NoMemory where there is no memory.
pub fn boxed_of(w: &mut World, k: &TypeKey) -> Result<StackType, NoMemory>
    requires { k.now < length w.old.nodes }
    ensures ok { IfOk result (λ s. Means w.new.nodes s (boxed_of (type_at w.old k.now))) }
    ensures stays { Stays w.old w.new }
{
    Ok(boxed_of_id(&w.pool, k.id()))
}

/// The key of the element; None exactly where `s` isn't a reference to a vector.
///
/// The key in `s` is one that this world gave. NoMemory where there is no memory.
pub fn element_of(w: &mut World, s: &StackType) -> Result<Option<TypeKey>, NoMemory>
    requires { IsWithin (length w.old.nodes) s.now }
    ensures ok { IfOk result (λ r. HasOption w.new.nodes r (vector_element (meant w.old.nodes s.now))) }
    ensures stays { Stays w.old w.new }
{
    match s {
        StackType::Ref(key) => Ok(key_at(vector_element_id(&w.pool, key.id()))),
        StackType::Boxed(_) => Ok(None),
        StackType::I4 => Ok(None),
        StackType::I8 => Ok(None),
        StackType::N => Ok(None),
        StackType::F => Ok(None),
        StackType::Null => Ok(None),
        StackType::Val(_) => Ok(None),
        StackType::Ptr(_) => Ok(None),
        StackType::Bad => Ok(None),
    }
}

/// The key of the type of an id, where there is one.
fn key_at(id: Option<SigId>) -> Option<TypeKey>
    ensures { result ≡ id }
{
    match id {
        Some(id) => Some(TypeKey::new(id)),
        None => None,
    }
}

/// The key of the parent of the key's type (ECMA-335 I.8.9.9): None exactly for Object.
///
/// The key is one that this world gave. NoMemory where there is no memory.
pub fn parent_key(w: &mut World, k: &TypeKey) -> Result<Option<TypeKey>, NoMemory>
    requires { k.now < length w.old.nodes }
    ensures ok { IfOk result (λ r. HasOption w.new.nodes r (parent (hierarchy w.old) (type_at w.old k.now))) }
    ensures stays { Stays w.old w.new }
{
    let parent = found_parent(w.alloc, &w.tables, &mut w.pool, &mut w.found, k.id())?;
    Ok(key_at(parent))
}

/// The keys of the interfaces that the declaration of the key's type lists (ECMA-335 II.12.2), in its order,
/// with the type's arguments put in.
///
/// The key is one that this world gave. NoMemory where there is no memory.
pub fn interfaces_of(w: &mut World, k: &TypeKey) -> Result<TypeKeys, NoMemory>
    requires { k.now < length w.old.nodes }
    ensures ok { IfOk result (λ ks. HasAll w.new.nodes ks (interfaces (hierarchy w.old) (type_at w.old k.now))) }
    ensures stays { Stays w.old w.new }
{
    let ids = interface_ids(w.alloc, &w.tables, &mut w.pool, k.id())?;
    keys_at(w.alloc, ids.as_slice())
}

/// The keys of the types of ids.
pub(crate) fn keys_at(alloc: Global, ids: &[SigId]) -> Result<TypeKeys, NoMemory>
    ensures { IfOk result (λ ks. ks ≡ ids.now) }
{
    let mut keys = Items::with_capacity(alloc, ids.len())?;
    for id in ids {
        keys.push(TypeKey::new(*id))?;
    }
    Ok(keys)
}

/// The scope of the core, the assembly of the standard's own types.
#[tactic(auto, unfolding(type_hierarchy::specs::Tables::hierarchy_in))]
pub fn core_scope(w: &World) -> Scope
    ensures { result ≡ (hierarchy w.now).core }
{
    w.tables.values.core
}

/// Whether a name of the image is a value type. Takes no memory.
#[tactic(auto, unfolding(type_hierarchy::specs::Tables::hierarchy_in))]
pub fn is_value(w: &World, name: &TypeName) -> bool
    ensures { result ≡ is_value_name (hierarchy w.now) name.now }
{
    let scope = w.tables.means.of(name.scope);
    w.tables.values.has(scope, name.path.as_slice())
}

/// The normalised type of the key, as a tree of its own.
///
/// The key is one that this world gave. NoMemory where there is no memory.
pub fn term_of(alloc: Global, w: &World, k: &TypeKey) -> Result<SigType, NoMemory>
    requires { k.now < length w.now.nodes }
    ensures { IfOk result (λ t. t ≡ type_at w.now k.now) }
{
    term_at(alloc, &w.pool, k.id())
}
