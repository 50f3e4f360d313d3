//! Keys of types that signatures and members name, and of types made of others.
ghost use Rattle.std.specs.Prelude.{◌≡◌, ◌<◌, length, IfOk};
ghost use Rattle.type_terms.specs.declared.term.SigType.TheVariants as type;
ghost use Rattle.sig_pool.specs.Pool.{Extends, Has, HasAll};
ghost use Rattle.sig_pool.specs.Terms.{term_of};
ghost use Rattle.type_hierarchy.specs.Hierarchy.{core_name};
ghost use Rattle.type_order.specs.Keys.{reading_of};
ghost use Rattle.type_hierarchy.specs.Normal.{normal, normal_owner};
ghost use Rattle.type_order.specs.Parts.{type_arguments};
ghost use Rattle.type_hierarchy.specs.Stack.{is_reference};
ghost use Rattle.type_hierarchy.specs.Tables.{hierarchy_in};
ghost use Rattle.type_hierarchy.specs.World.{hierarchy, type_at, Stays};

use crate::keys::keys_at;
use crate::stack::is_reference;
use crate::terms::term_at;
use crate::types::World;
use crate::written::normal_id;
use il_lists::{Boxed, Items, NoMemory};
use sig_pool::{Node, SigId, SigPool};
use std::alloc::Global;
use type_hierarchy::core_types::intern;
use type_hierarchy::normal::normalised_owner;
use type_hierarchy::stack_type::{TypeKey, TypeKeys};
use type_hierarchy::tables::Tables;
use type_terms::{Owner, Path, Prim, SigType, TypeName};

/// The key of a type of the image, normalised.
///
/// NoMemory where there is no memory.
pub fn type_key(w: &mut World, t: &SigType) -> Result<TypeKey, NoMemory>
    ensures ok { IfOk result (λ k. Has w.new.nodes k (normal (reading_of (hierarchy w.old)) t.now)) }
    ensures stays { Stays w.old w.new }
{
    let id = normal_id(w.alloc, &w.tables, &mut w.pool, t)?;
    Ok(TypeKey::new(id))
}

/// The key of what an owner of the image names, normalised.
///
/// NoMemory where there is no memory.
pub fn owner_key(w: &mut World, owner: &Owner) -> Result<TypeKey, NoMemory>
    ensures ok { IfOk result (λ k. Has w.new.nodes k (normal_owner (reading_of (hierarchy w.old)) owner.now)) }
    ensures stays { Stays w.old w.new }
{
    let id = owner_id(w.alloc, &w.tables, &mut w.pool, owner)?;
    Ok(TypeKey::new(id))
}

/// The id of what an owner of the image names, normalised.
#[tactic(auto, unfolding(type_hierarchy::specs::Tables::hierarchy_in))]
fn owner_id(
    alloc: Global,
    tables: &Tables,
    pool: &mut SigPool,
    owner: &Owner,
) -> Result<SigId, NoMemory>
    ensures ok { IfOk result (λ id. Has pool.new id (normal_owner (reading_of (hierarchy_in tables.now)) owner.now)) }
    ensures extends { Extends pool.old pool.new }
{
    let t = normalised_owner(alloc, &tables.values, &tables.means, owner)?;
    intern(pool, t)
}

/// The keys of the generic arguments of the key's type (ECMA-335 II.23.2.12), of which any type but an
/// instantiation has none.
///
/// The key is one that this world gave. NoMemory where there is no memory.
pub fn arguments_of(w: &World, k: &TypeKey) -> Result<TypeKeys, NoMemory>
    requires { k.now < length w.now.nodes }
    ensures { IfOk result (λ ks. HasAll w.now.nodes ks (type_arguments (type_at w.now k.now))) }
{
    argument_keys(w.alloc, &w.pool, k.id())
}

/// The keys of the generic arguments of the type of an id.
fn argument_keys(alloc: Global, pool: &SigPool, id: SigId) -> Result<TypeKeys, NoMemory>
    requires { id < length pool.now }
    ensures { IfOk result (λ ks. HasAll pool.now ks (type_arguments (term_of pool.now id))) }
{
    match pool.node(id) {
        Node::Inst { args, .. } => {
            let keys = keys_at(alloc, args.as_slice())?;
            Ok(keys)
        }
        Node::Prim(_) => Ok(Items::new(alloc)),
        Node::Class(_) => Ok(Items::new(alloc)),
        Node::Value(_) => Ok(Items::new(alloc)),
        Node::Var(_) => Ok(Items::new(alloc)),
        Node::MVar(_) => Ok(Items::new(alloc)),
        Node::SzArray(_) => Ok(Items::new(alloc)),
        Node::Array { .. } => Ok(Items::new(alloc)),
        Node::ByRef(_) => Ok(Items::new(alloc)),
        Node::Pointer(_) => Ok(Items::new(alloc)),
        Node::Mod { .. } => Ok(Items::new(alloc)),
        Node::Pinned(_) => Ok(Items::new(alloc)),
    }
}

/// The key of the vector of the key's type (ECMA-335 I.8.9.1).
///
/// The key is one that this world gave. NoMemory where there is no memory.
pub fn vector_of(w: &mut World, k: &TypeKey) -> Result<TypeKey, NoMemory>
    requires { k.now < length w.old.nodes }
    ensures ok { IfOk result (λ v. Has w.new.nodes v (type.SzArray (type_at w.old k.now))) }
    ensures stays { Stays w.old w.new }
{
    let id = vector_id(w.alloc, &mut w.pool, k.id())?;
    Ok(TypeKey::new(id))
}

/// The id of the vector of the type of an id.
fn vector_id(alloc: Global, pool: &mut SigPool, id: SigId) -> Result<SigId, NoMemory>
    requires { id < length pool.old }
    ensures ok { IfOk result (λ v. Has pool.new v (type.SzArray (term_of pool.old id))) }
    ensures extends { Extends pool.old pool.new }
{
    let of = term_at(alloc, pool, id)?;
    let of = Boxed::new(alloc, of)?;
    intern(pool, SigType::SzArray(of))
}

/// The key of the value type of the core with that path.
///
/// NoMemory where there is no memory.
#[tactic(auto, unfolding(type_hierarchy::specs::Tables::hierarchy_in))]
pub fn core_value(w: &mut World, path: Path) -> Result<TypeKey, NoMemory>
    ensures ok { IfOk result (λ k. Has w.new.nodes k (type.Value (core_name (hierarchy w.old) path))) }
    ensures stays { Stays w.old w.new }
{
    let name = TypeName {
        scope: w.tables.values.core,
        path,
    };
    let id = intern(&mut w.pool, SigType::Value(name))?;
    Ok(TypeKey::new(id))
}

/// The key of a primitive type.
///
/// NoMemory where there is no memory.
pub fn primitive_key(w: &mut World, prim: Prim) -> Result<TypeKey, NoMemory>
    ensures ok { IfOk result (λ k. Has w.new.nodes k (type.Prim prim)) }
    ensures stays { Stays w.old w.new }
{
    let id = intern(&mut w.pool, SigType::Prim(prim))?;
    Ok(TypeKey::new(id))
}

/// Whether the key's type is a reference type (ECMA-335 I.8.2.1). Takes no memory.
///
/// The key is one that this world gave.
pub fn is_reference_key(w: &World, k: &TypeKey) -> bool
    requires { k.now < length w.now.nodes }
    ensures { result ≡ is_reference (type_at w.now k.now) }
{
    is_reference(&w.pool, k.id())
}
