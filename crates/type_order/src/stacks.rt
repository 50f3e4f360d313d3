//! The stack types of a type: st(T), a managed pointer to it, and what its values are as objects.
ghost use Rattle.std.specs.Prelude.{◌≡◌, ◌<◌, length, IfOk};
ghost use Rattle.type_terms.specs.declared.term.SigType.TheVariants as type;
ghost use Rattle.sig_pool.specs.Pool.{Extends};
ghost use Rattle.sig_pool.specs.Terms.{term_of};
ghost use Rattle.type_hierarchy.specs.Meaning.{Means, instance_type};
ghost use Rattle.type_hierarchy.specs.Stack.{ref, primitive_stack, plain_stack, stack_of, pointer_to, boxed_of};
ghost use Rattle.type_hierarchy.specs.Tables.{hierarchy_in};

use crate::stack::{is_reference, underlying, verification_id};
use il_lists::NoMemory;
use sig_pool::{Node, SigId, SigPool};
use type_hierarchy::core_types::intern;
use type_hierarchy::stack_type::{StackType, TypeKey};
use type_hierarchy::tables::Tables;
use type_terms::{Prim, SigType};

/// What a value of the type of `id` is on the stack.
pub fn stack_of_id(tables: &Tables, pool: &mut SigPool, id: SigId) -> Result<StackType, NoMemory>
    requires tables { length tables.now.names ≡ length tables.now.entries }
    requires id { id < length pool.old }
    ensures ok { IfOk result (λ s. Means pool.new s (stack_of (hierarchy_in tables.now) (term_of pool.old id))) }
    ensures extends { Extends pool.old pool.new }
{
    match underlying(tables, pool, id) {
        Some(prim) => primitive_stack(pool, prim),
        None => plain_stack(tables, pool, id),
    }
}

/// A managed pointer to the type of `id`.
pub fn pointer_to_id(tables: &Tables, pool: &mut SigPool, id: SigId) -> Result<StackType, NoMemory>
    requires tables { length tables.now.names ≡ length tables.now.entries }
    requires id { id < length pool.old }
    ensures ok { IfOk result (λ s. Means pool.new s (pointer_to (hierarchy_in tables.now) (term_of pool.old id))) }
    ensures extends { Extends pool.old pool.new }
{
    let to = verification_id(tables, pool, id)?;
    Ok(StackType::Ptr(TypeKey::new(to)))
}

/// What a value of the type of `id` is as an object. Takes no memory.
pub fn boxed_of_id(pool: &SigPool, id: SigId) -> StackType
    requires { id < length pool.now }
    ensures { Means pool.now result (boxed_of (term_of pool.now id)) }
{
    if is_reference(pool, id) {
        StackType::Ref(TypeKey::new(id))
    } else {
        StackType::Boxed(TypeKey::new(id))
    }
}

fn reference_to(pool: &mut SigPool, prim: Prim) -> Result<StackType, NoMemory>
    ensures ok { IfOk result (λ s. Means pool.new s (ref (type.Prim prim))) }
    ensures extends { Extends pool.old pool.new }
{
    let id = intern(pool, SigType::Prim(prim))?;
    Ok(StackType::Ref(TypeKey::new(id)))
}

/// What a value of a primitive type is on the stack.
fn primitive_stack(pool: &mut SigPool, prim: Prim) -> Result<StackType, NoMemory>
    ensures ok { IfOk result (λ s. Means pool.new s (primitive_stack prim)) }
    ensures extends { Extends pool.old pool.new }
{
    match prim {
        Prim::Bool => Ok(StackType::I4),
        Prim::Char => Ok(StackType::I4),
        Prim::I1 => Ok(StackType::I4),
        Prim::U1 => Ok(StackType::I4),
        Prim::I2 => Ok(StackType::I4),
        Prim::U2 => Ok(StackType::I4),
        Prim::I4 => Ok(StackType::I4),
        Prim::U4 => Ok(StackType::I4),
        Prim::I8 => Ok(StackType::I8),
        Prim::U8 => Ok(StackType::I8),
        Prim::R4 => Ok(StackType::F),
        Prim::R8 => Ok(StackType::F),
        Prim::NInt => Ok(StackType::N),
        Prim::NUint => Ok(StackType::N),
        Prim::Str => reference_to(pool, Prim::Str),
        Prim::Object => reference_to(pool, Prim::Object),
        Prim::Void => Ok(StackType::Bad),
        Prim::TypedRef => Ok(StackType::Bad),
    }
}

/// What a value of a type that is no enum is on the stack.
fn plain_stack(tables: &Tables, pool: &mut SigPool, id: SigId) -> Result<StackType, NoMemory>
    requires tables { length tables.now.names ≡ length tables.now.entries }
    requires id { id < length pool.old }
    ensures ok { IfOk result (λ s. Means pool.new s (plain_stack (hierarchy_in tables.now) (term_of pool.old id))) }
    ensures extends { Extends pool.old pool.new }
{
    match pool.node(id) {
        Node::Prim(prim) => {
            let prim = *prim;
            primitive_stack(pool, prim)
        }
        Node::Inst { value, .. } => Ok(instance_stack(*value, id)),
        Node::ByRef(of) => {
            let of = *of;
            pointer_to_id(tables, pool, of)
        }
        Node::Class(_) => Ok(StackType::Ref(TypeKey::new(id))),
        Node::SzArray(_) => Ok(StackType::Ref(TypeKey::new(id))),
        Node::Array { .. } => Ok(StackType::Ref(TypeKey::new(id))),
        Node::Value(_) => Ok(StackType::Val(TypeKey::new(id))),
        Node::Var(_) => Ok(StackType::Val(TypeKey::new(id))),
        Node::MVar(_) => Ok(StackType::Val(TypeKey::new(id))),
        Node::Pointer(_) => Ok(StackType::N),
        Node::Mod { .. } => Ok(StackType::Bad),
        Node::Pinned(_) => Ok(StackType::Bad),
    }
}

/// What a value of an instantiation that is no enum is on the stack.
fn instance_stack(value: bool, id: SigId) -> StackType
    ensures { result ≡ instance_type value id }
{
    if value {
        StackType::Val(TypeKey::new(id))
    } else {
        StackType::Ref(TypeKey::new(id))
    }
}
