//! The types that instructions name.
ghost use Rattle.std.specs.Prelude.{◌<◌, length, IfOk};
ghost use Rattle.sig_pool.specs.Pool.{Has};
ghost use Rattle.sig_pool.specs.Terms.{term_of};
ghost use Rattle.type_hierarchy.specs.World.{hierarchy, Stays};
ghost use Rattle.stack_rows.specs.RowMeanings.{MeansNamed};
ghost use Rattle.code_flow.specs.Rows.{named_in};

use assembly_tree::Operand;
use il_lists::NoMemory;
use type_order::types::World;
use type_order::{StackType, TypeKey, owner_key, pointer_to, primitive_key, st_of};
use type_terms::Prim;

/// A type: its key, what its values are on the stack, and a pointer to it (ECMA-335 I.8.7.1, I.12.3.2.1).
#[derive(Clone, Copy, Drop)]
pub struct Named {
    pub key: TypeKey,
    pub value: StackType,
    pub pointer: StackType,
}

/// The key of the type that an operand names; of one that names none that of void.
pub fn named_key(w: &mut World, operand: &Operand) -> Result<TypeKey, NoMemory>
    ensures ok { IfOk result (λ k. Has w.new.nodes k (named_in (hierarchy w.old) operand.now)) }
    ensures stays { Stays w.old w.new }
{
    match operand {
        Operand::Of(owner) => owner_key(w, owner.get()),
        Operand::Nothing => primitive_key(w, Prim::Void),
        Operand::Var(_) => primitive_key(w, Prim::Void),
        Operand::Int(_) => primitive_key(w, Prim::Void),
        Operand::Real(_) => primitive_key(w, Prim::Void),
        Operand::Target(_) => primitive_key(w, Prim::Void),
        Operand::Targets(_) => primitive_key(w, Prim::Void),
        Operand::Method(_) => primitive_key(w, Prim::Void),
        Operand::Field(_) => primitive_key(w, Prim::Void),
        Operand::Text(_) => primitive_key(w, Prim::Void),
    }
}

/// The type of a key.
pub fn named_of(w: &mut World, key: TypeKey) -> Result<Named, NoMemory>
    requires { key < length w.old.nodes }
    ensures ok { IfOk result (λ n. MeansNamed w.new.nodes n (hierarchy w.old) (term_of w.old.nodes key)) }
    ensures stays { Stays w.old w.new }
{
    let value = st_of(w, &key)?;
    let pointer = pointer_to(w, &key)?;
    Ok(Named {
        key,
        value,
        pointer,
    })
}

/// The type that an operand names.
pub fn type_named(w: &mut World, operand: &Operand) -> Result<Named, NoMemory>
    ensures ok { IfOk result (λ n. MeansNamed w.new.nodes n (hierarchy w.old) (named_in (hierarchy w.old) operand.now)) }
    ensures stays { Stays w.old w.new }
{
    let key = named_key(w, operand)?;
    let named = named_of(w, key)?;
    Ok(named)
}
