//! Rows of instructions with a primitive type in their name, and of those that load texts and tokens.
ghost use Rattle.std.specs.Prelude.{◌≡◌, ℕ, List, [], ◌∷◌, IfOk};
ghost use Rattle.sig_pool.specs.Pool.{Has};
ghost use Rattle.sig_pool.specs.declared.node.Node.{Node};
ghost use Rattle.type_terms.specs.declared.term.Primitive.TheVariants as prim;
ghost use Rattle.type_terms.specs.declared.term.SigType.TheVariants as type;
ghost use Rattle.type_hierarchy.specs.Names.{system};
ghost use Rattle.type_hierarchy.specs.Meaning.{meant, IsWithin};
ghost use Rattle.type_hierarchy.specs.Stack as stack;
ghost use Rattle.type_hierarchy.specs.World.{hierarchy, Stays};
ghost use Rattle.code_flow.specs.Demands as demands;
ghost use Rattle.stack_rows.specs.RowMeanings.{MeansRow};
ghost use Rattle.code_flow.specs.Rows.{row, pushes, number_type, numeric_type_of, numeric_pointer, numeric_stack, numeric_vector, handle_name, handle};

use crate::making::plain;
use crate::row::{Demand, Pushed, Row};
use assembly_tree::Operand;
use code_flow::operation::{Number, Numeric};
use il_lists::{NoMemory, Text};
use std::alloc::Global;
use type_order::types::World;
use type_order::{StackType, TypeKey, core_value, primitive_key};
use type_terms::{Path, Prim, TypeId};

/// A number on the stack.
pub fn number_type(number: Number) -> StackType
    ensures is { (ns : List Node) → meant ns result ≡ number_type number }
    ensures within { (n : ℕ) → IsWithin n result }
{
    match number {
        Number::I4 => StackType::I4,
        Number::I8 => StackType::I8,
        Number::N => StackType::N,
        Number::F => StackType::F,
    }
}

/// What a value of a primitive type in an opcode's name is on the stack.
fn numeric_stack(numeric: Numeric) -> StackType
    ensures is { (ns : List Node) → meant ns result ≡ numeric_stack numeric }
    ensures within { (n : ℕ) → IsWithin n result }
{
    match numeric {
        Numeric::I1 => StackType::I4,
        Numeric::U1 => StackType::I4,
        Numeric::I2 => StackType::I4,
        Numeric::U2 => StackType::I4,
        Numeric::I4 => StackType::I4,
        Numeric::U4 => StackType::I4,
        Numeric::I8 => StackType::I8,
        Numeric::NInt => StackType::N,
        Numeric::R4 => StackType::F,
        Numeric::R8 => StackType::F,
    }
}

/// The verification type of a primitive type in an opcode's name (ECMA-335 I.8.7.1).
fn verified(numeric: Numeric) -> Prim
    ensures { type.Prim result ≡ numeric_type_of numeric }
{
    match numeric {
        Numeric::I1 => Prim::I1,
        Numeric::U1 => Prim::I1,
        Numeric::I2 => Prim::I2,
        Numeric::U2 => Prim::I2,
        Numeric::I4 => Prim::I4,
        Numeric::U4 => Prim::I4,
        Numeric::I8 => Prim::I8,
        Numeric::NInt => Prim::NInt,
        Numeric::R4 => Prim::R4,
        Numeric::R8 => Prim::R8,
    }
}

fn numeric_key(w: &mut World, numeric: Numeric) -> Result<TypeKey, NoMemory>
    ensures ok { IfOk result (λ k. Has w.new.nodes k (numeric_type_of numeric)) }
    ensures stays { Stays w.old w.new }
{
    let key = primitive_key(w, verified(numeric))?;
    Ok(key)
}

/// Of `ldind` of a primitive type.
pub fn load_indirect(alloc: Global, w: &mut World, numeric: Numeric) -> Result<Row, NoMemory>
    ensures ok { IfOk result (λ r. MeansRow w.new.nodes r (row (demands.exactly (numeric_pointer numeric) ∷ []) (pushes (numeric_stack numeric)))) }
    ensures stays { Stays w.old w.new }
{
    let of = numeric_key(w, numeric)?;
    let pointer = StackType::Ptr(of);
    let value = numeric_stack(numeric);
    plain(alloc, &[Demand::Exactly(pointer)], &[Pushed::Always(value)])
}

/// Of `stind` of a primitive type.
pub fn store_indirect(alloc: Global, w: &mut World, numeric: Numeric) -> Result<Row, NoMemory>
    ensures ok { IfOk result (λ r. MeansRow w.new.nodes r (row (demands.exactly (numeric_pointer numeric) ∷ demands.exactly (numeric_stack numeric) ∷ []) [])) }
    ensures stays { Stays w.old w.new }
{
    let of = numeric_key(w, numeric)?;
    let pointer = StackType::Ptr(of);
    let value = numeric_stack(numeric);
    plain(
        alloc,
        &[Demand::Exactly(pointer), Demand::Exactly(value)],
        &[],
    )
}

/// Of `ldelem` of a primitive type.
pub fn load_element_of(alloc: Global, w: &mut World, numeric: Numeric) -> Result<Row, NoMemory>
    ensures ok { IfOk result (λ r. MeansRow w.new.nodes r (row (numeric_vector numeric ∷ demands.index ∷ []) (pushes (numeric_stack numeric)))) }
    ensures stays { Stays w.old w.new }
{
    let of = numeric_key(w, numeric)?;
    let value = numeric_stack(numeric);
    plain(
        alloc,
        &[Demand::VectorOf(of), Demand::Index],
        &[Pushed::Always(value)],
    )
}

/// Of `stelem` of a primitive type.
pub fn store_element_of(alloc: Global, w: &mut World, numeric: Numeric) -> Result<Row, NoMemory>
    ensures ok { IfOk result (λ r. MeansRow w.new.nodes r (row (numeric_vector numeric ∷ demands.index ∷ demands.exactly (numeric_stack numeric) ∷ []) [])) }
    ensures stays { Stays w.old w.new }
{
    let of = numeric_key(w, numeric)?;
    let value = numeric_stack(numeric);
    plain(
        alloc,
        &[Demand::VectorOf(of), Demand::Index, Demand::Exactly(value)],
        &[],
    )
}

/// Of `ldstr`.
pub fn load_string(alloc: Global, w: &mut World) -> Result<Row, NoMemory>
    ensures ok { IfOk result (λ r. MeansRow w.new.nodes r (row [] (pushes (stack.ref (type.Prim prim.Str))))) }
    ensures stays { Stays w.old w.new }
{
    let value = StackType::Ref(primitive_key(w, Prim::Str)?);
    plain(alloc, &[], &[Pushed::Always(value)])
}

/// The name of the value type of the core that a token is loaded as (ECMA-335 III.4.17).
fn handle_name(operand: &Operand) -> &'static str
    ensures { result.now ≡ handle_name operand.now }
{
    match operand {
        Operand::Method(_) => "RuntimeMethodHandle",
        Operand::Field(_) => "RuntimeFieldHandle",
        Operand::Of(_) => "RuntimeTypeHandle",
        Operand::Nothing => "RuntimeTypeHandle",
        Operand::Var(_) => "RuntimeTypeHandle",
        Operand::Int(_) => "RuntimeTypeHandle",
        Operand::Real(_) => "RuntimeTypeHandle",
        Operand::Target(_) => "RuntimeTypeHandle",
        Operand::Targets(_) => "RuntimeTypeHandle",
        Operand::Text(_) => "RuntimeTypeHandle",
    }
}

/// The path of the class of that name in the space `System`.
fn system_path(alloc: Global, name: &str) -> Result<Path, NoMemory>
    ensures { IfOk result (λ p. p ≡ system name.now) }
{
    let space = Text::new(alloc, "System")?;
    let name = Text::new(alloc, name)?;
    Path::new(alloc, TypeId { space, name })
}

/// Of `ldtoken`.
pub fn load_token(alloc: Global, w: &mut World, operand: &Operand) -> Result<Row, NoMemory>
    ensures ok { IfOk result (λ r. MeansRow w.new.nodes r (row [] (pushes (handle (hierarchy w.old) operand.now)))) }
    ensures stays { Stays w.old w.new }
{
    let path = system_path(alloc, handle_name(operand))?;
    let value = StackType::Val(core_value(w, path)?);
    plain(alloc, &[], &[Pushed::Always(value)])
}
