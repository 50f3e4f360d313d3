//! Instructions with their operands, each made where it is added (ECMA-335 III.1.7).

ghost use Rattle.std.specs.Prelude.{◌≡◌, ◌++◌, ◌∷◌, [], OnOk};
ghost use Rattle.assembly_tree.specs.declared.body.Operand.TheVariants as operand;
ghost use Rattle.lower_bodies.specs.Operands.{instruction_with};

use assembly_tree::{Code, Ins, Operand};
use il_base::{Boxed, NoMemory, Numbers, Units};
use opcode_table::Op;
use std::alloc::Global;
use type_terms::{FieldRef, MethodRef, Owner};

/// Adds one that takes nothing.
#[inline(never)]
pub fn push_plain(all: &mut Code, op: Op) -> Result<(), NoMemory>
    ensures { OnOk result (all.new ≡ all.old ++ instruction_with op operand.Nothing ∷ []) }
{
    all.push(Ins {
        op,
        operand: Operand::Nothing,
    })
}

/// Adds one that takes an argument or a local.
#[inline(never)]
pub fn push_variable(all: &mut Code, op: Op, number: u16) -> Result<(), NoMemory>
    ensures { OnOk result (all.new ≡ all.old ++ instruction_with op (operand.Var number) ∷ []) }
{
    all.push(Ins {
        op,
        operand: Operand::Var(number),
    })
}

/// Adds one that takes a whole number.
#[inline(never)]
pub fn push_number(all: &mut Code, op: Op, number: i64) -> Result<(), NoMemory>
    ensures { OnOk result (all.new ≡ all.old ++ instruction_with op (operand.Int number) ∷ []) }
{
    all.push(Ins {
        op,
        operand: Operand::Int(number),
    })
}

/// Adds one that takes the bits of a real number.
#[inline(never)]
pub fn push_real(all: &mut Code, op: Op, bits: u64) -> Result<(), NoMemory>
    ensures { OnOk result (all.new ≡ all.old ++ instruction_with op (operand.Real bits) ∷ []) }
{
    all.push(Ins {
        op,
        operand: Operand::Real(bits),
    })
}

/// Adds one that takes the number of an instruction.
#[inline(never)]
pub fn push_target(all: &mut Code, op: Op, number: u32) -> Result<(), NoMemory>
    ensures { OnOk result (all.new ≡ all.old ++ instruction_with op (operand.Target number) ∷ []) }
{
    all.push(Ins {
        op,
        operand: Operand::Target(number),
    })
}

/// Adds one that takes those of some instructions.
#[inline(never)]
pub fn push_targets(all: &mut Code, alloc: Global, op: Op, numbers: Numbers) -> Result<(), NoMemory>
    ensures { OnOk result (all.new ≡ all.old ++ instruction_with op (operand.Targets numbers) ∷ []) }
{
    let numbers = Boxed::new(alloc, numbers)?;
    all.push(Ins {
        op,
        operand: Operand::Targets(numbers),
    })
}

/// Adds one that takes a string.
#[inline(never)]
pub fn push_text(all: &mut Code, alloc: Global, op: Op, units: Units) -> Result<(), NoMemory>
    ensures { OnOk result (all.new ≡ all.old ++ instruction_with op (operand.Text units) ∷ []) }
{
    let units = Boxed::new(alloc, units)?;
    all.push(Ins {
        op,
        operand: Operand::Text(units),
    })
}

/// Adds one that takes a type.
#[inline(never)]
pub fn push_owner(all: &mut Code, alloc: Global, op: Op, owner: Owner) -> Result<(), NoMemory>
    ensures { OnOk result (all.new ≡ all.old ++ instruction_with op (operand.Of owner) ∷ []) }
{
    let owner = Boxed::new(alloc, owner)?;
    all.push(Ins {
        op,
        operand: Operand::Of(owner),
    })
}

/// Adds one that takes a method.
#[inline(never)]
pub fn push_method_ref(
    all: &mut Code,
    alloc: Global,
    op: Op,
    reference: MethodRef,
) -> Result<(), NoMemory>
    ensures { OnOk result (all.new ≡ all.old ++ instruction_with op (operand.Method reference) ∷ []) }
{
    let reference = Boxed::new(alloc, reference)?;
    all.push(Ins {
        op,
        operand: Operand::Method(reference),
    })
}

/// Adds one that takes a field.
#[inline(never)]
pub fn push_field_ref(
    all: &mut Code,
    alloc: Global,
    op: Op,
    reference: FieldRef,
) -> Result<(), NoMemory>
    ensures { OnOk result (all.new ≡ all.old ++ instruction_with op (operand.Field reference) ∷ []) }
{
    let reference = Boxed::new(alloc, reference)?;
    all.push(Ins {
        op,
        operand: Operand::Field(reference),
    })
}
