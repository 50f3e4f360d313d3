ghost use Rattle.std.specs.Prelude.{◌≡◌, ◌≤◌, length, map, min, IfOk, IsTrue, OnOk};
ghost use Rattle.assembly_tree.specs.WellFormedBodies.{operand_size};
ghost use Rattle.branch_forms.specs.Forms.{shortened};
ghost use Rattle.opcode_table.specs.declared.kind.OperandKind.TheVariants.{Switch};
ghost use Rattle.il_shrink.specs.Branches.{short_kind};
ghost use Rattle.il_shrink.specs.Forms.{form_in, short_size, first_form, op_in, in_form, chosen};

use crate::branches::{long_form, short_form};
use assembly_tree::{Code, Ins, Operand};
use branch_forms::Form;
use il_lists::{Copies, NoMemory};
use opcode_table::{Op, OperandKind, kind_of, opcode_size};
use std::alloc::Global;

/// The bytes of a switch's operand, or a hundred targets' where it has more, and 4 for any other operand.
fn target_bytes(operand: &Operand) -> u64
    ensures value { min result 255 ≡ min (operand_size Switch operand.now) 255 }
    ensures small { result ≤ 404 }
{
    match operand {
        Operand::Targets(targets) => 4 + 4 * targets.get().len().min(100) as u64,
        Operand::Nothing
        | Operand::Var(_)
        | Operand::Int(_)
        | Operand::Real(_)
        | Operand::Target(_)
        | Operand::Method(_)
        | Operand::Field(_)
        | Operand::Of(_)
        | Operand::Text(_) => 4,
    }
}

/// The bytes of an operand of that form, that of a branch being short, or some number above 255 where they are as many.
fn operand_bytes(kind: OperandKind, operand: &Operand) -> u64
    ensures value { min result 255 ≡ min (operand_size (short_kind kind) operand.now) 255 }
    ensures small { result ≤ 404 }
{
    match kind {
        OperandKind::Nothing => 0,
        OperandKind::Var8
        | OperandKind::Num8
        | OperandKind::Byte
        | OperandKind::Branch8
        | OperandKind::Branch32 => 1,
        OperandKind::Var16 => 2,
        OperandKind::Num64 | OperandKind::Real8 => 8,
        OperandKind::Switch => target_bytes(operand),
        OperandKind::Num32
        | OperandKind::Real4
        | OperandKind::Method
        | OperandKind::Field
        | OperandKind::Of
        | OperandKind::Text
        | OperandKind::Token => 4,
    }
}

/// The bytes of an instruction, a branch being short, or 255 where it has more.
fn short_size(ins: &Ins) -> u8
    ensures { result ≡ short_size ins.now }
{
    let bytes = opcode_size(ins.op) as u64 + operand_bytes(kind_of(ins.op), &ins.operand);
    bytes.min(255) as u8
}

/// A short branch with its target, where an operand of that form is one, and else the length.
fn form_in(kind: OperandKind, operand: &Operand, bytes: u8) -> Form
    ensures { result ≡ shortened (form_in kind operand.now bytes) }
{
    match (kind, operand) {
        (OperandKind::Branch8, Operand::Target(to)) => Form::Short(*to),
        (OperandKind::Branch32, Operand::Target(to)) => Form::Short(*to),
        _ => Form::Fixed(bytes),
    }
}

/// The instruction by its length, a branch being short.
fn first_form(ins: &Ins) -> Form
    ensures { result ≡ first_form ins.now }
{
    form_in(kind_of(ins.op), &ins.operand, short_size(ins))
}

/// The instructions by their lengths, all branches being short.
pub fn first_forms(alloc: Global, code: &[Ins]) -> Result<Vec<Form>, NoMemory>
    ensures { IfOk result (λ v. v.items ≡ map first_form code.now) }
{
    let mut forms = Vec::with_capacity(alloc, code.len())?;
    for ins in code {
        forms.push(first_form(ins))?;
    }
    Ok(forms)
}

/// The opcode in that form.
fn op_in(op: Op, form: Form) -> Op
    ensures { result ≡ op_in form op }
{
    match form {
        Form::Fixed(_) | Form::Short(_) => short_form(op),
        Form::Long(_) => long_form(op),
    }
}

/// Whether the opcode is in that form.
fn keeps(op: Op, form: Form) -> bool
    ensures { IsTrue result → op_in form op ≡ op }
{
    op_in(op, form) == op
}

/// A copy of the instruction in that form.
fn in_form(alloc: Global, ins: &Ins, form: Form) -> Result<Ins, NoMemory>
    ensures { IfOk result (λ i. i ≡ in_form form ins.now) }
{
    let operand = ins.operand.copy(alloc)?;
    Ok(Ins {
        op: op_in(ins.op, form),
        operand,
    })
}

/// Gives each instruction its form.
pub fn choose(alloc: Global, code: &mut Code, forms: &[Form]) -> Result<(), NoMemory>
    requires { length code.old ≡ length forms.now }
    ensures { OnOk result (code.new ≡ chosen code.old forms.now) }
{
    for k in 0..forms.len() {
        let ins = code.at(k);
        if !keeps(ins.op, forms[k]) {
            let changed = in_form(alloc, ins, forms[k])?;
            code.set(k, changed);
        }
    }
    Ok(())
}
