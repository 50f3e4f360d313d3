//! Numbers in instructions are in the ranges of their fields (ECMA-335 III.1.7).
ghost use Rattle.std.specs.List.{AllByRecursion};
ghost use Rattle.image_members.specs.Places.{lent};
ghost use Rattle.laws_writable_trees.specs.Ranges.{IsOperandInRange, IsInRange, IsStatedInRange, IsMethodInRange};

use assembly_tree::{Body, Ins, Method, Operand};

/// Each number in the bodies of methods is in the range of its field. It changes nothing: that it returns is what a
/// proof can cite.
pub fn methods_in_range(methods: &[&Method])
    ensures { AllByRecursion IsMethodInRange (lent methods.now) }
{
    for method in methods {
        body_in_range(&method.body);
    }
}

/// The same for one body, where there is one.
fn body_in_range(body: &Option<Body>)
    ensures { IsStatedInRange body.now }
{
    match body {
        None => {}
        Some(body) => code_in_range(body.code.as_slice()),
    }
}

/// The same for instructions.
fn code_in_range(code: &[Ins])
    ensures { AllByRecursion IsInRange code.now }
{
    for instruction in code {
        operand_in_range(&instruction.operand);
    }
}

/// The same for an operand.
fn operand_in_range(operand: &Operand)
    ensures { IsOperandInRange operand.now }
{
    match operand {
        Operand::Var(n) => {
            let _n = *n;
        }
        Operand::Int(n) => {
            let _n = *n;
        }
        Operand::Real(bits) => {
            let _bits = *bits;
        }
        _ => {}
    }
}
