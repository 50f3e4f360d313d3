//! The rules that the instructions of a method break.
ghost use Rattle.std.specs.Prelude.{◌≡◌, ◌<◌, ◌^◌, map, sum_by, IfOk};
ghost use Rattle.assembly_tree.specs.declared.body.Body.{Body};
ghost use Rattle.assembly_tree.specs.WellFormedBodies.{size_of};
ghost use Rattle.body_verifier.specs.Finding.{RisesWithin};
ghost use Rattle.body_verifier.specs.Reports.{reported};

use crate::sizes::code_size;
use assembly_tree::{Ins, MethodPath};
use il_lists::{Copies, Items, NoMemory};
use std::alloc::Global;

/// A rule that an instruction breaks.
#[derive(Drop)]
pub struct Failure {
    /// The method.
    pub method: MethodPath,
    /// Where the instruction begins in the method's code, in bytes.
    pub offset: u32,
    /// The number of the rule, from 1 to 20; `rule_text` has its text.
    pub rule: u8,
}

/// Failures: of one method by rising offset.
pub type Report = Items<Failure>;

/// An instruction by its place, and the number of the rule that it breaks.
#[derive(Clone, Copy, Drop)]
pub(crate) struct Broken {
    pub at: u32,
    pub rule: u8,
}

fn failed_at(
    alloc: Global,
    at: &MethodPath,
    offset: u32,
    broken: &Broken,
) -> Result<Failure, NoMemory>
    ensures { IfOk result (λ f. f ≡ record { method = at.now; offset = offset; rule = broken.now.rule }) }
{
    let types = at.types.copy(alloc)?;
    Ok(Failure {
        method: MethodPath {
            types,
            method: at.method,
        },
        offset,
        rule: broken.rule,
    })
}

/// What is reported of instructions, whose places rise.
pub(crate) fn report_of(
    alloc: Global,
    at: &MethodPath,
    code: &[Ins],
    broken: &[Broken],
) -> Result<Report, NoMemory>
    requires few { sum_by size_of code.now < 2 ^ 32 }
    requires rising { RisesWithin code.now 0 broken.now }
    ensures { (b : Body) → b.code ≡ code.now → IfOk result (λ r. r ≡ map (reported at.now b) broken.now) }
{
    let mut report = Items::with_capacity(alloc, broken.len())?;
    let mut known = 0;
    let mut offset = 0;
    for next in broken {
        let place = next.at as usize;
        offset += code_size(&code[known..place]);
        known = place;
        report.push(failed_at(alloc, at, offset, next)?)?;
    }
    Ok(report)
}
