//! What is printed for a word.

use crate::bodies::body_of;
use crate::fault::Fault;
use assembly_tree::{Ins, Operand};
use il_shrink::shrink;
use opcode_table::{OperandKind, kind_of, opcode_size, operand_size, word_of};

/// How many branches are told by their words.
const MOST_WORDS: u64 = 28;

/// The bytes of code, and its branches.
#[derive(Clone, Copy)]
struct Counts {
    bytes: u64,
    short: u64,
    long: u64,
}

/// Prints what the body of the word is with short branches.
///
/// # Errors
///
/// The word doesn't fit, the line couldn't be written, or there was no memory.
pub fn answer(rt: &HostRuntime, word: &str) -> Result<(), Fault> {
    let body = body_of(rt.alloc(), word)?;
    let shrunk = shrink(rt.alloc(), &body)?;
    let counts = counts_of(shrunk.code.as_slice());
    print!(rt;
        "{word}: {} bytes, {} short, {} long",
        counts.bytes, counts.short, counts.long
    )?;
    if counts.short.saturating_add(counts.long) <= MOST_WORDS {
        show_branches(rt, shrunk.code.as_slice())?;
    }
    rt.println("")?;
    Ok(())
}

fn counts_of(code: &[Ins]) -> Counts {
    let mut counts = Counts {
        bytes: 0,
        short: 0,
        long: 0,
    };
    for ins in code {
        counts = counts.with(ins);
    }
    counts
}

impl Counts {
    /// With one more instruction.
    fn with(self, ins: &Ins) -> Counts {
        let kind = kind_of(ins.op);
        let bytes = (opcode_size(ins.op) + operand_size(kind)) as u64;
        let bytes = bytes.saturating_add(target_bytes(&ins.operand));
        Counts {
            bytes: self.bytes.saturating_add(bytes),
            short: self
                .short
                .saturating_add(u64::from(kind == OperandKind::Branch8)),
            long: self
                .long
                .saturating_add(u64::from(kind == OperandKind::Branch32)),
        }
    }
}

/// Four for each target of a switch.
fn target_bytes(operand: &Operand) -> u64 {
    match operand {
        Operand::Targets(targets) => (targets.get().len() as u64).saturating_mul(4),
        _ => 0,
    }
}

/// Prints the branches' words in order.
fn show_branches(rt: &HostRuntime, code: &[Ins]) -> Result<(), Fault> {
    for ins in code {
        if let Operand::Target(_) = ins.operand {
            print!(rt; " {}", word_of(ins.op))?;
        }
    }
    Ok(())
}
