ghost use Rattle.std.specs.Prelude.{◌≡◌, IfOk, IfErr};
ghost use Rattle.body_codec.specs.Faults.{IsOutlineFault};
ghost use Rattle.body_codec.specs.Reading.{IsHeader};
ghost use Rattle.body_codec.specs.ReadingClauses.{HasOutline};

use super::header::{Header, code_in};
use super::layout::{Layout, read_starts};
use super::marks::{Marks, read_marks};
use super::sections::{Clauses, read_clauses};
use super::targets::check_targets;
use crate::BodyFault;
use il_lists::Numbers;
use std::alloc::Global;

/// A body up to the names of its tokens: what its bytes say by themselves.
#[derive(Drop)]
pub struct Outline {
    /// Where its instructions stand, in order.
    pub marks: Marks,
    /// For each offset of the code the number of the instruction that begins there.
    pub starts: Numbers,
    /// Its exception clauses.
    pub clauses: Clauses,
}

/// The outline of the body with this header (ECMA-335 II.25.4).
///
/// # Errors
///
/// The first of these that stands: `Opcode` and `Cut` at the first instruction that isn't known or is cut; `Target` at the
/// first instruction with a target that is no instruction's start; `Range` at the first clause that is wrong, that a section
/// should hold that can't be read, or that is one too many. `NoMemory` where there is none.
pub fn read_outline(alloc: Global, bytes: &[u8], header: &Header) -> Result<Outline, BodyFault>
    requires { IsHeader bytes.now header.now }
    ensures found { IfOk result (HasOutline bytes.now) }
    ensures fault { IfErr result (IsOutlineFault bytes.now) }
{
    let code = code_in(bytes, header);
    let marks = read_marks(alloc, code)?;
    let places = marks.as_slice();
    let starts = read_starts(alloc, code, places)?;
    let layout = Layout {
        code,
        marks: places,
        starts: starts.as_slice(),
    };
    check_targets(&layout)?;
    let clauses = read_clauses(alloc, bytes, header, &layout)?;
    Ok(Outline {
        marks,
        starts,
        clauses,
    })
}
