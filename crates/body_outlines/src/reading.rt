ghost use Rattle.std.specs.Prelude.{◌≡◌, ◌≢◌, IfOk, IfErr};
ghost use Rattle.std.specs.List.{All, filter_map};
ghost use Rattle.body_codec.specs.declared.fault.BodyFault.{BodyFault};
ghost use Rattle.body_codec.specs.Faults.{IsFaultOfAll, Answers};
ghost use Rattle.body_codec.specs.Reading.{IsHeader};
ghost use Rattle.body_codec.specs.ReadingClauses.{HasOutline};
ghost use Rattle.body_outlines.specs.declared.outlined.BodyOutline.{BodyOutline};
ghost use Rattle.body_outlines.specs.Outlines.{Outlines};

use crate::BodyOutline;
use crate::counts::targets_of;
use crate::uses::{catches_of, operands_of};
use body_codec::{BodyFault, Header, Outline, code_in, read_header, read_outline};
use il_lists::NoMemory;
use std::alloc::Global;

/// What the body at the front of these bytes says by itself (ECMA-335 II.25.4). Each byte is looked at a few times, and
/// no more memory is taken than some numbers for each byte.
///
/// # Errors
///
/// Those of `body_codec::decode` over a namer that knows every token; `Token` and `Far` never come. `NoMemory` where there is none.
pub fn outline(alloc: Global, bytes: &[u8]) -> Result<BodyOutline, BodyFault>
    ensures outline { IfOk result (Outlines bytes.now) }
    ensures fault { IfErr result (IsFaultOfAll bytes.now) }
    ensures only_outline { (o : BodyOutline) → Outlines bytes.now o → Answers result (Ok o) }
    ensures only_fault { (fault : BodyFault) → fault ≢ BodyFault.NoMemory → IsFaultOfAll bytes.now fault → Answers result (Err fault) }
{
    read(alloc, bytes)
}

/// The same, stage by stage.
fn read(alloc: Global, bytes: &[u8]) -> Result<BodyOutline, BodyFault>
    ensures outline { IfOk result (Outlines bytes.now) }
    ensures fault { IfErr result (IsFaultOfAll bytes.now) }
{
    let Some(header) = read_header(bytes) else {
        return Err(BodyFault::Header);
    };
    let outline = read_outline(alloc, bytes, &header)?;
    let told = told_by(alloc, bytes, &header, &outline)?;
    Ok(told)
}

/// What the stages found.
fn told_by(
    alloc: Global,
    bytes: &[u8],
    header: &Header,
    outline: &Outline,
) -> Result<BodyOutline, NoMemory>
    requires header { IsHeader bytes.now header.now }
    requires outline { HasOutline bytes.now outline.now }
    ensures { IfOk result (Outlines bytes.now) }
{
    let code = code_in(bytes, header);
    let marks = outline.marks.as_slice();
    let found = outline.clauses.found.as_slice();
    let operands = operands_of(alloc, code, marks)?;
    let catches = catches_of(alloc, found)?;
    let targets = targets_of(code, marks);
    Ok(BodyOutline {
        locals: header.locals,
        operands,
        catches,
        instructions: marks.len() as u32,
        targets,
        clauses: found.len() as u32,
    })
}
