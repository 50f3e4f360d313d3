ghost use Rattle.std.specs.Prelude.{◌≡◌, ◌≢◌, ◌↔◌, ◌⊎◌, ℕ, IsTrue, IfOk};
ghost use Rattle.image_model.specs.Naming.{IsToken};
ghost use Rattle.image_model.specs.Rows.{HasRow};
ghost use Rattle.pe_layout.specs.FileMap.{readable};
ghost use Rattle.method_states.specs.States.{Looks, KnownHeader, fault_state};

use crate::tokens::mark_tokens;
use crate::{BodyState, RowMarks};
use body_codec::{BodyFault, read_header};
use body_outlines::outline;
use il_base::NoMemory;
use image_streams::Image;
use std::alloc::Global;

/// Looks at the body that can be read from an RVA on, and marks the rows that it names where it is in order.
pub(crate) fn look(
    alloc: Global,
    image: &Image<'_>,
    rva: u32,
    marks: &mut RowMarks,
) -> Result<BodyState, NoMemory>
    ensures { IfOk result (Looks image.now (readable image.now rva) marks.old marks.new) }
{
    let bytes = readable(image, rva);
    if !has_known_header(image, bytes) {
        return Ok(BodyState::Header);
    }
    look_behind(alloc, image, bytes, marks)
}

/// What can be read from an RVA on.
fn readable<'a>(image: &Image<'a>, rva: u32) -> &'a [u8]
    ensures { result.now ≡ readable image.now rva }
{
    match image.pe().at_rva(rva) {
        Some(bytes) => bytes,
        None => &[],
    }
}

/// Whether the header of a body is known, and so are its locals (ECMA-335 II.25.4.1 to II.25.4.3).
fn has_known_header(image: &Image<'_>, bytes: &[u8]) -> bool
    ensures { IsTrue result ↔ KnownHeader image.now bytes.now }
{
    match read_header(bytes) {
        Some(header) => has_locals(image, header.locals),
        None => false,
    }
}

/// Whether a token of locals is 0, or a row of StandAloneSig (ECMA-335 II.22.36).
fn has_locals(image: &Image<'_>, token: u32) -> bool
    ensures { IsTrue result ↔ ((token ≡ 0) ⊎ ((row : ℕ) × IsToken token 0x11 row × HasRow image.now 0x11 row)) }
{
    if token == 0 {
        return true;
    }
    let table = token / 0x100_0000;
    if table == 0x11 {
        return has_row(image, 0x11, token % 0x100_0000);
    }
    false
}

/// Whether a table has a row.
fn has_row(image: &Image<'_>, table: u8, row: u32) -> bool
    ensures { IsTrue result ↔ HasRow image.now table row }
{
    0 < row && row <= image.tables().rows(table)
}

/// Looks at what stands behind a known header.
fn look_behind(
    alloc: Global,
    image: &Image<'_>,
    bytes: &[u8],
    marks: &mut RowMarks,
) -> Result<BodyState, NoMemory>
    requires { KnownHeader image.now bytes.now }
    ensures { IfOk result (Looks image.now bytes.now marks.old marks.new) }
{
    match outline(alloc, bytes) {
        Ok(told) => {
            mark_tokens(marks, &told);
            Ok(BodyState::Good)
        }
        Err(fault) => state_by(fault),
    }
}

/// What is said of a body by its fault. Those of headers and tokens don't come behind a known header.
fn state_by(fault: BodyFault) -> Result<BodyState, NoMemory>
    ensures { IfOk result (λ state. (state ≡ fault_state fault) × (fault ≢ BodyFault.NoMemory)) }
{
    match fault {
        BodyFault::NoMemory => Err(NoMemory),
        BodyFault::Range { .. } => Ok(BodyState::Clauses),
        BodyFault::Opcode { .. } | BodyFault::Cut { .. } | BodyFault::Target { .. } => {
            Ok(BodyState::Instructions)
        }
        BodyFault::Header | BodyFault::Token { .. } | BodyFault::Far { .. } => {
            Ok(BodyState::Header)
        }
    }
}
