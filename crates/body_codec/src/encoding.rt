//! From a body to its bytes.

ghost use Rattle.std.specs.Prelude.{◌≡◌, ◌<◌, ◌++◌, ◌^◌, ℕ, [], length, Err, IfOk, IfErr, OnOk, OnErr};
ghost use Rattle.body_codec.specs.Encoding.{CanBeWritten, IsFarFault, IsFirstFar, IsWritten};
ghost use Rattle.body_codec.specs.Faults.{Answers};
ghost use Rattle.body_codec.specs.Written.{header_bytes, locals_number, tail_bytes, token_map};
ghost use Rattle.body_codec.specs.declared.fault.BodyFault.TheVariants as faults;

mod clauses;
mod code;
mod draft;
mod header;
mod laws;
mod number;
mod operand;
mod section;
mod site;

use crate::{BodyFault, ClauseRow};
use assembly_tree::Body;
use clauses::rows_of;
use code::draft_of;
use draft::Draft;
use header::{locals_token, push_header};
use il_lists::{Bytes, Items, NoMemory};
pub use laws::written_is_read;
use section::push_clauses;
use sig_codec::Numberer;
use std::alloc::Global;

/// The bytes of a body (ECMA-335 II.25.4), in the most compact form: a tiny header and small clauses wherever they serve.
/// `map` has the tokens of what the body names. `Far` names the first short branch that doesn't reach its target.
pub fn encode<N: Numberer>(alloc: Global, body: &Body, map: &N) -> Result<Bytes, BodyFault>
    requires { CanBeWritten (token_map (N.owner_tokens map.now) (N.method_tokens map.now) (N.field_tokens map.now) (N.locals_tokens map.now) (N.text_tokens map.now)) body.now }
    ensures written { IfOk result (IsWritten (token_map (N.owner_tokens map.now) (N.method_tokens map.now) (N.field_tokens map.now) (N.locals_tokens map.now) (N.text_tokens map.now)) body.now) }
    ensures fault { IfErr result (IsFarFault body.now.code) }
    ensures only { (at : ℕ) → IsFirstFar body.now.code at → Answers result (Err (faults.Far at)) }
{
    let mut writer = BodyWriter::new(alloc);
    let mut out = Items::new(alloc);
    writer.write(alloc, body, map, &mut out)?;
    Ok(out)
}

/// Writes bodies one after another, each with the memory that those before it took.
#[derive(Drop)]
pub struct BodyWriter {
    draft: Draft,
}

impl BodyWriter {
    /// A writer that has taken no memory.
    pub fn new(alloc: Global) -> BodyWriter {
        BodyWriter {
            draft: Draft::new(alloc),
        }
    }

    /// Puts the bytes of a body, as [`encode`] answers them, in the place of those in `out`. After a fault `out` holds
    /// nothing.
    pub fn write<N: Numberer>(
        &mut self,
        alloc: Global,
        body: &Body,
        map: &N,
        out: &mut Bytes,
    ) -> Result<(), BodyFault>
        requires { CanBeWritten (token_map (N.owner_tokens map.now) (N.method_tokens map.now) (N.field_tokens map.now) (N.locals_tokens map.now) (N.text_tokens map.now)) body.now }
        ensures written { OnOk result (IsWritten (token_map (N.owner_tokens map.now) (N.method_tokens map.now) (N.field_tokens map.now) (N.locals_tokens map.now) (N.text_tokens map.now)) body.now out.new) }
        ensures fault { IfErr result (IsFarFault body.now.code) }
        ensures only { (at : ℕ) → IsFirstFar body.now.code at → Answers result (Err (faults.Far at)) }
        ensures err { OnErr result (out.new ≡ []) }
    {
        out.truncate(0);
        draft_of(&mut self.draft, body.code.as_slice(), map)?;
        let rows = rows_of(
            alloc,
            body.clauses.as_slice(),
            self.draft.offsets.as_slice(),
            map,
        )?;
        push_body(out, body, self.draft.bytes.as_slice(), rows.as_slice(), map)?;
        Ok(())
    }
}

/// Puts the bytes of a body where none are, or none.
fn push_body<N: Numberer>(
    out: &mut Bytes,
    body: &Body,
    code: &[u8],
    rows: &[ClauseRow],
    numberer: &N,
) -> Result<(), NoMemory>
    requires empty { out.old ≡ [] }
    requires size { length code.now < 2 ^ 31 }
    requires few { length rows.now < 2 ^ 16 }
    ensures written { OnOk result (out.new ≡ out.old ++ header_bytes (locals_number (N.locals_tokens numberer.now) body.now.locals) (length code.now) body.now ++ code.now ++ tail_bytes (length (out.old ++ header_bytes (locals_number (N.locals_tokens numberer.now) body.now.locals) (length code.now) body.now ++ code.now)) rows.now) }
    ensures local { locals_number (N.locals_tokens numberer.now) body.now.locals < 2 ^ 32 }
    ensures bound { body.now.bound < 2 ^ 16 }
    ensures err { OnErr result (out.new ≡ []) }
{
    let added = add_body(out, body, code, rows, numberer);
    if added.is_err() {
        out.truncate(0);
    }
    added
}

/// Adds the bytes of a body: its header, its code, which has these bytes, and its clauses.
fn add_body<N: Numberer>(
    out: &mut Bytes,
    body: &Body,
    code: &[u8],
    rows: &[ClauseRow],
    numberer: &N,
) -> Result<(), NoMemory>
    requires size { length code.now < 2 ^ 31 }
    requires few { length rows.now < 2 ^ 16 }
    ensures written { OnOk result (out.new ≡ out.old ++ header_bytes (locals_number (N.locals_tokens numberer.now) body.now.locals) (length code.now) body.now ++ code.now ++ tail_bytes (length (out.old ++ header_bytes (locals_number (N.locals_tokens numberer.now) body.now.locals) (length code.now) body.now ++ code.now)) rows.now) }
    ensures local { locals_number (N.locals_tokens numberer.now) body.now.locals < 2 ^ 32 }
    ensures bound { body.now.bound < 2 ^ 16 }
{
    let locals = locals_token(&body.locals, numberer);
    push_header(out, body, code.len() as u32, locals)?;
    out.extend(code)?;
    push_clauses(out, rows)
}
