ghost use Rattle.std.specs.Prelude.{◌≡◌, ◌<◌, ◌++◌, ◌^◌, OnOk};
ghost use Rattle.body_codec.specs.Written.{fat_header, header_bytes, locals_number, serves_tiny};

use crate::encoding::number::push_number;
use assembly_tree::Body;
use il_lists::{Bytes, NoMemory};
use sig_codec::Numberer;
use type_terms::Types;

/// Adds the header of a body with `size` bytes of code: the tiny one wherever it serves (II.25.4.1 to II.25.4.3).
/// `locals` is the token of its locals, or 0.
pub(crate) fn push_header(
    out: &mut Bytes,
    body: &Body,
    size: u32,
    locals: u32,
) -> Result<(), NoMemory>
    ensures written { OnOk result (out.new ≡ out.old ++ header_bytes locals size body.now) }
    ensures bound { body.now.bound < 2 ^ 16 }
{
    let bound = body.bound;
    if serves_tiny(body, size) {
        out.extend(&[4 * size as u8 + 2])
    } else {
        push_fat(out, bound, body, size, locals)
    }
}

/// Whether the tiny header serves.
fn serves_tiny(body: &Body, size: u32) -> bool
    ensures { result ≡ serves_tiny size body.now }
{
    body.bound == 8 && !body.init && body.locals.len() == 0 && body.clauses.len() == 0 && size < 64
}

/// Adds the fat header (II.25.4.3).
fn push_fat(
    out: &mut Bytes,
    bound: u16,
    body: &Body,
    size: u32,
    locals: u32,
) -> Result<(), NoMemory>
    requires { bound ≡ body.now.bound }
    ensures { OnOk result (out.new ≡ out.old ++ fat_header locals size body.now) }
{
    let more = if body.clauses.len() == 0 { 0 } else { 8 };
    let init = if body.init { 16 } else { 0 };
    out.extend(&[3 + more + init, 0x30])?;
    push_number(out, 2, u64::from(bound))?;
    push_number(out, 4, u64::from(size))?;
    push_number(out, 4, u64::from(locals))
}

/// The token of a list of locals, or 0 where there are none.
pub(crate) fn locals_token<N: Numberer>(locals: &Types, map: &N) -> u32
    ensures number { result ≡ locals_number (N.locals_tokens map.now) locals.now }
    ensures small { result < 2 ^ 32 }
{
    if locals.is_empty() {
        0
    } else {
        map.token_of_locals(locals).unwrap_or(0)
    }
}
