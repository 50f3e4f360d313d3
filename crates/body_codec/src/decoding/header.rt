ghost use Rattle.std.specs.Prelude.{◌≡◌, ◌≤◌, false, true, length, IfSome, IfNone};
ghost use Rattle.body_codec.specs.Header.{HasHeader, is_tiny, is_fat, code_of};
ghost use Rattle.body_codec.specs.Reading.{IsHeader};

use byteorder::{ByteOrder, LittleEndian};

/// What the header of a body says (ECMA-335 II.25.4.1 to II.25.4.4).
#[derive(Clone, Copy)]
pub struct Header {
    /// Where the code begins, in bytes from the header on.
    pub start: usize,
    /// Where it ends.
    pub end: usize,
    /// The most operands that the stack holds.
    pub bound: u16,
    /// Whether the locals begin as zeros.
    pub init: bool,
    /// Whether sections follow.
    pub more: bool,
    /// The token of the locals, or 0.
    pub locals: u32,
}

/// The header at the front of `bytes`. None where it isn't known, or where its code is empty or can't be read.
#[tactic(auto, using(crate::proofs::Headers::tiny_or_fat), unfolding(crate::specs::Header::is_tiny, crate::specs::Header::is_fat, crate::specs::Header::header_size, crate::specs::Header::code_end))]
pub fn read_header(bytes: &[u8]) -> Option<Header>
    ensures found { IfSome result (IsHeader bytes.now) }
    ensures none { IfNone result (HasHeader bytes.now → ⊥) }
{
    if bytes.is_empty() {
        return None;
    }
    if bytes[0] % 4 == 2 {
        return read_tiny(bytes);
    }
    if bytes.len() < 12 {
        return None;
    }
    if bytes[0] % 4 != 3 {
        return None;
    }
    if bytes[1] / 16 != 3 {
        return None;
    }
    read_fat(bytes)
}

/// A tiny header (ECMA-335 II.25.4.2).
#[tactic(auto, unfolding(crate::specs::Header::is_tiny, crate::specs::Header::header_size, crate::specs::Header::code_size, crate::specs::Header::bound_of, crate::specs::Header::inits, crate::specs::Header::has_sections, crate::specs::Header::locals_token, crate::specs::Header::code_end))]
fn read_tiny(bytes: &[u8]) -> Option<Header>
    requires some { 1 ≤ length bytes.now }
    requires known { is_tiny bytes.now ≡ true }
    ensures found { IfSome result (IsHeader bytes.now) }
    ensures none { IfNone result (HasHeader bytes.now → ⊥) }
{
    let size = bytes[0] / 4;
    let end = 1 + usize::from(size);
    if size == 0 || end > bytes.len() {
        return None;
    }
    Some(Header {
        start: 1,
        end,
        bound: 8,
        init: false,
        more: false,
        locals: 0,
    })
}

/// A fat header (ECMA-335 II.25.4.3).
#[tactic(auto, unfolding(crate::specs::Header::number_at, crate::specs::Header::header_size, crate::specs::Header::code_size, crate::specs::Header::bound_of, crate::specs::Header::inits, crate::specs::Header::has_sections, crate::specs::Header::locals_token, crate::specs::Header::code_end))]
fn read_fat(bytes: &[u8]) -> Option<Header>
    requires room { 12 ≤ length bytes.now }
    requires large { is_tiny bytes.now ≡ false }
    requires known { is_fat bytes.now ≡ true }
    ensures found { IfSome result (IsHeader bytes.now) }
    ensures none { IfNone result (HasHeader bytes.now → ⊥) }
{
    let size = LittleEndian::read_u32(&bytes[4..]) as usize;
    if size == 0 || size > bytes.len() - 12 {
        return None;
    }
    Some(Header {
        start: 12,
        end: 12 + size,
        bound: LittleEndian::read_u16(&bytes[2..]),
        init: bytes[0] / 16 % 2 == 1,
        more: bytes[0] / 8 % 2 == 1,
        locals: LittleEndian::read_u32(&bytes[8..]),
    })
}

/// The bytes of the code of a body with this header.
#[tactic(auto, using(crate::proofs::Outlines::code_is), unfolding(crate::specs::Header::code_end))]
pub fn code_in<'a>(bytes: &'a [u8], header: &Header) -> &'a [u8]
    requires { IsHeader bytes.now header.now }
    ensures { result.now ≡ code_of bytes.now }
{
    &bytes[header.start..header.end]
}
