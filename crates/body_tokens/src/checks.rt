ghost use Rattle.std.specs.Prelude.{◌≡◌, ◌↔◌, ◌∷◌, ℕ, List, IsTrue};
ghost use Rattle.image_model.specs.Columns.{member_signature};
ghost use Rattle.image_model.specs.Rows.{HasRow};
ghost use Rattle.body_tokens.specs.Tokens.{NamesRow, IsFieldMember, IsMemberOf, IsTypeToken, IsMethodToken, IsFieldToken, IsTextToken, IsKnownUse};

use heaps::{blob_at, user_at};
use image_streams::Image;
use opcode_table::OperandKind;

/// Whether a token names what an operand of this kind wants.
pub(crate) fn is_known(image: &Image<'_>, kind: OperandKind, token: u32) -> bool
    ensures { IsTrue result ↔ IsKnownUse image.now kind token }
{
    match kind {
        OperandKind::Method => is_method(image, token),
        OperandKind::Field => is_field(image, token),
        OperandKind::Of => is_type(image, token),
        OperandKind::Text => is_text(image, token),
        OperandKind::Token => {
            is_method(image, token) || is_field(image, token) || is_type(image, token)
        }
        _ => false,
    }
}

/// Whether a token names a type: a row of TypeDef, TypeRef or TypeSpec.
pub(crate) fn is_type(image: &Image<'_>, token: u32) -> bool
    ensures { IsTrue result ↔ IsTypeToken image.now token }
{
    names_row(image, token, 0x02) || names_row(image, token, 0x01) || names_row(image, token, 0x1B)
}

/// Whether a token names a method: a row of MethodDef or MethodSpec, or one of MemberRef whose signature isn't a field's.
fn is_method(image: &Image<'_>, token: u32) -> bool
    ensures { IsTrue result ↔ IsMethodToken image.now token }
{
    names_row(image, token, 0x06) || names_row(image, token, 0x2B) || is_method_member(image, token)
}

/// Whether a token names a field: a row of Field, or one of MemberRef with a field's signature.
fn is_field(image: &Image<'_>, token: u32) -> bool
    ensures { IsTrue result ↔ IsFieldToken image.now token }
{
    names_row(image, token, 0x04) || is_field_member(image, token)
}

/// Whether a token names a row of MemberRef whose signature isn't a field's.
fn is_method_member(image: &Image<'_>, token: u32) -> bool
    ensures { IsTrue result ↔ IsMemberOf image.now token (λ row. IsFieldMember image.now row → ⊥) }
{
    if names_row(image, token, 0x0A) {
        return !has_field_signature(image, token % 0x100_0000);
    }
    false
}

/// Whether a token names a row of MemberRef with a field's signature.
fn is_field_member(image: &Image<'_>, token: u32) -> bool
    ensures { IsTrue result ↔ IsMemberOf image.now token (IsFieldMember image.now) }
{
    if names_row(image, token, 0x0A) {
        return has_field_signature(image, token % 0x100_0000);
    }
    false
}

/// Whether a token names a user string (ECMA-335 II.24.2.4).
fn is_text(image: &Image<'_>, token: u32) -> bool
    ensures { IsTrue result ↔ IsTextToken image.now token }
{
    let table = token / 0x100_0000;
    if table != 0x70 {
        return false;
    }
    match user_at(image.user(), token % 0x100_0000) {
        Some(_) => true,
        None => false,
    }
}

/// Whether a token names a row of a table.
fn names_row(image: &Image<'_>, token: u32, table: u8) -> bool
    ensures { IsTrue result ↔ NamesRow image.now token table }
{
    let named = token / 0x100_0000;
    let wanted = u32::from(table);
    if named == wanted {
        return has_row(image, table, token % 0x100_0000);
    }
    false
}

/// Whether a table has a row.
fn has_row(image: &Image<'_>, table: u8, row: u32) -> bool
    ensures { IsTrue result ↔ HasRow image.now table row }
{
    0 < row && row <= image.tables().rows(table)
}

/// Whether the signature of a row of MemberRef begins as a field's (ECMA-335 II.23.2.4).
fn has_field_signature(image: &Image<'_>, row: u32) -> bool
    requires { HasRow image.now 0x0A row }
    ensures { IsTrue result ↔ IsFieldMember image.now row }
{
    match blob_at(image.blobs(), signature_of(image, row)) {
        Some(bytes) => begins_field(bytes),
        None => false,
    }
}

/// The signature of a row of MemberRef, as an index of its heap.
fn signature_of(image: &Image<'_>, row: u32) -> u32
    requires { HasRow image.now 0x0A row }
    ensures { result ≡ member_signature image.now row }
{
    image.tables().cell(0x0A, row, 2)
}

/// Whether bytes begin as the signature of a field.
fn begins_field(bytes: &[u8]) -> bool
    ensures { IsTrue result ↔ ((rest : List ℕ) × (bytes.now ≡ 0x06 ∷ rest)) }
{
    let length = bytes.len();
    if length == 0 {
        return false;
    }
    bytes[0] == 0x06
}
