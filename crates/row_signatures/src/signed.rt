ghost use Rattle.std.specs.Prelude.{◌≡◌, ◌<◌, ◌↔◌, ◌⊎◌, ℕ, [], IfOk, IfSome, Contains, length};
ghost use Rattle.image_model.specs.Tokens.{InMethod, InField};
ghost use Rattle.metadata_tables.specs.Schema.{columns_of};
ghost use Rattle.row_signatures.specs.Signed.{signature_column, InSignature, IndexHolds};

use heaps::blob_at;
use il_base::{Items, NoMemory, Numbers};
use image_streams::Image;
use signature_tokens::{
    field_tokens, instantiation_tokens, locals_tokens, method_tokens, property_tokens, type_tokens,
};
use std::alloc::Global;

/// The column of a table that leads to its signatures, None for a table without.
#[tactic(auto, unfolding(metadata_tables::specs::Schema::schema))]
pub fn signature_column(table: u8) -> Option<u8>
    ensures column { result ≡ signature_column table }
    ensures within { IfSome result (λ column. column < length (columns_of table)) }
{
    match table {
        0x04 => Some(2),
        0x06 => Some(4),
        0x0A => Some(2),
        0x11 => Some(0),
        0x17 => Some(2),
        0x1B => Some(0),
        0x2B => Some(1),
        _ => None,
    }
}

/// The tokens in the blob at an index, read as the signature of a row of a table. None where it isn't spelled whole, or where there is no
/// blob.
///
/// # Errors
///
/// There was no memory for them.
pub fn tokens_at(
    alloc: Global,
    image: &Image<'_>,
    table: u8,
    index: u32,
) -> Result<Numbers, NoMemory>
    ensures { IfOk result (λ tokens. (token : ℕ) → Contains tokens token ↔ IndexHolds image.now table index token) }
{
    let mut tokens = Items::new(alloc);
    match blob_at(image.blobs(), index) {
        None => Ok(tokens),
        Some(bytes) => {
            put_tokens(table, bytes, &mut tokens)?;
            Ok(tokens)
        }
    }
}

/// Puts the tokens of a signature into an empty list.
fn put_tokens(table: u8, bytes: &[u8], into: &mut Numbers) -> Result<bool, NoMemory>
    requires { into.old ≡ [] }
    ensures { IfOk result (λ _. (token : ℕ) → Contains into.new token ↔ InSignature table bytes.now token) }
{
    match table {
        0x04 => field_tokens(bytes, into),
        0x06 => method_tokens(bytes, into),
        0x0A => member_tokens(bytes, into),
        0x11 => locals_tokens(bytes, into),
        0x17 => property_tokens(bytes, into),
        0x1B => type_tokens(bytes, into),
        0x2B => instantiation_tokens(bytes, into),
        _ => Ok(false),
    }
}

/// Puts those of a MemberRef into an empty list: of a method, or of a field.
fn member_tokens(bytes: &[u8], into: &mut Numbers) -> Result<bool, NoMemory>
    requires { into.old ≡ [] }
    ensures { IfOk result (λ _. (token : ℕ) → Contains into.new token ↔ (InMethod bytes.now token ⊎ InField bytes.now token)) }
{
    method_tokens(bytes, into)?;
    field_tokens(bytes, into)
}
