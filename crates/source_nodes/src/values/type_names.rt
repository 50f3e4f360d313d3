//! Names as texts, and as those of types (ECMA-335 II.5.3, II.22.37).

ghost use Rattle.std.specs.Prelude.{◌≡◌, IfOk, IfSome, IsUtf8};
ghost use Rattle.std.specs.Str.{IsAscii};
ghost use Rattle.il_lexer.specs.declared.types.TokenKind.TheVariants.{Scope};
ghost use Rattle.il_lexer.specs.Spelled.{IsName, IsSpelling};
ghost use Rattle.source_model.specs.Nodes.{id_of_texts};
ghost use Rattle.source_model.specs.Values.{between_quotes, dotted, part_texts};
ghost use Rattle.source_nodes.specs.NameTexts.{IsTextOf, id_with};

use crate::values::names::{last_in, name_of, plain_last, space_in};
use crate::values::texts::scope_of;
use il_base::{NoMemory, Text};
use std::alloc::Global;
use type_terms::TypeId;

/// The name of a type, whose space and name are lent.
#[derive(Clone, Copy)]
pub struct PlainId<'a> {
    pub space: &'a [u8],
    pub name: &'a [u8],
}

/// The text of a name: its parts, without quotes, joined by dots.
pub fn name_text(alloc: Global, spelling: &[u8]) -> Result<Text, NoMemory>
    ensures { IsName spelling.now → IsUtf8 spelling.now → IfOk result (λ text. text ≡ dotted (part_texts spelling.now)) }
{
    match plain_last(spelling) {
        Some(_) => ascii_text(alloc, spelling),
        None => quoted_text(alloc, spelling),
    }
}

/// The text of a name that is spelled by itself; None where it may have quotes.
pub fn plain_name(spelling: &[u8]) -> Option<&[u8]>
    ensures { IsName spelling.now → IfSome result (λ text. text.now ≡ dotted (part_texts spelling.now)) }
{
    match plain_last(spelling) {
        Some(_) => Some(spelling),
        None => None,
    }
}

/// The name of a type that is spelled by itself; None where it may have quotes.
pub fn plain_id(spelling: &[u8]) -> Option<PlainId<'_>>
    ensures { IsName spelling.now → IfSome result (λ id. id_with id.space.now id.name.now ≡ id_of_texts (part_texts spelling.now)) }
{
    match plain_last(spelling) {
        Some(last) => Some(PlainId {
            space: space_in(spelling, last),
            name: last_in(spelling, last),
        }),
        None => None,
    }
}

// The text of a name that may have quotes.
fn quoted_text(alloc: Global, spelling: &[u8]) -> Result<Text, NoMemory>
    ensures { IsName spelling.now → IsUtf8 spelling.now → IfOk result (λ text. text ≡ dotted (part_texts spelling.now)) }
{
    let name = name_of(alloc, spelling)?;
    let text = text_of(alloc, name.text.as_slice())?;
    Ok(text)
}

/// The text of a name in brackets, without them.
pub fn scope_text(alloc: Global, spelling: &[u8]) -> Result<Text, NoMemory>
    ensures { IsSpelling Scope spelling.now → IsUtf8 spelling.now → IfOk result (λ text. text ≡ dotted (part_texts (between_quotes spelling.now))) }
{
    let name = scope_of(alloc, spelling)?;
    let text = text_of(alloc, name.text.as_slice())?;
    Ok(text)
}

/// A name as that of a type: all its parts but the last, joined by dots, are the space, the last one is the name.
pub fn type_id(alloc: Global, spelling: &[u8]) -> Result<TypeId, NoMemory>
    ensures { IsName spelling.now → IsUtf8 spelling.now → IfOk result (λ id. id ≡ id_of_texts (part_texts spelling.now)) }
{
    match plain_last(spelling) {
        Some(last) => copied_id(alloc, spelling, last),
        None => quoted_id(alloc, spelling),
    }
}

// The name of a type that is its own text, whose last part begins at a place.
fn copied_id(alloc: Global, spelling: &[u8], last: usize) -> Result<TypeId, NoMemory>
    requires { IsAscii spelling.now }
    ensures { IsTextOf (part_texts spelling.now) spelling.now last → IfOk result (λ id. id ≡ id_of_texts (part_texts spelling.now)) }
{
    let space = ascii_text(alloc, space_in(spelling, last))?;
    let name = ascii_text(alloc, last_in(spelling, last))?;
    Ok(TypeId { space, name })
}

// The name of a type that may have quotes.
fn quoted_id(alloc: Global, spelling: &[u8]) -> Result<TypeId, NoMemory>
    ensures { IsName spelling.now → IsUtf8 spelling.now → IfOk result (λ id. id ≡ id_of_texts (part_texts spelling.now)) }
{
    let full = name_of(alloc, spelling)?;
    let space = text_of(alloc, full.space())?;
    let name = text_of(alloc, full.name())?;
    Ok(TypeId { space, name })
}

// The text of ASCII bytes.
fn ascii_text(alloc: Global, bytes: &[u8]) -> Result<Text, NoMemory>
    requires { IsAscii bytes.now }
    ensures { IfOk result (λ text. text ≡ bytes.now) }
{
    // ASCII is UTF-8.
    let text = unsafe { str::from_utf8_unchecked(bytes) };
    Text::new(alloc, text)
}

// The text of bytes that are UTF-8; no others come here.
fn text_of(alloc: Global, bytes: &[u8]) -> Result<Text, NoMemory>
    ensures { IsUtf8 bytes.now → IfOk result (λ text. text ≡ bytes.now) }
{
    match str::from_utf8(bytes) {
        Ok(text) => Text::new(alloc, text),
        Err(_) => Text::new(alloc, ""),
    }
}
