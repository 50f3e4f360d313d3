//! The text that a name stands for (ECMA-335 II.5.2, II.5.3).

ghost use Rattle.std.specs.Prelude.{◌≡◌, ◌≤◌, ◌-◌, ◌==◌, not, ℕ, List, ◌++◌, length, take, drop, IfOk};
ghost use Rattle.il_lexer.specs.Runs.{front};
ghost use Rattle.il_lexer.specs.Spelled.{IsName, IsPart};
ghost use Rattle.source_model.specs.Values.{part_text, part_texts};
ghost use Rattle.source_nodes.specs.NameTexts.{IsTextOf, EndsPart, plain_last};

use crate::values::bytes::{behind, first_is};
use crate::values::quotes::push_quoted;
use il_base::{Bytes, NoMemory};
use std::alloc::Global;

/// The text of a name, its parts joined by dots, and the place in it of the last part.
#[derive(Drop)]
pub struct NameText {
    pub text: Bytes,
    pub last: usize,
}

/// The text of a name: its parts, without quotes, joined by dots.
pub fn name_of(alloc: Global, spelling: &[u8]) -> Result<NameText, NoMemory>
    ensures { IsName spelling.now → IfOk result (λ name. IsTextOf (part_texts spelling.now) name.text name.last) }
{
    let mut text = Bytes::with_capacity(alloc, spelling.len())?;
    let mut last = 0;
    let mut rest = push_part(&mut text, spelling)?;
    while let [_, more @ ..] = rest {
        text.push(b'.')?;
        last = text.len();
        rest = push_part(&mut text, more)?;
    }
    Ok(NameText { text, last })
}

/// Where the last part of a name begins that is ASCII without quotes, which is its own text; None for any other.
pub fn plain_last(spelling: &[u8]) -> Option<usize>
    ensures { result ≡ plain_last 0 0 spelling.now }
{
    let mut at = 0;
    let mut last = 0;
    while at < spelling.len() {
        let byte = spelling[at];
        if byte == b'\'' || byte >= 128 {
            return None;
        }
        at += 1;
        if byte == b'.' {
            last = at;
        }
    }
    Some(last)
}

// Adds the text of the part at the front, and answers what stands behind it.
fn push_part<'a>(text: &mut Bytes, rest: &'a [u8]) -> Result<&'a [u8], NoMemory>
    ensures pushed { (part after : List ℕ) → IsPart part → EndsPart after → rest.now ≡ part ++ after → IfOk result (λ more. (more.now ≡ after) × (text.new ≡ text.old ++ part_text part)) }
    ensures shorter { IfOk result (λ more. length more.now ≤ length rest.now) }
{
    if first_is(rest, b'\'') {
        let more = push_quoted(text, b'\'', behind(rest, 1))?;
        return Ok(more);
    }
    let more = push_identifier(text, rest)?;
    Ok(more)
}

// Adds the bytes up to the next dot, and answers what stands behind them.
fn push_identifier<'a>(text: &mut Bytes, rest: &'a [u8]) -> Result<&'a [u8], NoMemory>
    ensures { let n = front (λ b. not (b == 46)) rest.now in IfOk result (λ more. (more.now ≡ drop n rest.now) × (text.new ≡ text.old ++ take n rest.now)) }
{
    let (identifier, more) = rest.split_at(length_to_dot(rest));
    text.extend(identifier)?;
    Ok(more)
}

// The number of bytes before the next dot.
fn length_to_dot(rest: &[u8]) -> usize
    ensures value { result ≡ front (λ b. not (b == 46)) rest.now }
    ensures fits { result ≤ length rest.now }
{
    rest.iter().take_while(|byte| **byte != b'.').count()
}

impl NameText {
    /// All of its parts but the last, joined by dots.
    pub fn space(&self) -> &[u8]
        ensures { result.now ≡ take (self.now.last - 1) self.now.text }
    {
        space_in(self.text.as_slice(), self.last)
    }

    /// Its last part.
    pub fn name(&self) -> &[u8]
        ensures { result.now ≡ drop self.now.last self.now.text }
    {
        last_in(self.text.as_slice(), self.last)
    }
}

/// What stands before the dot in front of the last part of a text, which begins at a place.
pub fn space_in(text: &[u8], last: usize) -> &[u8]
    ensures { result.now ≡ take (last - 1) text.now }
{
    let end = last.saturating_sub(1).min(text.len());
    &text[..end]
}

/// The last part of a text, which begins at a place.
pub fn last_in(text: &[u8], last: usize) -> &[u8]
    ensures { result.now ≡ drop last text.now }
{
    let start = last.min(text.len());
    &text[start..]
}
