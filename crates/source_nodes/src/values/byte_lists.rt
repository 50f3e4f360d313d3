//! Bytes in parentheses, as pairs of hexadecimal digits (ECMA-335 II.5.3, II.16.2).

ghost use Rattle.std.specs.Prelude.{◌≡◌, ◌<◌, ◌+◌, ◌*◌, ◌∷◌, true, drop, length, IfOk, MatchOption};
ghost use Rattle.il_lexer.specs.declared.types.TokenKind.TheVariants.{ByteArray, EqBytes, RealBytes};
ghost use Rattle.il_lexer.specs.Classes.{is_hex};
ghost use Rattle.il_lexer.specs.Spelled.{HasBytes, IsSpelling};
ghost use Rattle.source_model.specs.Values.{bytes_in_parentheses, digit_value};

use crate::values::bytes::behind;
use crate::values::gaps::behind_gap;
use il_base::{Bytes, NoMemory};
use std::alloc::Global;

/// The bytes of `= ( .. )`.
#[tactic(auto, using(crate::proofs::ByteLemmas::bytes_behind_equals))]
pub fn equals_bytes(alloc: Global, spelling: &[u8]) -> Result<Bytes, NoMemory>
    ensures { IsSpelling EqBytes spelling.now → IfOk result (λ bytes. bytes ≡ bytes_in_parentheses (drop 1 spelling.now)) }
{
    let bytes = bytes_in_parentheses(alloc, behind(spelling, 1))?;
    Ok(bytes)
}

/// The bytes of `bytearray ( .. )`.
#[tactic(auto, using(crate::proofs::ByteLemmas::bytes_behind_word))]
pub fn array_bytes(alloc: Global, spelling: &[u8]) -> Result<Bytes, NoMemory>
    ensures { IsSpelling ByteArray spelling.now → IfOk result (λ bytes. bytes ≡ bytes_in_parentheses (drop 9 spelling.now)) }
{
    let bytes = bytes_in_parentheses(alloc, behind(spelling, 9))?;
    Ok(bytes)
}

/// The bytes of `( .. )`, which are the bits of a real number.
#[tactic(auto, using(crate::proofs::ByteLemmas::real_has_bytes))]
pub fn real_bytes(alloc: Global, spelling: &[u8]) -> Result<Bytes, NoMemory>
    ensures { IsSpelling RealBytes spelling.now → IfOk result (λ bytes. bytes ≡ bytes_in_parentheses spelling.now) }
{
    let bytes = bytes_in_parentheses(alloc, spelling)?;
    Ok(bytes)
}

// The bytes in the parentheses that begin behind the gap at the front.
fn bytes_in_parentheses(alloc: Global, text: &[u8]) -> Result<Bytes, NoMemory>
    ensures { HasBytes text.now → IfOk result (λ bytes. bytes ≡ bytes_in_parentheses text.now) }
{
    let mut bytes = Bytes::with_capacity(alloc, text.len() / 3)?;
    let mut rest = behind_gap(behind(behind_gap(text), 1));
    while let Some((high, low, more)) = next_pair(rest) {
        bytes.push(byte_of(high, low))?;
        rest = behind_gap(more);
    }
    Ok(bytes)
}

// The first two bytes and those behind them, where there are two.
fn next_pair(bytes: &[u8]) -> Option<(u8, u8, &[u8])>
    ensures { MatchOption result (length bytes.now < 2) (λ step. bytes.now ≡ step.0 ∷ step.1 ∷ step.2.now) }
{
    match bytes {
        [high, low, rest @ ..] => Some((*high, *low, rest)),
        _ => None,
    }
}

// The byte that two hexadecimal digits spell.
fn byte_of(high: u8, low: u8) -> u8
    ensures { is_hex high ≡ true → is_hex low ≡ true → result ≡ 16 * digit_value high + digit_value low }
{
    (digit_value(high) & 15) * 16 + (digit_value(low) & 15)
}

fn digit_value(digit: u8) -> u8
    ensures { result ≡ digit_value digit }
{
    let zero = if digit <= b'9' {
        48
    } else if digit <= b'F' {
        55
    } else {
        87
    };
    digit.saturating_sub(zero)
}
