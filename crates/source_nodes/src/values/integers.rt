//! The number that an INT spells (ECMA-335 II.5.2).

ghost use Rattle.std.specs.Prelude.{◌≡◌, ◌<◌, ◌≤◌, ◌^◌, ◌+◌, ◌*◌, ◌%◌, ◌&&◌, drop, MatchOption};
ghost use Rattle.il_lexer.specs.Classes.{first_is};
ghost use Rattle.source_model.specs.Constants.{wrapped};
ghost use Rattle.source_model.specs.Values.{digit_value, number_by, magnitude, integer};
ghost use Rattle.source_nodes.specs.Integers.{distance};

use crate::values::bytes::{behind, first_is};

/// The number that an INT spells, or None where it lies 2^64 or more from 0, which is outside of what any number in a source
/// may be.
#[tactic(auto, unfolding(source_model::specs::Values::integer))]
pub fn integer(spelling: &[u8]) -> Option<i128>
    ensures { MatchOption result (2 ^ 64 ≤ distance (integer spelling.now)) (λ value. value ≡ integer spelling.now) }
{
    if first_is(spelling, b'-') {
        let value = magnitude(behind(spelling, 1))?;
        Some(-i128::from(value))
    } else {
        let value = magnitude(spelling)?;
        Some(i128::from(value))
    }
}

/// The number that an INT spells, modulo 2^64.
#[tactic(auto, unfolding(source_model::specs::Values::integer))]
pub fn wrapped_integer(spelling: &[u8]) -> u64
    ensures { result ≡ wrapped 64 (integer spelling.now) }
{
    if first_is(spelling, b'-') {
        0u64.wrapping_sub(wrapped_magnitude(behind(spelling, 1)))
    } else {
        wrapped_magnitude(spelling)
    }
}

// The number that is spelled without a sign, or None from 2^64 on.
#[tactic(auto, unfolding(source_model::specs::Values::magnitude))]
fn magnitude(digits: &[u8]) -> Option<u64>
    ensures { MatchOption result (2 ^ 64 ≤ magnitude digits.now) (λ value. value ≡ magnitude digits.now) }
{
    if is_hexadecimal(digits) {
        number_by(16, behind(digits, 2))
    } else {
        number_by(10, digits)
    }
}

// The number that digits spell, or None from 2^64 on.
fn number_by(base: u64, digits: &[u8]) -> Option<u64>
    requires { 0 < base }
    ensures { MatchOption result (2 ^ 64 ≤ number_by base digits.now) (λ value. value ≡ number_by base digits.now) }
{
    let mut value: u64 = 0;
    for digit in digits {
        let Some(more) = with_digit(value, base, *digit) else {
            return None;
        };
        value = more;
    }
    Some(value)
}

// A number with one more digit behind it, or None from 2^64 on.
fn with_digit(value: u64, base: u64, digit: u8) -> Option<u64>
    ensures { MatchOption result (2 ^ 64 ≤ value * base + digit_value digit) (λ more. more ≡ value * base + digit_value digit) }
{
    match value.checked_mul(base) {
        Some(shifted) => shifted.checked_add(digit_value(digit)),
        None => None,
    }
}

// The number that is spelled without a sign, modulo 2^64.
#[tactic(auto, unfolding(source_model::specs::Values::magnitude))]
fn wrapped_magnitude(digits: &[u8]) -> u64
    ensures { result ≡ magnitude digits.now % 2 ^ 64 }
{
    if is_hexadecimal(digits) {
        wrapped_number_by(16, behind(digits, 2))
    } else {
        wrapped_number_by(10, digits)
    }
}

// The number that digits spell, modulo 2^64.
fn wrapped_number_by(base: u64, digits: &[u8]) -> u64
    ensures { result ≡ number_by base digits.now % 2 ^ 64 }
{
    let mut value: u64 = 0;
    for digit in digits {
        value = value.wrapping_mul(base).wrapping_add(digit_value(*digit));
    }
    value
}

fn digit_value(digit: u8) -> u64
    ensures { result ≡ digit_value digit }
{
    let zero = if digit <= b'9' {
        48
    } else if digit <= b'F' {
        55
    } else {
        87
    };
    u64::from(digit.saturating_sub(zero))
}

// Whether `0x` stands first.
fn is_hexadecimal(digits: &[u8]) -> bool
    ensures { result ≡ (first_is 48 digits.now && first_is 120 (drop 1 digits.now)) }
{
    first_is(digits, b'0') && first_is(behind(digits, 1), b'x')
}
