//! Numbers without a sign.

ghost use Rattle.std.specs.Prelude.{◌≡◌, ◌%◌, ◌^◌, ◌<◌, true};
ghost use Rattle.il_lexer.specs.Classes.{first_is};
ghost use Rattle.source_model.specs.OutOfRange.{is_16_bits, is_32_bits};
ghost use Rattle.source_model.specs.Shapes.{natural};
ghost use Rattle.source_model.specs.Source.{Source};
ghost use Rattle.source_model.specs.Values.{int_at, integer};
ghost use Rattle.source_nodes.specs.Readers.{Reads};

use source_nodes::reader::Reader;
use source_nodes::values::integers::wrapped_integer;

/// The number that an INT spells, modulo 2^64; 0 for a negative one.
pub fn natural(reader: &Reader, token: u32) -> u64
    ensures { (s : Source) → Reads reader.now s → result ≡ natural (int_at s token) % 2 ^ 64 }
{
    natural_of(reader.spelling(token))
}

/// The number that an INT spells, where it has 16 bits and no sign.
pub fn natural_16(reader: &Reader, token: u32) -> u16
    ensures { (s : Source) → Reads reader.now s → is_16_bits (int_at s token) ≡ true → result ≡ natural (int_at s token) }
{
    short_of(reader.natural(token))
}

/// The number that an INT spells, where it has 32 bits and no sign.
pub fn natural_32(reader: &Reader, token: u32) -> u32
    ensures { (s : Source) → Reads reader.now s → is_32_bits (int_at s token) ≡ true → result ≡ natural (int_at s token) }
{
    reader.natural(token)
}

/// A number of 16 bits, where it is one.
pub fn short_of(n: u32) -> u16
    ensures { n < 2 ^ 16 → result ≡ n }
{
    if n <= 0xFFFF { n as u16 } else { 0 }
}

#[tactic(auto, unfolding(source_model::specs::Values::integer))]
fn natural_of(spelling: &[u8]) -> u64
    ensures { result ≡ natural (integer spelling.now) % 2 ^ 64 }
{
    if is_negative(spelling) {
        0
    } else {
        wrapped_integer(spelling)
    }
}

fn is_negative(spelling: &[u8]) -> bool
    ensures { result ≡ first_is 45 spelling.now }
{
    match spelling {
        [first, ..] => *first == b'-',
        [] => false,
    }
}
