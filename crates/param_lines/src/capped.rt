//! Numbers without a sign, counted up to 2^32, which no count of parameters reaches.

ghost use Rattle.std.specs.Prelude.{◌≡◌, ◌≤◌, ◌^◌, min};
ghost use Rattle.il_lexer.specs.Classes.{first_is};
ghost use Rattle.source_model.specs.Shapes.{natural};
ghost use Rattle.source_model.specs.Source.{Source};
ghost use Rattle.source_model.specs.Values.{int_at, integer};
ghost use Rattle.source_nodes.specs.Integers.{distance};
ghost use Rattle.source_nodes.specs.Readers.{Reads};

use source_nodes::reader::Reader;

// Up to which number is counted.
const MOST: u64 = 0x1_0000_0000;

/// The number that an INT spells, counted up to 2^32; 0 for a negative one.
pub fn natural(reader: &Reader, token: u32) -> u64
    ensures few { result ≤ 0x100000000 }
    ensures number { (s : Source) → Reads reader.now s → result ≡ min (natural (int_at s token)) 0x100000000 }
{
    match reader.integer(token) {
        Some(value) => natural_of(value),
        None => beyond_all(reader.spelling(token)),
    }
}

fn natural_of(value: i128) -> u64
    ensures few { result ≤ 0x100000000 }
    ensures number { result ≡ min (natural value) 0x100000000 }
{
    if value < 0 {
        0
    } else if value < 0x1_0000_0000 {
        value as u64
    } else {
        MOST
    }
}

// The same of a number that lies 2^64 or more from 0.
fn beyond_all(spelling: &[u8]) -> u64
    ensures few { result ≤ 0x100000000 }
    ensures number { 2 ^ 64 ≤ distance (integer spelling.now) → result ≡ min (natural (integer spelling.now)) 0x100000000 }
{
    if is_negative(spelling) { 0 } else { MOST }
}

fn is_negative(spelling: &[u8]) -> bool
    ensures { result ≡ first_is 45 spelling.now }
{
    match spelling {
        [first, ..] => *first == b'-',
        [] => false,
    }
}
