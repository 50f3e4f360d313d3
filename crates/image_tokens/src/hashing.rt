//! The hashes by which rows and loaded texts are found again, by the steps that hash names, types and references.
ghost use Rattle.std.specs.Prelude.{◌≡◌};
ghost use Rattle.type_terms.specs.Hashing.{mix_text};
ghost use Rattle.image_tokens.specs.Hashing.{hash_cells};

use il_base::Units;
use type_terms::hashing::{START, mix};

/// The hash of the cells of a row. The second cell, which is mostly the index of a name, comes last, all but its last two bits
/// in the low bits: names that follow one another in their heap stand near one another in a table, in the same order.
pub fn hash_cells(first: u32, second: u32, third: u32) -> u64
    ensures { result ≡ hash_cells first second third }
{
    let hash = mix(mix(START, u64::from(first)), u64::from(third));
    mix(
        hash,
        u64::from(second % 4) * (1 << 62) + u64::from(second / 4),
    )
}

/// Mixes a text of UTF-16 units in.
#[tactic(auto, unfolding(type_terms::specs::Hashing::mix_text))]
pub fn mix_units(hash: u64, units: &Units) -> u64
    ensures { result ≡ mix_text hash units.now }
{
    let mut hash = hash;
    for unit in units.as_slice() {
        hash = mix(hash, 2 * u64::from(*unit));
    }
    hash
}
