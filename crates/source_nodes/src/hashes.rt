//! The hashes by which texts are found: FNV-1a at 64 bits, and FNV-1, whose last byte isn't multiplied.

ghost use Rattle.std.specs.Prelude.{◌≡◌};
ghost use Rattle.source_nodes.specs.TextHash.{mix, mix_near, mix_text, mix_text_near, text_hash};

const START: u64 = 0xCBF2_9CE4_8422_2325;

const PRIME: u64 = 0x0000_0100_0000_01B3;

/// The hash of a text.
#[tactic(auto, unfolding(crate::specs::TextHash::text_hash))]
pub fn text_hash(text: &[u8]) -> u64
    ensures { result ≡ text_hash text.now }
{
    mix_text(START, text)
}

#[tactic(auto, unfolding(crate::specs::TextHash::mix_text))]
pub fn mix_text(hash: u64, text: &[u8]) -> u64
    ensures { result ≡ mix_text hash text.now }
{
    let mut hash = hash;
    for byte in text {
        hash = mix(hash, u64::from(*byte));
    }
    hash
}

/// One step of FNV-1a.
#[tactic(auto, unfolding(crate::specs::TextHash::mix))]
pub fn mix(hash: u64, number: u64) -> u64
    ensures { result ≡ mix hash number }
{
    (hash ^ number).wrapping_mul(PRIME)
}

/// Mixes a text in, so that texts which differ in their last byte alone, as numbered names do, have hashes near one another, and
/// stand near one another in a table.
#[tactic(auto, unfolding(crate::specs::TextHash::mix_text_near))]
pub fn mix_text_near(hash: u64, text: &[u8]) -> u64
    ensures { result ≡ mix_text_near hash text.now }
{
    let mut hash = hash;
    for byte in text {
        hash = mix_near(hash, *byte);
    }
    hash
}

// One step of FNV-1.
#[tactic(auto, unfolding(crate::specs::TextHash::mix_near))]
fn mix_near(hash: u64, byte: u8) -> u64
    ensures { result ≡ mix_near hash byte }
{
    hash.wrapping_mul(PRIME) ^ u64::from(byte)
}
