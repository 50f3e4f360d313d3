//! Numbers of the tree, which are in their ranges where the source breaks no rule.

ghost use Rattle.std.specs.Prelude.{◌≡◌, ◌<◌, ◌^◌};

/// A number of 32 bits, where it is one.
pub fn word_of(n: usize) -> u32
    ensures { n < 2 ^ 32 → result ≡ n }
{
    if n <= 0xFFFF_FFFF { n as u32 } else { 0 }
}
