ghost use Rattle.std.specs.Prelude.{◌≡◌, ◌<◌, ℕ, List, IfOk, sum_by};

use il_lists::{Items, NoMemory};
use std::alloc::Global;

/// Values that nest lists of their own kind.
pub trait Nests: Drop {
    /// What it nests.
    ghost nested: { Self → List Self };

    /// The number of values that it is, with all that it nests.
    ghost count: { Self → ℕ };

    /// Lends what it nests.
    fn nests(&self) -> &[Self]
        ensures lent { result.now ≡ nested self.now }
        ensures fewer { sum_by count result.now < count self.now };

    /// A copy of all but what it nests, for which it takes `inner`.
    fn copied_around(&self, inner: Items<Self>, alloc: Global) -> Result<Self, NoMemory>
        ensures { IfOk result (λ c. inner ≡ nested self.now → c ≡ self.now) };
}

/// Copies of `all` with what they nest.
pub fn copied_all<T: Nests>(all: &[T], alloc: Global) -> Result<Items<T>, NoMemory>
    ensures { IfOk result (λ c. c ≡ all.now) }
{
    let mut copies = Items::with_capacity(alloc, all.len())?;
    for of in all {
        let inner = copied_all(of.nests(), alloc)?;
        let copied = of.copied_around(inner, alloc)?;
        copies.push(copied)?;
    }
    Ok(copies)
}
