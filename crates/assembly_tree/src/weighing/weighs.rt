ghost use Rattle.std.specs.Prelude.{◌≡◌, ◌*◌, ◌-◌, ℕ, sum_by};
ghost use Rattle.assembly_tree.specs.Weight.{optional};

use il_lists::Items;

/// Values that count for the weight of an assembly.
pub trait Weighs {
    /// Its weight.
    ghost weight: { Self → ℕ };

    /// What is left of `left` once its weight is taken off: 0 where it weighs that or more.
    fn charge(&self, left: u64) -> u64
        ensures { result ≡ left - weight self.now };
}

impl<T: Weighs> Weighs for Items<T> {
    ghost weight = { sum_by T.weight };

    fn charge(&self, left: u64) -> u64 {
        let mut left = left;
        for item in self.as_slice() {
            left = item.charge(left);
        }
        left
    }
}

impl<T: Weighs> Weighs for Option<T> {
    ghost weight = { optional T.weight };

    fn charge(&self, left: u64) -> u64 {
        match self {
            None => left,
            Some(item) => item.charge(left),
        }
    }
}

/// What is left of `left` once `each` is taken off `count` times.
pub fn charge_each(left: u64, each: u64, count: usize) -> u64
    ensures { result ≡ left - each * count }
{
    match each.checked_mul(count as u64) {
        Some(all) => left.saturating_sub(all),
        None => 0,
    }
}

/// What is left of `left` once 1 is taken off for each byte.
pub fn charge_length(left: u64, count: usize) -> u64
    ensures { result ≡ left - count }
{
    left.saturating_sub(count as u64)
}
