ghost use Rattle.std.specs.Prelude.{◌≡◌, Bool};
ghost use Rattle.std.specs.List.{list_any};
ghost use Rattle.assembly_tree.specs.WellFormedNames.{before_first, rises, all_differ};

/// Values that must not stand twice in a list.
pub trait Same {
    /// Whether both would be one.
    ghost same: { Self → Self → Bool };

    fn is_same(&self, other: &Self) -> bool
        ensures { result ≡ same self.now other.now };
}

/// Values that must stand in order.
pub trait Before {
    /// Whether the first stands strictly before the second.
    ghost before: { Self → Self → Bool };

    fn is_before(&self, other: &Self) -> bool
        ensures { result ≡ before self.now other.now };
}

/// Whether no two items are the same.
pub fn are_different<T: Same>(items: &[T]) -> bool
    ensures { result ≡ all_differ T.same items.now }
{
    let mut rest = items;
    while let [item, more @ ..] = rest {
        if is_among(item, more) {
            return false;
        }
        rest = more;
    }
    true
}

/// Whether the item is the same as one of the others.
fn is_among<T: Same>(item: &T, others: &[T]) -> bool
    ensures { result ≡ list_any (T.same item.now) others.now }
{
    for other in others {
        if item.is_same(other) {
            return true;
        }
    }
    false
}

/// Whether each item stands strictly before the next.
pub fn are_rising<T: Before>(items: &[T]) -> bool
    ensures { result ≡ rises T.before items.now }
{
    let mut rest = items;
    while let [item, more @ ..] = rest {
        if !is_before_first(item, more) {
            return false;
        }
        rest = more;
    }
    true
}

/// Whether the item stands before the first of the others, where there is one.
fn is_before_first<T: Before>(item: &T, others: &[T]) -> bool
    ensures { result ≡ before_first T.before item.now others.now }
{
    match others {
        [] => true,
        [next, ..] => item.is_before(next),
    }
}
