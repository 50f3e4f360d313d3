ghost use Rattle.std.specs.Prelude.{◌≡◌, ◌≤◌};
ghost use Rattle.il_base.specs.Calls.{one_more};

/// Adds one to a count, or leaves it at its last value.
pub fn raise(count: &mut u64)
    ensures raised { count.new ≡ one_more count.old }
    ensures stays { count.old ≤ count.new }
{
    *count = count.saturating_add(1);
}
