//! What follows of a source that breaks no rule: a law, as the contract of a function.

ghost use Rattle.lower_manifest.specs.Laws.{AllAreInRange};

use source_nodes::derived::derivations_have_bodies;

/// In a source none of whose numbers is out of its range, below each production stands its body, with its numbers in their
/// ranges (ECMA-335 II.22).
pub fn all_are_in_range()
    ensures { AllAreInRange }
{
    derivations_have_bodies();
}
