//! What follows of a source that breaks no rule: a law, as the contract of a function.

ghost use Rattle.lower_methods.specs.Laws.{AllAreWhole};

use lower_manifest::laws::all_are_in_range;
use source_model::tokens_stand_in_order;

/// In a source that breaks no rule, each production is in its range, and each method is derived, with the numbers of its body in
/// their ranges (ECMA-335 II.22, II.25.4).
pub fn faultless_sources_are_whole()
    ensures { AllAreWhole }
{
    all_are_in_range();
    tokens_stand_in_order();
}
