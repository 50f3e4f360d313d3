//! Laws of the weight of an assembly.
ghost use Rattle.laws_tree_weights.specs.Laws.{WeightIsEnough, OverridesAreCounted, RowsAreFew};
ghost use Rattle.laws_tree_weights.specs.RowCounts.{FilledIsCounted};

/// An image takes no more bytes than its assembly weighs. It does nothing when it is called.
#[tactic(auto, using(crate::proofs::WholeLemmas::enough))]
pub fn weight_is_enough()
    ensures { WeightIsEnough }
{}

/// Whatever rows methods have, their overrides bring no more than counted. It does nothing when it is
/// called.
pub fn overrides_are_counted()
    ensures { OverridesAreCounted }
{}

/// No table of an assembly that isn't too heavy has 2^23 rows. It does nothing when it is called.
#[tactic(auto, using(crate::proofs::CountLemmas::few))]
pub fn rows_are_few()
    ensures { RowsAreFew }
{}

/// No table has more rows than what it holds. It does nothing when it is called.
pub fn filled_is_counted()
    ensures { FilledIsCounted }
{}
