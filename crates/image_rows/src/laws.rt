//! Laws of the definitions that the contracts are made of.
ghost use Rattle.image_rows.specs.Counts.{RowsAreFew};

/// What is declared has so few rows that each is of 64 of the assembly's weight. It does nothing when it
/// is called.
#[tactic(auto, using(crate::proofs::CountLemmas::rows_few))]
pub fn rows_are_few()
    ensures { RowsAreFew }
{}
