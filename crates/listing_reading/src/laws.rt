//! What holds of the forest of any piece of a listing: laws, each as the contract of a function that does nothing when it is called.
ghost use Rattle.listing_reading.specs.Laws.{CommasAreRead, FirstIsThere, ForestsAgree, RowsAreRead, RunsAreRead, SearchesPass};

/// A piece is the forest of its tokens, in a source whose tokens are spelled as its leaves (ECMA-335 II.5.1).
#[tactic(auto, using(crate::proofs::Forests::forests_agree))]
pub fn forests_agree()
    ensures { ForestsAgree }
{}

/// A search passes over the trees of a piece in which what is sought can't stand, by the symbols that they grow from
/// (ECMA-335 II.5.1).
#[tactic(auto, using(crate::proofs::Searches::searches_pass))]
pub fn searches_pass()
    ensures { SearchesPass }
{}

/// The items of a row are its parts, in order.
#[tactic(auto, using(crate::proofs::Rows::rows_are_read))]
pub fn rows_are_read()
    ensures { RowsAreRead }
{}

/// The items of a row with commas are its parts, in order.
#[tactic(auto, using(crate::proofs::Runs::commas_are_read))]
pub fn commas_are_read()
    ensures { CommasAreRead }
{}

/// Attributes directly behind a field, or behind what speaks of a parameter, are its attributes (ECMA-335 II.21).
#[tactic(auto, using(crate::proofs::Runs::runs_are_read))]
pub fn runs_are_read()
    ensures { RunsAreRead }
{}

/// Of texts that are all different the first that is equal to one of them stands at its place.
#[tactic(auto, using(crate::proofs::Rows::first_is_there))]
pub fn first_is_there()
    ensures { FirstIsThere }
{}
