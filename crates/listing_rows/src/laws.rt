//! What holds of rows in a listing, and of what is collected from its pieces: laws, each as the contract of a function that does
//! nothing when it is called.
ghost use Rattle.listing_rows.specs.Laws.{OptionsAreRead, PiecesAreRead, RunsAreFiltered, SegmentsAreRead, WalksPass};

use listing_reading::laws::{commas_are_read, runs_are_read, searches_pass};

/// A row that is made of two is read as the first and then the second; a row with commas as its items.
pub fn segments_are_read()
    ensures { SegmentsAreRead }
{
    commas_are_read();
}

/// What is sought in a row is sought in each of its items.
pub fn pieces_are_read()
    ensures { PiecesAreRead }
{
    searches_pass();
}

/// What may be there, and a row, is what stands below its production.
#[tactic(auto, using(crate::proofs::Options::options_are_read))]
pub fn options_are_read()
    ensures { OptionsAreRead }
{}

/// Types, owners, items, clauses and classes are collected past the trees in which none can stand (ECMA-335 II.5.1).
pub fn walks_pass()
    ensures { WalksPass }
{
    searches_pass();
}

/// Declarations of some kinds, with the attributes behind them, are those of each segment (ECMA-335 II.21).
pub fn runs_are_filtered()
    ensures { RunsAreFiltered }
{
    runs_are_read();
}
