//! What these spellings are: laws, each as the contract of a function that does nothing when it is called.
ghost use Rattle.listing_leaves.specs.Laws.{NumbersAreLeaves, BytesAreLeaves, TextsAreLeaves, NamesAreLeaves, LeavesEnd};

/// Numbers in decimal and in hexadecimal digits are integers, and the labels of instructions and of data are names
/// (ECMA-335 II.5.2, II.5.4).
#[tactic(auto, using(crate::proofs::Numbers::numbers_are_leaves))]
pub fn numbers_are_leaves()
    ensures { NumbersAreLeaves }
{}

/// Bytes behind `=` and behind `bytearray` are tokens of these kinds (ECMA-335 II.5.2).
#[tactic(auto, using(crate::proofs::Bytes::bytes_are_leaves))]
pub fn bytes_are_leaves()
    ensures { BytesAreLeaves }
{}

/// A text in double quotes is a string, whatever bytes but zero it has (ECMA-335 II.5.2).
#[tactic(auto, using(crate::proofs::Texts::texts_are_leaves))]
pub fn texts_are_leaves()
    ensures { TextsAreLeaves }
{}

/// Names, names of types and names in brackets are tokens of these kinds, whatever bytes but zero they have, and none of them is a
/// reserved word (ECMA-335 II.5.2, II.5.3).
#[tactic(auto, using(crate::proofs::Names::names_are_leaves))]
pub fn names_are_leaves()
    ensures { NamesAreLeaves }
{}

/// A token ends before a blank, a line's end and each mark that a listing puts behind it without a blank, but for the few that may go
/// on (ECMA-335 II.5.2).
#[tactic(auto, using(crate::proofs::Ends::leaves_end))]
pub fn leaves_end()
    ensures { LeavesEnd }
{}
