//! What the spellings of a listing are read as: laws, each as the contract of a function that does nothing when it is called.
ghost use Rattle.listing_values.specs.Laws.{BytesAreRead, LabelsDiffer, NamesAreRead, NumbersAreRead, TextsAreRead};

/// A text between quotes is read as the text, and the bytes of units as the units (ECMA-335 II.5.2).
#[tactic(auto, using(crate::proofs::Texts::texts_are_read))]
pub fn texts_are_read()
    ensures { TextsAreRead }
{}

/// A name, a name in brackets and the name of a type are read as these (ECMA-335 II.5.2, II.5.3).
#[tactic(auto, using(crate::proofs::Names::names_are_read))]
pub fn names_are_read()
    ensures { NamesAreRead }
{}

/// A number in decimal or in hexadecimal digits is read as the number (ECMA-335 II.5.2).
#[tactic(auto, using(crate::proofs::Numbers::numbers_are_read))]
pub fn numbers_are_read()
    ensures { NumbersAreRead }
{}

/// Bytes in parentheses, behind `=` and behind `bytearray`, are read as the bytes (ECMA-335 II.5.2, II.16.3).
#[tactic(auto, using(crate::proofs::Bytes::bytes_are_read))]
pub fn bytes_are_read()
    ensures { BytesAreRead }
{}

/// Different offsets of code have different labels, and so has different data (ECMA-335 II.5.4, II.16.3).
#[tactic(auto, using(crate::proofs::Labels::labels_differ))]
pub fn labels_differ()
    ensures { LabelsDiffer }
{}
