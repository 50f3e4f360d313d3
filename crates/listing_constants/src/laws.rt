//! What strings, constants and attributes of a listing are read as: laws, each as the contract of a function that does nothing when it
//! is called.
ghost use Rattle.listing_constants.specs.Laws.{AttributesAreRead, ConstantsAreRead, LabelsAreRead, StringsAreRead};

use listing_formed::laws::{formed_are_read, formed_are_readable};
use listing_growth::laws::values_stand;
use listing_reading::laws::searches_pass;
use listing_values::laws::{bytes_are_read, numbers_are_read, texts_are_read};

/// The labels of code and of data are read as names that are these (ECMA-335 II.5.4, II.16.3).
#[tactic(auto, using(crate::proofs::Labels::labels_are_read))]
pub fn labels_are_read()
    ensures { LabelsAreRead }
{}

/// A string is read as its units, and a text in double quotes as the text (ECMA-335 II.5.2, II.16.2).
pub fn strings_are_read()
    ensures { StringsAreRead }
{
    texts_are_read();
    bytes_are_read();
}

/// A constant is read as this: numbers, bits of real numbers, truths, characters, strings and the null reference
/// (ECMA-335 II.16.2, II.22.9).
pub fn constants_are_read()
    ensures { ConstantsAreRead }
{
    numbers_are_read();
    strings_are_read();
}

/// Attributes are read as these, constructor and bytes (ECMA-335 II.21, II.22.10).
pub fn attributes_are_read()
    ensures { AttributesAreRead }
{
    formed_are_read();
    formed_are_readable();
    bytes_are_read();
    values_stand();
    searches_pass();
}
