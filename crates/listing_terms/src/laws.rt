//! What the names and types of a listing are read as: laws, each as the contract of a function that does nothing when it is called.
ghost use Rattle.listing_terms.specs.Laws.{PathsAreRead, TermsAreRead};

use listing_reading::laws::rows_are_read;
use listing_values::laws::{names_are_read, numbers_are_read};

/// The path of a type is read as its names, from the outermost inwards (ECMA-335 II.5.3).
pub fn paths_are_read()
    ensures { PathsAreRead }
{
    names_are_read();
    rows_are_read();
}

/// A type's name, a type and an owner are read as these, in a source that knows the other assemblies (ECMA-335 II.7.1, II.14.2).
pub fn terms_are_read()
    ensures { TermsAreRead }
{
    names_are_read();
    numbers_are_read();
    rows_are_read();
}
