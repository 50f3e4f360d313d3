//! What the rows of flags are read as: a law, as the contract of a function that does nothing when it is called.
ghost use Rattle.listing_flags.specs.Laws.{FlagsAreRead};

use listing_model::laws::flags_are_told;
use listing_values::laws::numbers_are_read;

/// A row of words for flags, with the bits that no word says, is read as the number that it was made from (ECMA-335 II.23.1).
pub fn flags_are_read()
    ensures { FlagsAreRead }
{
    numbers_are_read();
    flags_are_told();
}
