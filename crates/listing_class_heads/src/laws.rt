//! What the heads of types of a listing are read as: a law, as the contract of a function that does nothing when it is called.
ghost use Rattle.listing_class_heads.specs.Laws.{ClassHeadsAreRead};

use listing_flags::laws::flags_are_read;
use listing_formed::laws::formed_are_read;
use listing_members::laws::owners_are_read;
use listing_reading::laws::searches_pass;
use listing_rows::laws::options_are_read;
use listing_values::laws::names_are_read;

/// The name, the flags, the base and the interfaces of a type are read as these, whatever stands in its braces (ECMA-335 II.10.1).
pub fn class_heads_are_read()
    ensures { ClassHeadsAreRead }
{
    names_are_read();
    searches_pass();
    flags_are_read();
    options_are_read();
    formed_are_read();
    owners_are_read();
}
