//! What the heads of methods of a listing are read as: a law, as the contract of a function that does nothing when it is called.
ghost use Rattle.listing_heads.specs.Laws.{HeadsAreRead};

use listing_flags::laws::flags_are_read;
use listing_formed::laws::formed_are_read;
use listing_members::laws::generics_are_read;
use listing_reading::laws::searches_pass;
use listing_references::laws::{conventions_are_read, method_names_are_read};
use listing_rows::laws::{options_are_read, pieces_are_read, segments_are_read, walks_pass};

/// The name, the flags and the signature of a method are read as these, whatever stands in its braces (ECMA-335 II.15.3, II.15.4).
pub fn heads_are_read()
    ensures { HeadsAreRead }
{
    method_names_are_read();
    searches_pass();
    flags_are_read();
    options_are_read();
    conventions_are_read();
    formed_are_read();
    generics_are_read();
    segments_are_read();
    pieces_are_read();
    walks_pass();
}
