//! What the methods of a listing are read as: a law, as the contract of a function that does nothing when it is called.
ghost use Rattle.listing_methods.specs.Laws.{MethodsAreRead};

use listing_bodies::laws::{bodies_are_read, lines_lack};
use listing_constants::laws::{attributes_are_read, constants_are_read};
use listing_flags::laws::flags_are_read;
use listing_formed::laws::formed_are_read;
use listing_heads::laws::heads_are_read;
use listing_members::laws::{generics_are_read, typar_lines_are_read};
use listing_reading::laws::{runs_are_read, searches_pass};
use listing_rows::laws::{
    options_are_read, pieces_are_read, runs_are_filtered, segments_are_read, walks_pass,
};
use listing_values::laws::{names_are_read, numbers_are_read};

/// A method is read as itself, with its generic parameters, the rows of its parameters, its overrides, its body and its attributes
/// (ECMA-335 II.15, II.22.26, II.22.33).
pub fn methods_are_read()
    ensures { MethodsAreRead }
{
    names_are_read();
    numbers_are_read();
    flags_are_read();
    constants_are_read();
    attributes_are_read();
    formed_are_read();
    heads_are_read();
    typar_lines_are_read();
    generics_are_read();
    lines_lack();
    bodies_are_read();
    searches_pass();
    runs_are_read();
    runs_are_filtered();
    options_are_read();
    segments_are_read();
    pieces_are_read();
    walks_pass();
}
