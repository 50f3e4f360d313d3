//! The properties and events of a listing break no rule: a law, as the contract of a function that does nothing when it is called.
ghost use Rattle.listing_denotes.specs.Accessors.{AccessorsBreakNothing};

use crate::quiet::rows_break_nothing;
use crate::references::{
    attributes_break_nothing, plain_references_have_none, references_break_nothing,
};
use crate::terms::terms_break_nothing;
use crate::values::{constants_break_nothing, flags_break_nothing, numbers_alone};
use crate::whole::listings_are_read;
use faultless_nodes::laws::unasked_break_nothing;
use listing_formed::laws::{formed_are_read, formed_are_readable};
use listing_growth::laws::{references_stand, terms_stand};
use listing_reading::laws::searches_pass;
use listing_references::laws::conventions_are_read;
use listing_rows::laws::{pieces_are_read, segments_are_read};

/// Properties and events of a type of a listing break no rule: their accessors are methods of the type (ECMA-335 II.17, II.18, II.22.28).
pub fn accessors_break_nothing()
    ensures { AccessorsBreakNothing }
{
    unasked_break_nothing();
    numbers_alone();
    rows_break_nothing();
    segments_are_read();
    pieces_are_read();
    searches_pass();
    references_stand();
    terms_stand();
    formed_are_readable();
    formed_are_read();
    references_break_nothing();
    plain_references_have_none();
    listings_are_read();
    flags_break_nothing();
    constants_break_nothing();
    terms_break_nothing();
    attributes_break_nothing();
    conventions_are_read();
}
