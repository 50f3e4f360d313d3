//! The fields of a listing break no rule: a law, as the contract of a function that does nothing when it is called.
ghost use Rattle.listing_denotes.specs.Members.{FieldsBreakNothing};

use crate::quiet::rows_break_nothing;
use crate::references::attributes_break_nothing;
use crate::terms::terms_break_nothing;
use crate::values::{constants_break_nothing, flags_break_nothing, numbers_alone};
use crate::whole::listings_are_read;
use faultless_nodes::laws::unasked_break_nothing;
use listing_constants::laws::labels_are_read;
use listing_data::laws::data_are_there;
use listing_declarations::laws::declarations_are_read;
use listing_formed::laws::{formed_are_read, formed_are_readable};
use listing_growth::laws::members_stand;
use listing_reading::laws::searches_pass;
use listing_rows::laws::{options_are_read, segments_are_read};
use listing_values::laws::numbers_are_read;

/// Fields with their attributes, and those outside of any type, break no rule: their data are there, and as long as is asked (ECMA-335
/// II.10.7, II.16, II.16.3).
pub fn fields_break_nothing()
    ensures { FieldsBreakNothing }
{
    unasked_break_nothing();
    numbers_are_read();
    numbers_alone();
    flags_break_nothing();
    constants_break_nothing();
    rows_break_nothing();
    segments_are_read();
    searches_pass();
    options_are_read();
    labels_are_read();
    formed_are_read();
    formed_are_readable();
    members_stand();
    terms_break_nothing();
    attributes_break_nothing();
    data_are_there();
    listings_are_read();
    declarations_are_read();
}
