//! The types of a listing break no rule, and so a listing denotes its assembly: laws, each as the contract of a function that does nothing
//! when it is called.
ghost use Rattle.listing_denotes.specs.Classes.{ListingsDenote, TypesBreakNothing};

use crate::accessors::accessors_break_nothing;
use crate::bodies::methods_break_nothing;
use crate::denoting::members_denote;
use crate::generics::generics_break_nothing;
use crate::members::fields_break_nothing;
use crate::quiet::rows_break_nothing;
use crate::references::attributes_break_nothing;
use crate::terms::terms_break_nothing;
use crate::values::{flags_break_nothing, numbers_alone};
use crate::whole::listings_are_read;
use faultless_nodes::laws::unasked_break_nothing;
use listing_class_heads::laws::class_heads_are_read;
use listing_classes::laws::class_bodies_are_read;
use listing_data::laws::types_stand;
use listing_declarations::laws::declarations_are_read;
use listing_groups::laws::method_rows_are_read;
use listing_heads::laws::heads_are_read;
use listing_members::laws::generics_are_read;
use listing_nesting::laws::types_are_formed;
use listing_reading::laws::searches_pass;
use listing_rows::laws::{pieces_are_read, segments_are_read};
use listing_values::laws::numbers_are_read;

/// The types of a listing break no rule, each with those that it nests (ECMA-335 II.10).
pub fn types_break_nothing()
    ensures { TypesBreakNothing }
{
    unasked_break_nothing();
    numbers_are_read();
    numbers_alone();
    rows_break_nothing();
    segments_are_read();
    pieces_are_read();
    searches_pass();
    flags_break_nothing();
    terms_break_nothing();
    attributes_break_nothing();
    generics_break_nothing();
    fields_break_nothing();
    methods_break_nothing();
    accessors_break_nothing();
    heads_are_read();
    generics_are_read();
    method_rows_are_read();
    class_heads_are_read();
    class_bodies_are_read();
    types_are_formed();
    listings_are_read();
    types_stand();
    declarations_are_read();
}

/// The listing of a well-formed assembly that isn't too heavy denotes the assembly (ECMA-335 II.5 to II.19, II.21).
pub fn listings_denote()
    ensures { ListingsDenote }
{
    members_denote();
    types_break_nothing();
    methods_break_nothing();
}
