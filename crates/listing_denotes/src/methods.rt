//! The methods of a listing: a law, as the contract of a function that does nothing when it is called.
ghost use Rattle.listing_denotes.specs.Methods.{MethodsBreakByBodies};

use crate::generics::generics_break_nothing;
use crate::quiet::rows_break_nothing;
use crate::references::{
    attributes_break_nothing, plain_references_have_none, references_break_nothing,
};
use crate::terms::terms_break_nothing;
use crate::values::{constants_break_nothing, flags_break_nothing, numbers_alone};
use faultless_nodes::laws::unasked_break_nothing;
use listing_declarations::laws::declarations_are_read;
use listing_heads::laws::heads_are_read;
use listing_members::laws::generics_are_read;
use listing_reading::laws::searches_pass;
use listing_rows::laws::{pieces_are_read, segments_are_read};
use listing_values::laws::numbers_are_read;

/// The heads, parameters, attributes, overrides, locals, instructions and clauses of a method of a listing break no rule (ECMA-335 II.15).
pub fn methods_break_by_bodies()
    ensures { MethodsBreakByBodies }
{
    unasked_break_nothing();
    numbers_are_read();
    numbers_alone();
    flags_break_nothing();
    constants_break_nothing();
    rows_break_nothing();
    segments_are_read();
    pieces_are_read();
    searches_pass();
    terms_break_nothing();
    references_break_nothing();
    plain_references_have_none();
    attributes_break_nothing();
    generics_break_nothing();
    generics_are_read();
    heads_are_read();
    declarations_are_read();
}
