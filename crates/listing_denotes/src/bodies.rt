//! The methods of a listing break no rule: laws, each as the contract of a function that does nothing when it is called.
ghost use Rattle.listing_denotes.specs.Bodies.{BodiesBreakNothing, MethodsBreakNothing};

use crate::methods::methods_break_by_bodies;
use crate::whole::listings_are_read;
use listing_bodies::laws::lines_lack;
use listing_constants::laws::{constants_are_read, labels_are_read};
use listing_declarations::laws::declarations_are_read;
use listing_methods::laws::methods_are_read;
use listing_reading::laws::searches_pass;
use listing_rows::laws::{pieces_are_read, segments_are_read, walks_pass};
use listing_values::laws::{labels_differ, numbers_are_read};

/// Each label of a method of a listing stands once, and each that is named is there; variables are numbers that fit; short branches reach
/// their targets, which are instructions; clauses are forward; numbers and counts are in their ranges (ECMA-335 II.15.4.1, II.19, III.1.7).
pub fn bodies_break_nothing()
    ensures { BodiesBreakNothing }
{
    numbers_are_read();
    labels_differ();
    labels_are_read();
    constants_are_read();
    lines_lack();
    searches_pass();
    segments_are_read();
    pieces_are_read();
    walks_pass();
    methods_are_read();
    listings_are_read();
}

/// Methods of a listing break no rule, in rows and outside of any type (ECMA-335 II.15).
pub fn methods_break_nothing()
    ensures { MethodsBreakNothing }
{
    bodies_break_nothing();
    methods_break_by_bodies();
    declarations_are_read();
}
