//! The generic parameters of a listing break no rule: a law, as the contract of a function that does nothing when it is called.
ghost use Rattle.listing_denotes.specs.Generics.{GenericsBreakNothing};

use crate::quiet::rows_break_nothing;
use crate::references::attributes_break_nothing;
use crate::terms::terms_break_nothing;
use crate::values::{flags_break_nothing, numbers_alone};
use faultless_nodes::laws::unasked_break_nothing;
use listing_members::laws::generics_are_read;
use listing_rows::laws::segments_are_read;
use listing_values::laws::numbers_are_read;

/// Owners between commas, generic parameters, and the lines that give them their attributes break no rule where they are well formed and
/// held (ECMA-335 II.10.1.7, II.15.4.1.5).
pub fn generics_break_nothing()
    ensures { GenericsBreakNothing }
{
    unasked_break_nothing();
    numbers_are_read();
    numbers_alone();
    flags_break_nothing();
    rows_break_nothing();
    segments_are_read();
    terms_break_nothing();
    attributes_break_nothing();
    generics_are_read();
}
