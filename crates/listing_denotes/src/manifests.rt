//! The manifest of a listing breaks no rule: a law, as the contract of a function that does nothing when it is called.
ghost use Rattle.listing_denotes.specs.Manifests.{ManifestsBreakNothing};

use crate::quiet::{headers_break_nothing, rows_break_nothing};
use crate::references::attributes_break_nothing;
use crate::values::{assemblies_break_nothing, numbers_alone};
use faultless_nodes::laws::unasked_break_nothing;
use listing_declarations::laws::declarations_are_read;
use listing_rows::laws::segments_are_read;
use listing_values::laws::numbers_are_read;

/// The assembly with its attributes, its module with those of the module, and the numbers of the headers of a listing break no rule (ECMA-335
/// II.6.2, II.25.2.3).
pub fn manifests_break_nothing()
    ensures { ManifestsBreakNothing }
{
    unasked_break_nothing();
    numbers_are_read();
    numbers_alone();
    assemblies_break_nothing();
    attributes_break_nothing();
    segments_are_read();
    rows_break_nothing();
    headers_break_nothing();
    declarations_are_read();
}
