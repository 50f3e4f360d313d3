//! Which types and owners of a listing break no rule: laws, each as the contract of a function that does nothing when it is called.
ghost use Rattle.listing_denotes.specs.Terms.{PathsAreDeclared, TermsBreakNothing};

use crate::quiet::rows_break_nothing;
use crate::values::numbers_alone;
use faultless_nodes::laws::unasked_break_nothing;
use listing_formed::laws::{formed_are_read, formed_are_readable};
use listing_keys::laws::keys_are_known;
use listing_places::laws::sizes_are_known;
use listing_rows::laws::segments_are_read;
use listing_terms::laws::paths_are_read;
use listing_values::laws::{names_are_read, numbers_are_read};

/// A path that the assembly declares is one that its listing declares (ECMA-335 II.10).
pub fn paths_are_declared()
    ensures { PathsAreDeclared }
{
    sizes_are_known();
}

/// Names of types, types and owners of a listing break no rule where they are well formed and held (ECMA-335 II.7.1, II.14.2).
pub fn terms_break_nothing()
    ensures { TermsBreakNothing }
{
    unasked_break_nothing();
    numbers_alone();
    rows_break_nothing();
    segments_are_read();
    names_are_read();
    numbers_are_read();
    paths_are_read();
    formed_are_readable();
    formed_are_read();
    keys_are_known();
    paths_are_declared();
}
