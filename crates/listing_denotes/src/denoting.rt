//! What is left to ask of a listing: a law, as the contract of a function that does nothing when it is called.
ghost use Rattle.listing_denotes.specs.Denoting.{MembersDenote};

use crate::manifests::manifests_break_nothing;
use crate::members::fields_break_nothing;
use crate::quiet::declarations_denote;
use crate::values::externs_break_nothing;

/// A listing denotes its assembly where its types, and its methods outside of any, break no rule (ECMA-335 II.5.10).
pub fn members_denote()
    ensures { MembersDenote }
{
    declarations_denote();
    externs_break_nothing();
    manifests_break_nothing();
    fields_break_nothing();
}
