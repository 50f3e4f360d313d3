//! Which references and attributes of a listing break no rule: laws, each as the contract of a function that does nothing when it is called.
ghost use Rattle.listing_denotes.specs.References.{ReferencesBreakNothing, PlainReferencesHaveNone, AttributesBreakNothing};

use crate::quiet::rows_break_nothing;
use crate::terms::{paths_are_declared, terms_break_nothing};
use crate::values::numbers_alone;
use faultless_nodes::laws::unasked_break_nothing;
use listing_formed::laws::formed_are_readable;
use listing_growth::laws::{references_stand, terms_stand};
use listing_keys::laws::keys_are_known;
use listing_reading::laws::searches_pass;
use listing_references::laws::arguments_are_read;
use listing_rows::laws::{pieces_are_read, segments_are_read};
use listing_terms::laws::paths_are_read;
use listing_values::laws::{names_are_read, numbers_are_read};

/// Calling conventions, arguments, and references to methods and fields of a listing break no rule where they are well formed and held
/// (ECMA-335 II.15.3, II.15.4, II.23.2.1).
pub fn references_break_nothing()
    ensures { ReferencesBreakNothing }
{
    unasked_break_nothing();
    numbers_alone();
    rows_break_nothing();
    segments_are_read();
    pieces_are_read();
    searches_pass();
    names_are_read();
    numbers_are_read();
    paths_are_read();
    arguments_are_read();
    terms_stand();
    references_stand();
    formed_are_readable();
    keys_are_known();
    paths_are_declared();
    terms_break_nothing();
}

/// A reference without arguments has no generic arguments in a listing (ECMA-335 II.22.10, II.22.27, II.22.28).
pub fn plain_references_have_none()
    ensures { PlainReferencesHaveNone }
{
    unasked_break_nothing();
    numbers_alone();
    rows_break_nothing();
    segments_are_read();
    pieces_are_read();
    searches_pass();
    names_are_read();
    numbers_are_read();
    paths_are_read();
    arguments_are_read();
    terms_stand();
    references_stand();
    formed_are_readable();
    keys_are_known();
    paths_are_declared();
    terms_break_nothing();
}

/// Attributes of a listing break no rule where they are well formed and held (ECMA-335 II.21).
pub fn attributes_break_nothing()
    ensures { AttributesBreakNothing }
{
    unasked_break_nothing();
    numbers_alone();
    references_break_nothing();
    plain_references_have_none();
}
