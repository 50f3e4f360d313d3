//! Laws of what references hold, for the proofs of crates above. None of these functions does anything when it is called.
ghost use Rattle.laws_image_parts.specs.references.InBounds.{SignaturesAreInBounds};
ghost use Rattle.laws_image_parts.specs.references.Tidy.{ReferencesAreTidy};

use crate::names_laws::{laid_out_is_written, owners_are_read, types_are_one};
use heaps::one_content_at_an_index;
use laws_writable_trees::laws::members_are_in_bounds;
use sig_codec::{no_type_begins_another, shortest_is_read, written_is_read};

/// Each signature that a row of references or a declared member has is in bounds, and each loaded text is one of UTF-16 units
/// (ECMA-335 II.22, II.23.2, II.24.2.4).
pub fn signatures_are_in_bounds()
    ensures { SignaturesAreInBounds }
{
    one_content_at_an_index();
    no_type_begins_another();
    written_is_read();
    shortest_is_read();
    laid_out_is_written();
    types_are_one();
    owners_are_read();
    members_are_in_bounds();
}

/// The references of a well-formed assembly are tidy where they hold nothing twice (ECMA-335 II.22, II.23.2).
pub fn references_are_tidy()
    ensures { ReferencesAreTidy }
{
    signatures_are_in_bounds();
}
