//! Laws of reading, for the proofs of crates above. None of these functions does anything when it is
//! called.
ghost use Rattle.image_assemblies.specs.Laws.{AssemblyExists, ImagesHaveOneOutcome};

use body_outlines::outlines_are_bodies;
use heaps::one_content_at_an_index;
use image_model::{an_image_has_one_fault, an_image_reads_as_one_assembly};
use image_namings::a_naming_exists;
use sig_codec::{bytes_spell_one_signature, read_is_spelled};
use type_terms::orders_are_total;

/// Where no demand on the rows of an image of at most 2^26 bytes fails, there is an assembly each part of
/// which is what the image gives (ECMA-335 II.22).
pub fn an_assembly_exists()
    ensures { AssemblyExists }
{
    one_content_at_an_index();
    read_is_spelled();
    bytes_spell_one_signature();
    orders_are_total();
    outlines_are_bodies();
}

/// An image of at most 2^26 bytes reads as one assembly or has one first fault, never both and never
/// neither (ECMA-335 II.22, II.24, II.25).
pub fn an_image_has_one_outcome()
    ensures { ImagesHaveOneOutcome }
{
    an_image_reads_as_one_assembly();
    an_image_has_one_fault();
    a_naming_exists();
    an_assembly_exists();
}
