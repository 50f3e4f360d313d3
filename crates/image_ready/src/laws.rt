//! A law of reading, for the proofs of crates above. It does nothing when it is called.
ghost use Rattle.image_ready.specs.Laws.{ImagesAreReady, ReadIsTrue};

use body_outlines::outlines_are_bodies;
use heaps::one_content_at_an_index;
use image_namings::{bodies_hang_on_tokens, signatures_hang_on_tokens};
use sig_codec::bytes_spell_one_signature;

/// Where no demand on the rows of an image of at most 2^26 bytes fails, and all that its rows and bodies
/// name is kept as what it is, each part of the assembly can be read of what is kept (ECMA-335 II.22).
pub fn an_image_is_ready()
    ensures { ImagesAreReady }
{
    one_content_at_an_index();
    bytes_spell_one_signature();
    outlines_are_bodies();
    signatures_hang_on_tokens();
    bodies_hang_on_tokens();
}

/// Where no demand on the rows of an image fails, and all that its rows and bodies name is kept as what it
/// is, an assembly that is read of what is kept is what the image gives (ECMA-335 II.22).
pub fn what_is_read_is_so()
    ensures { ReadIsTrue }
{
    signatures_hang_on_tokens();
    bodies_hang_on_tokens();
}
