//! Laws of what tokens name, for the proofs of crates above. None of these functions does anything when
//! it is called.
ghost use Rattle.image_namings.specs.Laws.{BodiesHangOnTokens, HangOnTokens, NamingExists};

use heaps::{blob_is_computed, one_content_at_an_index};
use sig_codec::read_is_spelled;

/// Where no demand before that on signatures fails, there are maps that tell exactly what the tokens of
/// the image name (ECMA-335 II.22, III.1.9).
pub fn a_naming_exists()
    ensures { NamingExists }
{
    one_content_at_an_index();
    blob_is_computed();
    read_is_spelled();
}

/// A signature is read the same by a map that knows only the tokens in it (ECMA-335 II.23.2).
pub fn signatures_hang_on_tokens()
    ensures { HangOnTokens }
{}

/// A body is read the same by a namer that knows only the tokens that it names (ECMA-335 II.25.4,
/// III.1.9).
pub fn bodies_hang_on_tokens()
    ensures { BodiesHangOnTokens }
{}
