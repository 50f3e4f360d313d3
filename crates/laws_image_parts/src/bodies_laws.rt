//! Laws of bodies in laid-out images, for the proofs of crates above. None of these functions does anything when it is called.
ghost use Rattle.laws_image_parts.specs.bodies.Bodies.{BodiesAreRead};
ghost use Rattle.laws_image_parts.specs.bodies.Loaded.{LoadedAreTidy, TokensAreGiven};

use crate::in_code_laws::{bodies_may_be_followed, more_may_follow, named_is_given};
use crate::laws::{code_is_read, rows_are_read, runs_are_read};
use body_codec::written_is_read;
use heaps::one_content_at_an_index;
use image_layout::{heaps_are_read, tables_are_read};
use metadata_tables::indexes_fit;

/// Each method has its body where its row says, in the shortest form of its header (ECMA-335 II.22.26, II.25.4).
pub fn bodies_are_read()
    ensures { BodiesAreRead }
{
    indexes_fit();
    tables_are_read();
    rows_are_read();
    runs_are_read();
    code_is_read();
    written_is_read();
    more_may_follow();
    bodies_may_be_followed();
}

/// Each token that a body of the image names was given to what it names (ECMA-335 II.25.4, III.1.9).
pub fn tokens_are_given()
    ensures { TokensAreGiven }
{
    indexes_fit();
    tables_are_read();
    rows_are_read();
    runs_are_read();
    code_is_read();
    named_is_given();
}

/// No two of the user strings that bodies load have one text, and each is spelled as it is written (ECMA-335 II.24.2.4, III.4.16).
pub fn loaded_are_tidy()
    ensures { LoadedAreTidy }
{
    heaps_are_read();
    one_content_at_an_index();
    heaps::written_is_read();
    tokens_are_given();
}
