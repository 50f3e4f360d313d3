//! Laws of an image that reads as an assembly, for the proofs of crates above. None of these functions
//! does anything when it is called.
ghost use Rattle.formed_images.specs.Laws.{ReadIsFormed};

use formed_references::what_is_in_use_is_formed;
use heaps::one_content_at_an_index;
use image_model::{a_tree_holds_its_types, data_has_one_size};
use sig_codec::{bytes_spell_one_signature, no_type_begins_another};

/// An image of at most 2^26 bytes that reads as an assembly reads as a well-formed one (ECMA-335 II.22).
pub fn what_is_read_is_formed()
    ensures { ReadIsFormed }
{
    one_content_at_an_index();
    no_type_begins_another();
    bytes_spell_one_signature();
    a_tree_holds_its_types();
    data_has_one_size();
    what_is_in_use_is_formed();
    body_outlines::what_is_read_is_formed();
}
