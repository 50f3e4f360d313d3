//! Laws of an image that reads as an assembly, for the proofs of crates above. None of these functions
//! does anything when it is called.
ghost use Rattle.formed_references.specs.Laws.{ReferencesAreFormed};

use heaps::one_content_at_an_index;
use image_model::a_tree_holds_its_types;
use sig_codec::{bytes_spell_one_signature, no_type_begins_another};

/// Owners, methods, fields and locals that are named where they are in use, and the signatures of fields,
/// methods and properties, are well formed in the assembly that the image reads as (ECMA-335 II.22,
/// II.23.2).
pub fn what_is_in_use_is_formed()
    ensures { ReferencesAreFormed }
{
    one_content_at_an_index();
    no_type_begins_another();
    bytes_spell_one_signature();
    a_tree_holds_its_types();
}
