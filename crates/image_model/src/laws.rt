//! Laws of the definitions that contracts are made of, for the proofs of crates above. None of these
//! functions does anything when it is called.
ghost use Rattle.image_model.specs.Laws.{OneOwners};
ghost use Rattle.image_model.specs.ReadLaws.{OneNaming, OneFault, OneReading, TreeHoldsTypes, OneDataSize};

use body_codec::bytes_spell_one_body;
use heaps::one_content_at_an_index;
use metadata_tables::one_fault;
use sig_codec::{bytes_spell_one_signature, no_type_begins_another};
use type_terms::orders_are_total;

/// The tokens of an image name one type each (ECMA-335 II.22): there is one map that tells exactly these.
pub fn tokens_name_one_type()
    ensures { OneOwners }
{}

/// The tokens of an image name one thing each (ECMA-335 II.22).
pub fn tokens_name_one_thing()
    ensures { OneNaming }
{}

/// An image has one first fault at most.
pub fn an_image_has_one_fault()
    ensures { OneFault }
{
    one_fault();
}

/// An image reads as one assembly at most, and then has no fault.
pub fn an_image_reads_as_one_assembly()
    ensures { OneReading }
{
    one_content_at_an_index();
    no_type_begins_another();
    bytes_spell_one_signature();
    bytes_spell_one_body();
    orders_are_total();
    one_fault();
}

/// The tree of an image that reads holds at each path the type whose row has this path (ECMA-335
/// II.22.32, II.22.37).
pub fn a_tree_holds_its_types()
    ensures { TreeHoldsTypes }
{
    one_content_at_an_index();
}

/// The data of a field has the size that the tree states for its type (ECMA-335 II.16.3, II.22.18).
pub fn data_has_one_size()
    ensures { OneDataSize }
{
    one_content_at_an_index();
}
