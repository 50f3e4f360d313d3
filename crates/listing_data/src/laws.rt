//! What the data of a listing are: laws, each as the contract of a function that does nothing when it is called.
ghost use Rattle.listing_data.specs.Laws.{ContentsAreHeld, DataAreThere, TypesStand};

use listing_constants::laws::labels_are_read;
use listing_declarations::laws::declarations_are_read;
use listing_nesting::laws::types_are_without;
use listing_reading::laws::searches_pass;
use listing_rows::laws::pieces_are_read;
use listing_values::laws::{bytes_are_read, labels_differ};

/// The types of an assembly that is listed stand side by side in it (ECMA-335 II.10, II.22.32).
#[tactic(auto, using(crate::proofs::Contents::types_stand))]
pub fn types_stand()
    ensures { TypesStand }
{}

/// The data of its fields are bytes, and not too many (ECMA-335 II.16.3).
#[tactic(auto, using(crate::proofs::Contents::contents_are_held))]
pub fn contents_are_held()
    ensures { ContentsAreHeld }
{}

/// A listing has the data of the fields, each behind its label (ECMA-335 II.16.3).
pub fn data_are_there()
    ensures { DataAreThere }
{
    bytes_are_read();
    labels_differ();
    labels_are_read();
    searches_pass();
    pieces_are_read();
    types_are_without();
    declarations_are_read();
    types_stand();
    contents_are_held();
}
