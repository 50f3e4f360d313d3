//! What the types of a listing are read as, each with those that it nests: laws, each as the contract of a function that does nothing
//! when it is called.
ghost use Rattle.listing_nesting.specs.Laws.{NestedAreRead, TypeRowsAreRead, TypesAreFormed, TypesAreWithout};

use listing_class_heads::laws::class_heads_are_read;
use listing_classes::laws::{class_bodies_are_read, class_members_are_read};
use listing_reading::laws::searches_pass;
use listing_rows::laws::{pieces_are_read, segments_are_read, walks_pass};

/// The types in a row of declarations or members are those in each of them, in order (ECMA-335 II.10).
pub fn type_rows_are_read()
    ensures { TypeRowsAreRead }
{
    searches_pass();
    walks_pass();
}

/// A type of a well-formed tree meets the conditions under which its members are read back, and is declared by its path (ECMA-335
/// II.10, II.22.37).
#[tactic(auto, using(crate::proofs::Formed::types_are_formed))]
pub fn types_are_formed()
    ensures { TypesAreFormed }
{}

/// What stands in no type of a listing isn't found in types (ECMA-335 II.10).
pub fn types_are_without()
    ensures { TypesAreWithout }
{
    types_are_formed();
    searches_pass();
    segments_are_read();
    pieces_are_read();
    class_bodies_are_read();
}

/// Types side by side are read as these types, each with those that it nests, in a source that knows the other assemblies and has the
/// data of the fields (ECMA-335 II.10, II.22.32).
pub fn nested_are_read()
    ensures { NestedAreRead }
{
    type_rows_are_read();
    types_are_formed();
    segments_are_read();
    pieces_are_read();
    walks_pass();
    class_heads_are_read();
    class_bodies_are_read();
    class_members_are_read();
}
