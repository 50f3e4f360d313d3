//! What members of a listing that stand one after another are read as: laws, each as the contract of a function that does nothing when
//! it is called.
ghost use Rattle.listing_groups.specs.Laws.{FieldRowsAreRead, MethodRowsAreRead, PropertyRowsAreRead};

use listing_constants::laws::attributes_are_read;
use listing_heads::laws::heads_are_read;
use listing_members::laws::{fields_are_read, properties_are_read};
use listing_methods::laws::methods_are_read;
use listing_rows::laws::{runs_are_filtered, segments_are_read};

/// Fields with their attributes are read as these fields, in a class or outside of any (ECMA-335 II.16, II.21).
pub fn field_rows_are_read()
    ensures { FieldRowsAreRead }
{
    segments_are_read();
    attributes_are_read();
    fields_are_read();
    runs_are_filtered();
}

/// Methods are read as these methods, in a class or outside of any (ECMA-335 II.15).
pub fn method_rows_are_read()
    ensures { MethodRowsAreRead }
{
    heads_are_read();
    methods_are_read();
}

/// Properties and events are read as these, where their accessors are among the methods of their class (ECMA-335 II.17, II.18).
pub fn property_rows_are_read()
    ensures { PropertyRowsAreRead }
{
    properties_are_read();
}
