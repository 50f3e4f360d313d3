//! What the braces of a type of a listing are read as: laws, each as the contract of a function that does nothing when it is called.
ghost use Rattle.listing_classes.specs.Laws.{LayoutsAreRead, ClassBodiesAreRead, ClassMembersAreRead};

use listing_constants::laws::attributes_are_read;
use listing_groups::laws::{field_rows_are_read, method_rows_are_read, property_rows_are_read};
use listing_members::laws::{generics_are_read, typar_lines_are_read};
use listing_reading::laws::{rows_are_read, runs_are_read, searches_pass};
use listing_rows::laws::{pieces_are_read, runs_are_filtered, segments_are_read};
use listing_values::laws::numbers_are_read;

/// The lines of a layout are read as this layout, whatever other members stand behind them (ECMA-335 II.10.7).
pub fn layouts_are_read()
    ensures { LayoutsAreRead }
{
    numbers_are_read();
}

/// The members of a type are what stands in its braces, one after another (ECMA-335 II.10.2).
pub fn class_bodies_are_read()
    ensures { ClassBodiesAreRead }
{
    searches_pass();
    rows_are_read();
    segments_are_read();
    pieces_are_read();
}

/// The layout, the attributes, the generic parameters, the fields, the methods, the properties and the events of a type are read as
/// these from its members, whatever types it nests (ECMA-335 II.10.2).
pub fn class_members_are_read()
    ensures { ClassMembersAreRead }
{
    numbers_are_read();
    layouts_are_read();
    segments_are_read();
    pieces_are_read();
    runs_are_read();
    runs_are_filtered();
    attributes_are_read();
    typar_lines_are_read();
    generics_are_read();
    field_rows_are_read();
    method_rows_are_read();
    property_rows_are_read();
}
