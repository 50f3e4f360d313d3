//! What fields, generic parameters, properties and events of a listing are read as: laws, each as the contract of a function that does
//! nothing when it is called.
ghost use Rattle.listing_members.specs.Laws.{FieldsAreRead, GenericsAreRead, OwnersAreRead, PropertiesAreRead, TyparLinesAreRead};

use listing_constants::laws::{attributes_are_read, constants_are_read, labels_are_read};
use listing_flags::laws::flags_are_read;
use listing_formed::laws::{formed_are_read, formed_are_readable};
use listing_growth::laws::members_stand;
use listing_reading::laws::searches_pass;
use listing_references::laws::{arguments_are_read, conventions_are_read};
use listing_rows::laws::{
    options_are_read, pieces_are_read, runs_are_filtered, segments_are_read, walks_pass,
};
use listing_values::laws::{names_are_read, numbers_are_read};

/// Owners between commas are read as these (ECMA-335 II.10.1.7, II.10.1.3).
pub fn owners_are_read()
    ensures { OwnersAreRead }
{
    formed_are_read();
}

/// A field is read as this, where the source has its data (ECMA-335 II.16).
pub fn fields_are_read()
    ensures { FieldsAreRead }
{
    names_are_read();
    numbers_are_read();
    flags_are_read();
    labels_are_read();
    constants_are_read();
    formed_are_read();
    formed_are_readable();
    members_stand();
    searches_pass();
    options_are_read();
}

/// The lines that name generic parameters are read with the attributes behind them (ECMA-335 II.10.1.7, II.21).
pub fn typar_lines_are_read()
    ensures { TyparLinesAreRead }
{
    segments_are_read();
    runs_are_filtered();
}

/// Generic parameters are read as these, with their attributes (ECMA-335 II.10.1.7, II.22.20).
pub fn generics_are_read()
    ensures { GenericsAreRead }
{
    names_are_read();
    flags_are_read();
    owners_are_read();
    attributes_are_read();
    formed_are_readable();
    members_stand();
    searches_pass();
    options_are_read();
    segments_are_read();
}

/// A property and an event are read as these, their accessors as the methods of their class (ECMA-335 II.17, II.18, II.22.28).
pub fn properties_are_read()
    ensures { PropertiesAreRead }
{
    names_are_read();
    flags_are_read();
    constants_are_read();
    attributes_are_read();
    conventions_are_read();
    arguments_are_read();
    formed_are_read();
    formed_are_readable();
    searches_pass();
    options_are_read();
    segments_are_read();
    pieces_are_read();
    walks_pass();
}
