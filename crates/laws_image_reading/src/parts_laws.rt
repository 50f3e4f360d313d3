//! Laws of the parts of an assembly that an image holds, for the proofs of crates above. None of these functions does anything when
//! it is called.
ghost use Rattle.laws_image_reading.specs.parts.Attributes.{AttributesAreNamed};
ghost use Rattle.laws_image_reading.specs.parts.Generics.{GenericsAreNamed};
ghost use Rattle.laws_image_reading.specs.parts.Known.{RowsAreKnown};
ghost use Rattle.laws_image_reading.specs.parts.Members.{FieldsAreNamed, MethodsAreNamed, PropertiesAreNamed, EventsAreNamed};
ghost use Rattle.laws_image_reading.specs.parts.Types.{TypesAreNamed};
ghost use Rattle.laws_image_reading.specs.parts.Whole.{ManifestsAreNamed, AssembliesAreRead};

use image_layout::{heaps_are_read, tables_are_read};
use laws_image_parts::{
    bodies_are_read, code_is_read, constants_are_read, enclosers_are_read, entry_is_read,
    items_are_read, manifest_is_read, owned_are_read, parts_are_read, runs_are_read,
    types_are_nested,
};
use sig_codec::{shortest_is_read, written_is_read};

/// The rows and the heaps of the image are those that were made for the assembly, and what belongs to a row is found (ECMA-335 II.22).
pub fn rows_are_known()
    ensures { RowsAreKnown }
{
    tables_are_read();
    heaps_are_read();
    laws_image_parts::rows_are_read();
    runs_are_read();
    owned_are_read();
    items_are_read();
    enclosers_are_read();
}

/// The attributes of the manifest, types, members and parameters are those whose rows name them (ECMA-335 II.22.10).
pub fn attributes_are_named()
    ensures { AttributesAreNamed }
{
    rows_are_known();
}

/// The generic parameters of types and methods are those whose rows name them, with their bounds and attributes (ECMA-335 II.22.20,
/// II.22.21).
pub fn generics_are_named()
    ensures { GenericsAreNamed }
{
    rows_are_known();
    parts_are_read();
}

/// Each field is what its row gives, with its constant, its offset and its data (ECMA-335 II.22.9, II.22.15, II.22.16, II.22.18).
pub fn fields_are_named()
    ensures { FieldsAreNamed }
{
    written_is_read();
    shortest_is_read();
    rows_are_known();
    parts_are_read();
    constants_are_read();
    code_is_read();
    attributes_are_named();
}

/// Each method is what its row gives, with its generic parameters, parameters, overrides and body (ECMA-335 II.22.26, II.22.27,
/// II.22.33, II.25.4).
pub fn methods_are_named()
    ensures { MethodsAreNamed }
{
    written_is_read();
    shortest_is_read();
    rows_are_known();
    parts_are_read();
    constants_are_read();
    entry_is_read();
    bodies_are_read();
    attributes_are_named();
    generics_are_named();
}

/// Each property of a type is what its row gives, with its constant and its accessors (ECMA-335 II.22.9, II.22.28, II.22.34).
pub fn properties_are_named()
    ensures { PropertiesAreNamed }
{
    written_is_read();
    shortest_is_read();
    rows_are_known();
    parts_are_read();
    constants_are_read();
    attributes_are_named();
}

/// Each event of a type is what its row gives, with its type and its accessors (ECMA-335 II.22.13, II.22.28).
pub fn events_are_named()
    ensures { EventsAreNamed }
{
    rows_are_known();
    parts_are_read();
    attributes_are_named();
}

/// Each type, but for those that it nests, is what its row gives (ECMA-335 II.22.8, II.22.23, II.22.37).
pub fn types_are_named()
    ensures { TypesAreNamed }
{
    rows_are_known();
    parts_are_read();
    attributes_are_named();
    generics_are_named();
    fields_are_named();
    methods_are_named();
    properties_are_named();
    events_are_named();
}

/// The manifest is what the headers and the rows of Module and Assembly give, with its attributes (ECMA-335 II.22.2, II.22.30).
pub fn manifests_are_named()
    ensures { ManifestsAreNamed }
{
    rows_are_known();
    manifest_is_read();
    attributes_are_named();
}

/// Each part of a well-formed assembly is what the image gives into which it is laid out (ECMA-335 II.22).
pub fn assemblies_are_read()
    ensures { AssembliesAreRead }
{
    rows_are_known();
    parts_are_read();
    types_are_nested();
    fields_are_named();
    methods_are_named();
    types_are_named();
    manifests_are_named();
}
