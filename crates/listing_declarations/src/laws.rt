//! What the declarations of a whole listing are read as: laws, each as the contract of a function that does nothing when it is called.
ghost use Rattle.listing_declarations.specs.Laws.{DeclarationsAreRead, ExternsAreNamed, GlobalsAreRead, ManifestsAreRead};

use listing_constants::laws::attributes_are_read;
use listing_groups::laws::{field_rows_are_read, method_rows_are_read};
use listing_growth::laws::canon_is_derived;
use listing_manifests::laws::{assemblies_are_read, externs_are_read, headers_are_read};
use listing_nesting::laws::type_rows_are_read;
use listing_reading::laws::{runs_are_read, searches_pass};
use listing_rows::laws::{pieces_are_read, runs_are_filtered, segments_are_read};

/// A listing is its declarations: those of the assemblies that it names, of the assembly and its module, of types, of what stands
/// outside of any type, and of data (ECMA-335 II.5.10).
pub fn declarations_are_read()
    ensures { DeclarationsAreRead }
{
    canon_is_derived();
    searches_pass();
    segments_are_read();
    pieces_are_read();
    type_rows_are_read();
}

/// The assemblies that a listing names are read as these, and each is declared by its key (ECMA-335 II.6.3).
pub fn externs_are_named()
    ensures { ExternsAreNamed }
{
    searches_pass();
    pieces_are_read();
    externs_are_read();
    declarations_are_read();
}

/// The manifest of a listing is read as this: the assembly, its module with its attributes, and the numbers of the headers (ECMA-335
/// II.6.2, II.25.2.3).
pub fn manifests_are_read()
    ensures { ManifestsAreRead }
{
    searches_pass();
    segments_are_read();
    pieces_are_read();
    runs_are_read();
    runs_are_filtered();
    attributes_are_read();
    field_rows_are_read();
    assemblies_are_read();
    headers_are_read();
    declarations_are_read();
}

/// The fields and the methods outside of any type are read as these (ECMA-335 II.10.8).
pub fn globals_are_read()
    ensures { GlobalsAreRead }
{
    runs_are_filtered();
    field_rows_are_read();
    method_rows_are_read();
    declarations_are_read();
}
