//! Laws of what the tokens of an image name that holds an assembly, for the proofs of crates above. None of these functions
//! does anything when it is called.
ghost use Rattle.laws_image_parts.specs.names.Locals.{LocalsAreRead};
ghost use Rattle.laws_image_parts.specs.names.MemberOwners.{MembersAreOwned};
ghost use Rattle.laws_image_parts.specs.names.Owners.{OwnersAreRead, TypesAreOne};
ghost use Rattle.laws_image_parts.specs.names.Parents.{ParentsAreRead};
ghost use Rattle.laws_image_parts.specs.names.Paths.{PathsAreRead};
ghost use Rattle.laws_image_parts.specs.names.Written.{LaidOutIsWritten};

use crate::laws::{enclosers_are_read, parts_are_read, rows_are_read, runs_are_read};
use heaps::one_content_at_an_index;
use image_layout::{heaps_are_read, tables_are_read};
use metadata_tables::indexes_fit;
use sig_codec::{
    bytes_spell_one_signature, no_type_begins_another, shortest_is_read, written_is_read,
};

/// Each type that the image defines has one path, that of its enclosers, and each that it refers to one in an extern (ECMA-335
/// II.22.32, II.22.37, II.22.38).
pub fn paths_are_read()
    ensures { PathsAreRead }
{
    one_content_at_an_index();
    rows_are_read();
    enclosers_are_read();
    runs_are_read();
    parts_are_read();
}

/// Tokens of the tables TypeDef, TypeRef and TypeSpec name the types that they were given to, and each other token names
/// none (ECMA-335 II.22.37 to II.22.39, III.1.9).
pub fn owners_are_read()
    ensures { OwnersAreRead }
{
    one_content_at_an_index();
    no_type_begins_another();
    rows_are_read();
    paths_are_read();
}

/// Tokens of StandAloneSig name the locals that they were given to (ECMA-335 II.22.36, III.1.9).
pub fn locals_are_read()
    ensures { LocalsAreRead }
{
    one_content_at_an_index();
    written_is_read();
    shortest_is_read();
    bytes_spell_one_signature();
    rows_are_read();
}

/// Each field and each method of the image belongs to one type (ECMA-335 II.22.37, FieldList and MethodList).
pub fn members_are_owned()
    ensures { MembersAreOwned }
{
    indexes_fit();
    rows_are_read();
}

/// Each row of MemberRef belongs to the one type whose token its parent was made of (ECMA-335 II.22.25).
pub fn parents_are_read()
    ensures { ParentsAreRead }
{
    one_content_at_an_index();
    rows_are_read();
    members_are_owned();
}

/// An image that is laid out holds the rows and the heaps that were made for its assembly (ECMA-335 II.24.2).
pub fn laid_out_is_written()
    ensures { LaidOutIsWritten }
{
    tables_are_read();
    heaps_are_read();
}

/// What was written as the signature of a type is that of one type (ECMA-335 II.23.2.12).
pub fn types_are_one()
    ensures { TypesAreOne }
{
    one_content_at_an_index();
    no_type_begins_another();
    rows_are_read();
    paths_are_read();
}
