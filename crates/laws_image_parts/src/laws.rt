//! Laws of images whose tables hold the rows of an assembly, for the proofs of crates above. None of these functions does
//! anything when it is called.
ghost use Rattle.laws_image_parts.specs.CodeRead.{CodeIsRead};
ghost use Rattle.laws_image_parts.specs.ConstantsRead.{ConstantsAreRead};
ghost use Rattle.laws_image_parts.specs.EntryRead.{EntryIsRead};
ghost use Rattle.laws_image_parts.specs.ItemRows.{ItemsAreRead};
ghost use Rattle.laws_image_parts.specs.ManifestRead.{ManifestIsRead};
ghost use Rattle.laws_image_parts.specs.NestingRead.{EnclosersAreRead, TypesAreNested};
ghost use Rattle.laws_image_parts.specs.OwnedRows.{OwnedAreRead};
ghost use Rattle.laws_image_parts.specs.PartsRead.{PartsAreRead};
ghost use Rattle.laws_image_parts.specs.RowsRead.{RowsAreRead};
ghost use Rattle.laws_image_parts.specs.RunsRead.{RunsAreRead};

use metadata_tables::indexes_fit;

/// Each table of the image has the rows that were made for it, cell by cell (ECMA-335 II.22, II.24.2.6).
pub fn rows_are_read()
    ensures { RowsAreRead }
{}

/// The attributes, constants, generic parameters and accessors of a row are those whose rows name it (ECMA-335 II.22.9,
/// II.22.10, II.22.20, II.22.28).
pub fn owned_are_read()
    ensures { OwnedAreRead }
{}

/// The layout and the interfaces of a type, the offset and the data of a field, the bounds of a generic parameter and what a
/// method overrides are found by a column (ECMA-335 II.22.8, II.22.16, II.22.18, II.22.21, II.22.23, II.22.27).
pub fn items_are_read()
    ensures { ItemsAreRead }
{}

/// The members of types and the parameters of methods are the runs of their rows (ECMA-335 II.22.12, II.22.26, II.22.35,
/// II.22.37).
pub fn runs_are_read()
    ensures { RunsAreRead }
{
    indexes_fit();
}

/// Each type is enclosed by its encloser (ECMA-335 II.22.32).
pub fn enclosers_are_read()
    ensures { EnclosersAreRead }
{}

/// The types that an image nests at the top are those of the assembly, where each but for those that it nests is what its row
/// gives (ECMA-335 II.22.32, II.22.37).
pub fn types_are_nested()
    ensures { TypesAreNested }
{}

/// Names, flags and numbers of the parts of the assembly are those in their rows, as are its externs, layouts, offsets and
/// accessors (ECMA-335 II.22).
pub fn parts_are_read()
    ensures { PartsAreRead }
{}

/// Each constant is read from its row as it was written (ECMA-335 II.22.9, II.23.1.16).
pub fn constants_are_read()
    ensures { ConstantsAreRead }
{}

/// The manifest, but for attributes, is what the rows of Module and Assembly and the headers give (ECMA-335 II.22.2,
/// II.22.30, II.25.2.3, II.25.3.3).
pub fn manifest_is_read()
    ensures { ManifestIsRead }
{}

/// The token of the entry point is that of the method's row (ECMA-335 II.15.4.1.2, II.25.3.3.2).
pub fn entry_is_read()
    ensures { EntryIsRead }
{}

/// Bodies and data are read where they stand in the code (ECMA-335 II.25.4, II.22.18).
pub fn code_is_read()
    ensures { CodeIsRead }
{}
