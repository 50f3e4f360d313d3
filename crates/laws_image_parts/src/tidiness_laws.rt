//! Laws of tidy images, for the proofs of crates above. None of these functions does anything when it is called.
ghost use Rattle.laws_image_parts.specs.tidiness.Entries.{EntriesAreShort};
ghost use Rattle.laws_image_parts.specs.tidiness.Fields.{FieldsAreWritten};
ghost use Rattle.laws_image_parts.specs.tidiness.InUse.{IndexesAreInUse};
ghost use Rattle.laws_image_parts.specs.tidiness.Once.{ContentsStandOnce, RowsStandOnce};

use heaps::{one_content_at_an_index, written_is_read};
use image_layout::{heaps_are_read, tables_are_read};

/// Each header field of a laid-out image whose manifest is well formed has the value that is written, and its module the identifier that it was given
/// (ECMA-335 II.22.30, II.24.2, II.25).
pub fn fields_are_written()
    ensures { FieldsAreWritten }
{
    tables_are_read();
}

/// No two rows of a table of references are equal (ECMA-335 II.22.25, II.22.29, II.22.36, II.22.38, II.22.39).
pub fn rows_stand_once()
    ensures { RowsStandOnce }
{
    tables_are_read();
}

/// The indexes of heaps that rows have are in use (ECMA-335 II.22).
pub fn indexes_are_in_use()
    ensures { IndexesAreInUse }
{}

/// No two of the indexes of texts, identifiers and blobs that rows have lead to one content (ECMA-335 II.24.2.3 to II.24.2.5).
pub fn contents_stand_once()
    ensures { ContentsStandOnce }
{
    tables_are_read();
    heaps_are_read();
    one_content_at_an_index();
    written_is_read();
    indexes_are_in_use();
}

/// The blobs that rows have are spelled with the shortest lengths, and data begins at multiples of 8 (ECMA-335 II.22.18,
/// II.24.2.4).
pub fn entries_are_short()
    ensures { EntriesAreShort }
{
    tables_are_read();
    heaps_are_read();
    indexes_are_in_use();
}
