//! Laws of demands on images, for the proofs of crates above. None of these functions does anything when it is called.
ghost use Rattle.laws_image_reading.specs.cells.OnCells.{EntriesHold, IndexesHold};
ghost use Rattle.laws_image_reading.specs.cells.OnTables.{TablesOpen};

use image_layout::{heaps_are_read, tables_are_read};
use laws_image_indexes::indexes_are_there;
use metadata_tables::indexes_fit;

/// The headers and the metadata root of the image of a well-formed assembly are in the profile, and its stream of tables is whole
/// (ECMA-335 II.24.2, II.25.3.3).
pub fn tables_open()
    ensures { TablesOpen }
{
    tables_are_read();
}

/// Each index in a row names a row that is there, or is nil where it may be; so does the entry point (ECMA-335 II.22, II.24.2.6,
/// II.25.3.3.2).
pub fn indexes_hold()
    ensures { IndexesHold }
{
    indexes_fit();
    tables_are_read();
    indexes_are_there();
}

/// Each index of a heap leads to a text, a blob or an identifier, and no name that is needed is empty (ECMA-335 II.22, II.24.2.3 to
/// II.24.2.5).
pub fn entries_hold()
    ensures { EntriesHold }
{
    tables_are_read();
    heaps_are_read();
}
