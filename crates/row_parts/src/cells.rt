ghost use Rattle.std.specs.Prelude.{◌≡◌, ◌<◌, ℕ, List, IsTrue, IfOk, length};
ghost use Rattle.heaps.specs.Content.{HasText, HasBlob};
ghost use Rattle.image_model.specs.Rows.{HasRow};
ghost use Rattle.image_model.specs.Streams.{tables_of, strings_of, blobs_of};
ghost use Rattle.metadata_tables.specs.Schema.{columns_of};
ghost use Rattle.metadata_tables.specs.Stream.{cell, column_of};
ghost use Rattle.pe_layout.specs.FileMap.{readable};
ghost use Rattle.row_demands.specs.Structured.{MeetStructure};
ghost use Rattle.row_parts.specs.Kinds.{is_strings, is_blobs, is_short, AreBytes};

use heaps::string_at;
use il_base::{Bytes, NoMemory, Text};
use image_streams::Image;
use std::alloc::Global;

/// The text that a cell of `#Strings` names, in an image whose entries of heaps are all there.
pub fn text_of(
    alloc: Global,
    image: &Image<'_>,
    table: u8,
    row: u32,
    column: u8,
) -> Result<Text, NoMemory>
    requires meets { MeetStructure image.now }
    requires there { HasRow image.now table row }
    requires column { column < length (columns_of table) }
    requires kind { IsTrue (is_strings (column_of table column)) }
    ensures { IfOk result (HasText (strings_of image.now) (cell (tables_of image.now) table row column)) }
{
    match string_at(image.strings(), image.tables().cell(table, row, column)) {
        Some(text) => Text::new(alloc, text),
        None => unreachable!(),
    }
}

/// The blob that a cell of `#Blob` names, in an image whose entries of heaps are all there.
pub fn blob_of(
    alloc: Global,
    image: &Image<'_>,
    table: u8,
    row: u32,
    column: u8,
) -> Result<Bytes, NoMemory>
    requires meets { MeetStructure image.now }
    requires there { HasRow image.now table row }
    requires column { column < length (columns_of table) }
    requires kind { IsTrue (is_blobs (column_of table column)) }
    ensures { IfOk result (HasBlob (blobs_of image.now) (cell (tables_of image.now) table row column)) }
{
    let bytes = blob_at(image, table, row, column);
    Bytes::from_slice(alloc, bytes)
}

/// The same, lent.
pub fn blob_at<'a>(image: &Image<'a>, table: u8, row: u32, column: u8) -> &'a [u8]
    requires meets { MeetStructure image.now }
    requires there { HasRow image.now table row }
    requires column { column < length (columns_of table) }
    requires kind { IsTrue (is_blobs (column_of table column)) }
    ensures { HasBlob (blobs_of image.now) (cell (tables_of image.now) table row column) result.now }
{
    match heaps::blob_at(image.blobs(), image.tables().cell(table, row, column)) {
        Some(bytes) => bytes,
        None => unreachable!(),
    }
}

/// The number of two bytes in a cell. A stream of tables is made of bytes, which its list of numbers doesn't tell.
pub fn number_of(image: &Image<'_>, table: u8, row: u32, column: u8) -> u16
    requires bytes { AreBytes (tables_of image.now) }
    requires there { HasRow image.now table row }
    requires column { column < length (columns_of table) }
    requires kind { IsTrue (is_short (column_of table column)) }
    ensures { result ≡ cell (tables_of image.now) table row column }
{
    image.tables().cell(table, row, column) as u16
}

/// What can be read from an RVA on; nothing where no section holds it.
pub fn bytes_at<'a>(image: &Image<'a>, rva: u32) -> &'a [u8]
    ensures { result.now ≡ readable image.now rva }
{
    match image.pe().at_rva(rva) {
        Some(bytes) => bytes,
        None => &[],
    }
}
