ghost use Rattle.std.specs.Prelude.{◌≡◌, ◌<◌, ◌+◌, ◌-◌, true, false, drop, length};
ghost use Rattle.image_model.specs.Rows.{HasRow};
ghost use Rattle.image_model.specs.Streams.{tables_of};
ghost use Rattle.image_weights.specs.RowWeights.{text, blob, text_length, text_weight, blob_weight};
ghost use Rattle.metadata_tables.specs.Schema.{columns_of};
ghost use Rattle.metadata_tables.specs.Stream.{cell};

use heaps::{blob_at, blob_is_computed};
use image_streams::Image;

/// Takes off 1 for each byte of the text that a cell of `#Strings` names.
pub(crate) fn charge_text(image: &Image<'_>, table: u8, row: u32, column: u8, left: u64) -> u64
    requires there { HasRow image.now table row }
    requires column { column < length (columns_of table) }
    ensures { result ≡ left - text image.now (cell (tables_of image.now) table row column) }
{
    text_off(
        image.strings(),
        image.tables().cell(table, row, column),
        left,
    )
}

/// Takes off 1 for each byte of the text at an index. Looks at no more bytes than it takes off.
fn text_off(heap: &[u8], at: u32, left: u64) -> u64
    ensures { result ≡ left - text_weight heap.now at }
{
    if at == 0 {
        return left;
    }
    let mut left = left;
    let mut at = at as usize;
    while 0 < left {
        if !goes_on(heap, at) {
            return left;
        }
        at += 1;
        left -= 1;
    }
    0
}

/// Whether a text goes on at a place.
fn goes_on(heap: &[u8], at: usize) -> bool
    ensures more { result ≡ true → (at < length heap.now) × (text_length (drop at heap.now) ≡ text_length (drop (at + 1) heap.now) + 1) }
    ensures end { result ≡ false → text_length (drop at heap.now) ≡ 0 }
{
    match heap.get(at) {
        Some(byte) => *byte != 0,
        None => false,
    }
}

/// Takes off 1 for each byte of the blob that a cell of `#Blob` names.
pub(crate) fn charge_blob(image: &Image<'_>, table: u8, row: u32, column: u8, left: u64) -> u64
    requires there { HasRow image.now table row }
    requires column { column < length (columns_of table) }
    ensures { result ≡ left - blob image.now (cell (tables_of image.now) table row column) }
{
    blob_off(image.blobs(), image.tables().cell(table, row, column), left)
}

/// Takes off 1 for each byte of the blob at an index.
fn blob_off(heap: &[u8], at: u32, left: u64) -> u64
    ensures { result ≡ left - blob_weight heap.now at }
{
    blob_is_computed();
    match blob_at(heap, at) {
        Some(blob) => left.saturating_sub(blob.len() as u64),
        None => left,
    }
}
