ghost use Rattle.std.specs.Prelude.{◌≡◌, ◌<◌, ◌≤◌, ◌-◌, ◌^◌, ℕ, length, slice_index, nat_lt};
ghost use Rattle.std.specs.List.{list_all};
ghost use Rattle.metadata_tables.specs.CodedIndex.{tag_bits, tags};
ghost use Rattle.metadata_tables.specs.Stream.{width, simple_width, heap_width, coded_width};
ghost use Rattle.metadata_tables.specs.Layout.{IsLayoutOf};

use crate::coded::{tag_bits, tags};
use crate::{Coded, Column};

/// How the rows of one table are laid out, in bytes.
#[derive(Clone, Copy)]
pub(crate) struct RowLayout {
    /// How long a row is.
    pub(crate) size: u16,
    /// Where each column stands in its row.
    pub(crate) places: [u16; 9],
    /// How wide each column is.
    pub(crate) widths: [u8; 9],
}

/// The layout of rows with these columns, in a stream with these row counts and heap sizes.
pub(crate) fn row_layout(columns: &[Column], counts: &[u32], heaps: u8) -> RowLayout
    requires { length columns.now ≤ 9 }
    ensures { IsLayoutOf (slice_index counts.now) heaps columns.now result }
{
    let mut size = 0;
    let mut places = [0; 9];
    let mut widths = [0; 9];
    for (k, column) in columns.iter().enumerate() {
        let width = column_width(*column, counts, heaps);
        places[k] = size;
        widths[k] = width;
        size += u16::from(width);
    }
    RowLayout {
        size,
        places,
        widths,
    }
}

/// How wide a column is.
fn column_width(column: Column, counts: &[u32], heaps: u8) -> u8
    ensures { result ≡ width (slice_index counts.now) heaps column }
{
    match column {
        Column::Number(bytes) => bytes,
        Column::Strings(_) => heap_width(heaps, 0),
        Column::Guids(_) => heap_width(heaps, 1),
        Column::Blobs(_) => heap_width(heaps, 2),
        Column::Row(table) | Column::Run(table) => simple_width(counts, table),
        Column::Tagged(kind, _) => coded_width(counts, kind),
    }
}

/// How wide an index into the heap with this bit is.
fn heap_width(heaps: u8, bit: u32) -> u8
    requires { bit < 8 }
    ensures { result ≡ heap_width heaps bit }
{
    if (heaps >> bit) % 2 == 1 { 4 } else { 2 }
}

/// How wide a row of this table is as an index.
fn simple_width(counts: &[u32], table: u8) -> u8
    ensures { result ≡ simple_width (slice_index counts.now) table }
{
    if count_of(counts, table) < 0x1_0000 {
        2
    } else {
        4
    }
}

/// How wide a coded index is.
fn coded_width(counts: &[u32], kind: Coded) -> u8
    ensures { result ≡ coded_width (slice_index counts.now) (tag_bits kind) (tags kind) }
{
    let limit = 0x1_0000u32 >> tag_bits(kind);
    if all_below(counts, tags(kind), limit) {
        2
    } else {
        4
    }
}

/// Whether each of these tables, each before its tag, has fewer rows than `limit`.
fn all_below(counts: &[u32], tags: &[(u8, u8)], limit: u32) -> bool
    ensures { result ≡ list_all (λ pair. nat_lt (slice_index counts.now pair.0) limit) tags.now }
{
    tags.iter().all(|pair| count_of(counts, pair.0) < limit)
}

/// The row count of a table, 0 where there is none.
fn count_of(counts: &[u32], table: u8) -> u32
    ensures { result ≡ slice_index counts.now table }
{
    counts.get(usize::from(table)).copied().unwrap_or(0)
}
