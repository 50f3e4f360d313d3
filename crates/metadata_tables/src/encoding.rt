ghost use Rattle.std.specs.Prelude.{◌≡◌, ◌<◌, ◌≤◌, ◌++◌, ◌^◌, ℕ, [], length, slice_index, slice_index_or, IfOk, OnOk};
ghost use Rattle.metadata_tables.specs.Bytes.{FitsCell, FitsRow, count_bytes, header_bytes, joined, mask_upto, number_bytes, row_bytes, table_bytes};
ghost use Rattle.metadata_tables.specs.Encoding.{FitsWidths, Holds, rows_in};

use crate::Rows;
use crate::layout::row_layout;
use crate::schema::{TABLES, columns};
use crate::table_rows::TableRows;
use il_lists::{Bytes, NoMemory};
use std::alloc::Global;

/// The tables that the standard asks to be sorted, a bit for each.
const SORTED: u64 = 0x1600_2301_9A00;

/// The stream `#~` of these rows, up to the end of its last row; `wide` is its byte of heap sizes
/// (ECMA-335 II.24.2.6). A table without rows isn't present in it. A run that begins behind row 65,535
/// of a table with that many rows is given as the cell 0, since its 2 bytes spell no 65,536.
pub fn encode(alloc: Global, rows: &Rows, wide: u8) -> Result<Bytes, NoMemory>
    requires { FitsWidths rows.now wide }
    ensures { IfOk result (Holds rows.now wide) }
{
    let counts = rows.counts();
    let mut out = Bytes::with_capacity(alloc, stream_size(&counts, wide))?;
    push_header(&mut out, &counts, wide)?;
    for table in 0..TABLES {
        let layout = row_layout(columns(table), &counts, wide);
        push_rows(&mut out, rows.table(table), &layout.widths)?;
    }
    Ok(out)
}

/// How long the stream of tables with these row counts is.
fn stream_size(counts: &[u32], wide: u8) -> usize
    requires { length counts.now ≡ 45 }
{
    let mut size = 24;
    for table in 0..TABLES {
        let count = counts[usize::from(table)];
        if count > 0 {
            let layout = row_layout(columns(table), counts, wide);
            size += 4 + count as usize * usize::from(layout.size);
        }
    }
    size
}

/// Adds the header and the row counts.
fn push_header(out: &mut Bytes, counts: &[u32], wide: u8) -> Result<(), NoMemory>
    requires { length counts.now ≡ 45 }
    ensures { OnOk result (out.new ≡ out.old ++ header_bytes (slice_index counts.now) wide) }
{
    out.extend(&[0, 0, 0, 0, 2, 0, wide, 1])?;
    push_number(out, present(counts))?;
    push_number(out, SORTED)?;
    push_counts(out, counts)
}

/// Adds the row counts of the tables that have rows.
fn push_counts(out: &mut Bytes, counts: &[u32]) -> Result<(), NoMemory>
    requires { length counts.now ≡ 45 }
    ensures { OnOk result (out.new ≡ out.old ++ joined (λ table. count_bytes (slice_index counts.now table)) 45) }
{
    for count in counts {
        if *count > 0 {
            push_cell(out, *count, 4)?;
        }
    }
    Ok(())
}

/// The tables that have rows, a bit for each.
fn present(counts: &[u32]) -> u64
    requires { length counts.now ≡ 45 }
    ensures { result ≡ mask_upto (slice_index counts.now) 45 }
{
    let mut present = 0;
    for table in 0..45u32 {
        if counts[table as usize] > 0 {
            present += 1u64 << table;
        }
    }
    present
}

/// Adds the rows of one table, their cells of these widths.
fn push_rows(out: &mut Bytes, rows: &TableRows, widths: &[u8]) -> Result<(), NoMemory>
    requires widths { (k : ℕ) → k < length rows.now → length (slice_index_or rows.now k []) ≤ length widths.now }
    requires cells { (k : ℕ) → k < length rows.now → FitsRow (slice_index widths.now) (slice_index_or rows.now k []) }
    ensures { OnOk result (out.new ≡ out.old ++ table_bytes (slice_index widths.now) rows.now) }
{
    for k in 0..rows.len() {
        push_row(out, rows.row(k), widths)?;
    }
    Ok(())
}

/// Adds a row, its cells of these widths.
fn push_row(out: &mut Bytes, cells: &[u32], widths: &[u8]) -> Result<(), NoMemory>
    requires widths { length cells.now ≤ length widths.now }
    requires cells { FitsRow (slice_index widths.now) cells.now }
    ensures { OnOk result (out.new ≡ out.old ++ row_bytes (slice_index widths.now) cells.now) }
{
    for (k, cell) in cells.iter().enumerate() {
        push_cell(out, *cell, widths[k])?;
    }
    Ok(())
}

/// Adds a cell of 1, 2 or 4 bytes, one by one: a call that adds several takes longer.
#[tactic(auto, unfolding(crate::specs::Bytes::number_bytes))]
fn push_cell(out: &mut Bytes, cell: u32, width: u8) -> Result<(), NoMemory>
    requires { FitsCell width cell }
    ensures { OnOk result (out.new ≡ out.old ++ number_bytes width cell) }
{
    match width {
        1 => out.push(cell as u8),
        2 => {
            let [low, high] = (cell as u16).to_le_bytes();
            out.push(low)?;
            out.push(high)
        }
        _ => {
            let [first, second, third, fourth] = cell.to_le_bytes();
            out.push(first)?;
            out.push(second)?;
            out.push(third)?;
            out.push(fourth)
        }
    }
}

/// Adds a number of 8 bytes.
#[tactic(auto, unfolding(crate::specs::Bytes::number_bytes))]
fn push_number(out: &mut Bytes, number: u64) -> Result<(), NoMemory>
    ensures { OnOk result (out.new ≡ out.old ++ number_bytes 8 number) }
{
    out.extend(&number.to_le_bytes())
}
