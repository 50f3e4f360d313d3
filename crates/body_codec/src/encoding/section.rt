ghost use Rattle.std.specs.Prelude.{◌≡◌, ◌<◌, ◌++◌, ◌^◌, true, false, length, OnOk};
ghost use Rattle.std.specs.List.{flat_map, list_all};
ghost use Rattle.body_codec.specs.Written.{all_small, fat_bytes, padding, section_bytes, serves_small, small_bytes, tail_bytes};

use crate::ClauseRow;
use crate::encoding::number::push_number;
use il_lists::{Bytes, NoMemory};

/// Adds the section of these clauses, with zeros before it up to a multiple of 4 (II.25.4.5). Without clauses nothing is
/// added.
pub(crate) fn push_clauses(out: &mut Bytes, rows: &[ClauseRow]) -> Result<(), NoMemory>
    requires { length rows.now < 2 ^ 16 }
    ensures { OnOk result (out.new ≡ out.old ++ tail_bytes (length out.old) rows.now) }
{
    if rows.is_empty() {
        return Ok(());
    }
    push_padding(out)?;
    push_section(out, rows)
}

/// Adds zeros up to a multiple of 4.
#[tactic(auto, unfolding(crate::specs::Sections::padded))]
fn push_padding(out: &mut Bytes) -> Result<(), NoMemory>
    ensures { OnOk result (out.new ≡ out.old ++ padding (length out.old)) }
{
    let more = match out.len() % 4 {
        0 => 0,
        over => 4 - over,
    };
    out.extend(&[0; 3][..more])
}

fn push_section(out: &mut Bytes, rows: &[ClauseRow]) -> Result<(), NoMemory>
    requires { length rows.now < 2 ^ 16 }
    ensures { OnOk result (out.new ≡ out.old ++ section_bytes (all_small rows.now) rows.now) }
{
    if all_small(rows) {
        push_small_section(out, rows)
    } else {
        push_fat_section(out, rows)
    }
}

/// Whether the small form serves for these clauses and for the size of their section, which has one byte.
fn all_small(rows: &[ClauseRow]) -> bool
    ensures { result ≡ all_small rows.now }
{
    rows.len() <= 20 && each_serves_small(rows)
}

fn each_serves_small(rows: &[ClauseRow]) -> bool
    ensures { result ≡ list_all serves_small rows.now }
{
    for row in rows {
        if !serves_small(row) {
            return false;
        }
    }
    true
}

/// Whether the small form serves for a clause.
fn serves_small(row: &ClauseRow) -> bool
    ensures { result ≡ serves_small row.now }
{
    row.try_offset < 1 << 16
        && row.try_length < 1 << 8
        && row.handler_offset < 1 << 16
        && row.handler_length < 1 << 8
}

fn push_small_section(out: &mut Bytes, rows: &[ClauseRow]) -> Result<(), NoMemory>
    requires { length rows.now < 21 }
    ensures { OnOk result (out.new ≡ out.old ++ section_bytes true rows.now) }
{
    out.extend(&[1, 4 + 12 * rows.len() as u8, 0, 0])?;
    for row in rows {
        push_small(out, row)?;
    }
    Ok(())
}

/// Adds a small clause, 12 bytes (II.25.4.6).
#[tactic(auto, unfolding(crate::specs::Written::small_bytes))]
fn push_small(out: &mut Bytes, row: &ClauseRow) -> Result<(), NoMemory>
    ensures { OnOk result (out.new ≡ out.old ++ small_bytes row.now) }
{
    push_number(out, 2, u64::from(row.kind))?;
    push_number(out, 2, u64::from(row.try_offset))?;
    push_number(out, 1, u64::from(row.try_length))?;
    push_number(out, 2, u64::from(row.handler_offset))?;
    push_number(out, 1, u64::from(row.handler_length))?;
    push_number(out, 4, u64::from(row.class_or_filter))
}

fn push_fat_section(out: &mut Bytes, rows: &[ClauseRow]) -> Result<(), NoMemory>
    requires { length rows.now < 2 ^ 16 }
    ensures { OnOk result (out.new ≡ out.old ++ section_bytes false rows.now) }
{
    out.push(0x41)?;
    push_number(out, 3, 4 + 24 * rows.len() as u64)?;
    for row in rows {
        push_fat(out, row)?;
    }
    Ok(())
}

/// Adds a fat clause, 24 bytes (II.25.4.6).
#[tactic(auto, unfolding(crate::specs::Written::fat_bytes))]
fn push_fat(out: &mut Bytes, row: &ClauseRow) -> Result<(), NoMemory>
    ensures { OnOk result (out.new ≡ out.old ++ fat_bytes row.now) }
{
    push_number(out, 4, u64::from(row.kind))?;
    push_number(out, 4, u64::from(row.try_offset))?;
    push_number(out, 4, u64::from(row.try_length))?;
    push_number(out, 4, u64::from(row.handler_offset))?;
    push_number(out, 4, u64::from(row.handler_length))?;
    push_number(out, 4, u64::from(row.class_or_filter))
}
