ghost use Rattle.std.specs.Prelude.{◌≡◌, ◌+◌, ◌*◌, ◌≤◌, ◌<◌, ◌^◌, ◌++◌, if◌then◌else◌, false, ℕ, length, IfOk, IfErr, OnOk, IfSome, IfNone};
ghost use Rattle.std.specs.List.{All};
ghost use Rattle.body_codec.specs.Faults.{IsClause, HasKind};
ghost use Rattle.body_codec.specs.Sections.{padded, can_be_read, is_fat_section, said_size, clause_count, small_row, fat_row, row_in, rows_in, IsRange};
ghost use Rattle.body_codec.specs.Reading.{pieces_of, IsHeader, IsLayout};
ghost use Rattle.body_codec.specs.ReadingClauses.{IsSection, IsFound, IsRegion, HasFilter, HasRead, rows_of, IsSectionFault, IsRangeFault};

use super::header::Header;
use super::layout::Layout;
use crate::BodyFault;
use byteorder::{ByteOrder, LittleEndian};
use il_lists::Items;
use std::alloc::Global;

/// The most clauses that a body has.
const MAX_CLAUSES: usize = 65_535;

/// An exception clause as it stands, in offsets of the code (ECMA-335 II.25.4.6).
#[derive(Clone, Copy)]
pub struct ClauseRow {
    /// 0 catch, 1 filter, 2 finally, 4 fault.
    pub kind: u32,
    /// Where the protected block begins.
    pub try_offset: u32,
    /// How many bytes it has.
    pub try_length: u32,
    /// Where the handler begins.
    pub handler_offset: u32,
    /// How many bytes it has.
    pub handler_length: u32,
    /// The token of the class that is caught, or where the filter begins.
    pub class_or_filter: u32,
}

/// Its ranges in instruction numbers, the ends not included.
#[derive(Clone, Copy)]
pub struct Region {
    /// Where the protected block begins.
    pub try_start: u32,
    /// Where it ends.
    pub try_end: u32,
    /// Where the handler begins.
    pub handler_start: u32,
    /// Where it ends.
    pub handler_end: u32,
    /// Where its filter begins, if it has one.
    pub filter: u32,
}

/// A clause with its ranges.
#[derive(Clone, Copy)]
pub struct Found {
    /// As it stands.
    pub row: ClauseRow,
    /// Its ranges.
    pub region: Region,
}

/// A section of clauses (ECMA-335 II.25.4.5): where it begins and ends, in bytes from the header on.
#[derive(Clone, Copy)]
struct Section {
    at: usize,
    end: usize,
    fat: bool,
    more: bool,
    count: usize,
}

/// The clauses of a body, and where it ends.
#[derive(Drop)]
pub struct Clauses {
    /// The clauses of all sections, in order.
    pub found: Items<Found>,
    /// How many bytes the body has, from its header on.
    pub end: usize,
}

/// The clauses of all sections, or the first wrong one.
pub(crate) fn read_clauses(
    alloc: Global,
    bytes: &[u8],
    header: &Header,
    layout: &Layout<'_>,
) -> Result<Clauses, BodyFault>
    requires header { IsHeader bytes.now header.now }
    requires layout { IsLayout layout.now.code.now layout.now.marks.now layout.now.starts.now }
    ensures found { IfOk result (HasRead bytes.now (pieces_of layout.now.code.now layout.now.marks.now)) }
    ensures fault { IfErr result (IsRangeFault bytes.now (pieces_of layout.now.code.now layout.now.marks.now)) }
{
    let mut found = Items::new(alloc);
    if !header.more {
        return Ok(Clauses {
            found,
            end: header.end,
        });
    }
    let mut at = padded(header.end);
    while let Some(section) = section_at(bytes, at) {
        read_section(&mut found, bytes, &section, layout)?;
        if !section.more {
            return Ok(Clauses {
                found,
                end: section.end,
            });
        }
        at = padded(section.end);
    }
    Err(BodyFault::Range {
        clause: found.len() as u32,
    })
}

/// The first multiple of 4 from a place on.
#[tactic(auto, unfolding(crate::specs::Sections::padded))]
fn padded(at: usize) -> usize
    requires { at < 2 ^ 63 }
    ensures { result ≡ padded at }
{
    (at + 3) / 4 * 4
}

/// The section at a place. None where it can't be read.
#[tactic(auto, unfolding(crate::specs::Sections::can_be_read, crate::specs::Sections::section_kind, crate::specs::Sections::is_fat_section, crate::specs::Sections::has_more, crate::specs::Sections::clause_size, crate::specs::Sections::clause_count, crate::specs::Sections::section_end))]
fn section_at(bytes: &[u8], at: usize) -> Option<Section>
    ensures found { IfSome result (IsSection bytes.now at) }
    ensures none { IfNone result (can_be_read bytes.now at ≡ false) }
{
    if bytes.len() < 4 {
        return None;
    }
    if at > bytes.len() - 4 {
        return None;
    }
    if bytes[at] % 64 != 1 {
        return None;
    }
    let fat = bytes[at] / 64 % 2 == 1;
    let size = said_size(bytes, at, fat);
    let count = size / clause_size(fat);
    let length = size.max(4 + count * clause_size(fat));
    if length > bytes.len() - at {
        return None;
    }
    Some(Section {
        at,
        end: at + length,
        fat,
        more: bytes[at] / 128 % 2 == 1,
        count,
    })
}

/// How many bytes a clause has.
fn clause_size(fat: bool) -> usize
    ensures { result ≡ (if fat then 24 else 12) }
{
    if fat { 24 } else { 12 }
}

/// The size that the section says.
#[tactic(auto, unfolding(crate::specs::Sections::said_size, crate::specs::Header::number_at))]
fn said_size(bytes: &[u8], at: usize, fat: bool) -> usize
    requires room { at + 4 ≤ length bytes.now }
    requires fat { fat ≡ is_fat_section bytes.now at }
    ensures value { result ≡ said_size bytes.now at }
    ensures small { result < 2 ^ 32 }
{
    if fat {
        LittleEndian::read_u24(&bytes[at + 1..]) as usize
    } else {
        usize::from(bytes[at + 1])
    }
}

/// Adds the clauses of a section.
fn read_section(
    found: &mut Items<Found>,
    bytes: &[u8],
    section: &Section,
    layout: &Layout<'_>,
) -> Result<(), BodyFault>
    requires layout { IsLayout layout.now.code.now layout.now.marks.now layout.now.starts.now }
    requires section { IsSection bytes.now section.now.at section.now }
    requires few { length found.old ≤ 65535 }
    requires found { All (IsFound (pieces_of layout.now.code.now layout.now.marks.now)) found.old }
    ensures rows { OnOk result (rows_of found.new ≡ rows_of found.old ++ rows_in bytes.now section.now.at) }
    ensures few { OnOk result (length found.new ≤ 65535) }
    ensures found { OnOk result (All (IsFound (pieces_of layout.now.code.now layout.now.marks.now)) found.new) }
    ensures fault { IfErr result (IsSectionFault (pieces_of layout.now.code.now layout.now.marks.now) (rows_of found.old ++ rows_in bytes.now section.now.at)) }
{
    for k in 0..section.count {
        let clause = found.len();
        if clause == MAX_CLAUSES {
            return Err(BodyFault::Range {
                clause: clause as u32,
            });
        }
        let row = row_at(bytes, section, k);
        let Some(region) = region_of(layout, &row) else {
            return Err(BodyFault::Range {
                clause: clause as u32,
            });
        };
        found.push(Found { row, region })?;
    }
    Ok(())
}

/// The clause of this number in a section.
fn row_at(bytes: &[u8], section: &Section, k: usize) -> ClauseRow
    requires section { IsSection bytes.now section.now.at section.now }
    requires within { k < clause_count bytes.now section.now.at }
    ensures { result ≡ row_in bytes.now section.now.at k }
{
    if section.fat {
        fat_row(bytes, section.at + 4 + 24 * k)
    } else {
        small_row(bytes, section.at + 4 + 12 * k)
    }
}

/// A small clause of 12 bytes.
#[tactic(auto, unfolding(crate::specs::Sections::small_row, crate::specs::Header::number_at))]
fn small_row(bytes: &[u8], at: usize) -> ClauseRow
    requires { at + 12 ≤ length bytes.now }
    ensures { result ≡ small_row bytes.now at }
{
    ClauseRow {
        kind: u32::from(LittleEndian::read_u16(&bytes[at..])),
        try_offset: u32::from(LittleEndian::read_u16(&bytes[at + 2..])),
        try_length: u32::from(bytes[at + 4]),
        handler_offset: u32::from(LittleEndian::read_u16(&bytes[at + 5..])),
        handler_length: u32::from(bytes[at + 7]),
        class_or_filter: LittleEndian::read_u32(&bytes[at + 8..]),
    }
}

/// A fat clause of 24 bytes.
#[tactic(auto, unfolding(crate::specs::Sections::fat_row, crate::specs::Header::number_at))]
fn fat_row(bytes: &[u8], at: usize) -> ClauseRow
    requires { at + 24 ≤ length bytes.now }
    ensures { result ≡ fat_row bytes.now at }
{
    ClauseRow {
        kind: LittleEndian::read_u32(&bytes[at..]),
        try_offset: LittleEndian::read_u32(&bytes[at + 4..]),
        try_length: LittleEndian::read_u32(&bytes[at + 8..]),
        handler_offset: LittleEndian::read_u32(&bytes[at + 12..]),
        handler_length: LittleEndian::read_u32(&bytes[at + 16..]),
        class_or_filter: LittleEndian::read_u32(&bytes[at + 20..]),
    }
}

/// The ranges of a clause. None where they aren't instructions, or its kind isn't known.
fn region_of(layout: &Layout<'_>, row: &ClauseRow) -> Option<Region>
    requires { IsLayout layout.now.code.now layout.now.marks.now layout.now.starts.now }
    ensures found { IfSome result (IsRegion (pieces_of layout.now.code.now layout.now.marks.now) row.now) }
    ensures none { IfNone result (IsClause (pieces_of layout.now.code.now layout.now.marks.now) row.now → ⊥) }
{
    let (try_start, try_end) = range_at(layout, row.try_offset, row.try_length)?;
    let (handler_start, handler_end) = range_at(layout, row.handler_offset, row.handler_length)?;
    let filter = filter_at(layout, row, handler_start)?;
    Some(Region {
        try_start,
        try_end,
        handler_start,
        handler_end,
        filter,
    })
}

/// The instructions from an offset on, so many bytes.
fn range_at(layout: &Layout<'_>, offset: u32, size: u32) -> Option<(u32, u32)>
    requires { IsLayout layout.now.code.now layout.now.marks.now layout.now.starts.now }
    ensures found { IfSome result (λ r. IsRange (pieces_of layout.now.code.now layout.now.marks.now) offset size r.0 r.1) }
    ensures none { IfNone result ((first last : ℕ) → IsRange (pieces_of layout.now.code.now layout.now.marks.now) offset size first last → ⊥) }
{
    if size == 0 {
        return None;
    }
    let first = layout.edge_at(u64::from(offset))?;
    let last = layout.edge_at(u64::from(offset) + u64::from(size))?;
    Some((first, last))
}

/// Where the filter of a clause begins, or 0 where it has none. None where its kind isn't known, or the filter doesn't
/// begin before the handler.
fn filter_at(layout: &Layout<'_>, row: &ClauseRow, handler: u32) -> Option<u32>
    requires layout { IsLayout layout.now.code.now layout.now.marks.now layout.now.starts.now }
    requires inside { handler ≤ length layout.now.marks.now }
    ensures found { IfSome result (HasFilter (pieces_of layout.now.code.now layout.now.marks.now) row.now handler) }
    ensures none { IfNone result (HasKind (pieces_of layout.now.code.now layout.now.marks.now) row.now handler → ⊥) }
{
    if row.kind == 1 {
        let filter = layout.edge_at(u64::from(row.class_or_filter))?;
        return if filter < handler { Some(filter) } else { None };
    }
    if row.kind == 0 || row.kind == 2 || row.kind == 4 {
        Some(0)
    } else {
        None
    }
}
