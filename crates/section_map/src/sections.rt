ghost use Rattle.std.specs.Prelude.{◌≡◌, ◌+◌, ◌*◌, ◌≤◌, ◌<◌, ◌^◌, ◌↔◌, [], IsTrue, IsNone, IfSome, IfOk, length};
ghost use Rattle.pe_layout.specs.FileMap.{section_at, extent_of, holds};
ghost use Rattle.pe_layout.specs.Headers.{raw_place_at, raw_size_at, virtual_address_at};
ghost use Rattle.pe_layout.specs.View.{readable_in};
ghost use Rattle.section_map.specs.Firsts.{first_holding};
ghost use Rattle.section_map.specs.Steps.{Tell};

use crate::merged::merged;
use crate::number::u32_at;
use crate::step::{NONE, Step};
use il_lists::{Items, NoMemory};
use std::alloc::Global;

/// How many bytes of memory the section takes whose header stands at a place; where the header says 0, as many as of the file
/// (II.25.3).
fn extent_at(file: &[u8], place: usize) -> u32
    requires { place + 40 ≤ length file.now }
    ensures { result ≡ extent_of (section_at file.now place) }
{
    let size = u32_at(file, place + 8);
    if size == 0 {
        u32_at(file, place + 16)
    } else {
        size
    }
}

/// What can be read of the file from an address on, which the section holds whose header stands at a place.
pub(crate) fn readable_in(file: &[u8], place: usize, address: u32) -> Option<&[u8]>
    requires within { place + 40 ≤ length file.now }
    requires held { IsTrue (holds address (section_at file.now place)) }
    ensures none { IsNone result ↔ (readable_in file.now address (section_at file.now place) ≡ []) }
    ensures bytes { IfSome result (λ bytes. bytes.now ≡ readable_in file.now address (section_at file.now place)) }
{
    let raw = u32_at(file, place + 20) as usize;
    let start = (address - u32_at(file, place + 12)) as usize + raw;
    let end = (raw + u32_at(file, place + 16) as usize).min(file.len());
    if start < end {
        Some(&file[start..end])
    } else {
        None
    }
}

/// The steps of one section.
fn steps_of_one(
    alloc: Global,
    file: &[u8],
    table: usize,
    section: u32,
) -> Result<Items<Step>, NoMemory>
    requires { table + 40 * (section + 1) ≤ length file.now }
    ensures { IfOk result (λ steps. Tell steps (first_holding file.now table section 1)) }
{
    let place = table + 40 * section as usize;
    let from = u64::from(u32_at(file, place + 12));
    let end = from + u64::from(extent_at(file, place));
    let begins = Step {
        from,
        first: section,
    };
    let ends = Step {
        from: end,
        first: NONE,
    };
    Items::pair(alloc, begins, ends)
}

/// The steps of so many sections, from a number on: those of the first half and of the second, merged.
pub(crate) fn steps_of(
    alloc: Global,
    file: &[u8],
    table: usize,
    from: u32,
    count: u32,
) -> Result<Items<Step>, NoMemory>
    requires within { table + 40 * (from + count) ≤ length file.now }
    requires few { from + count < 2 ^ 16 }
    ensures { IfOk result (λ steps. Tell steps (first_holding file.now table from count)) }
{
    if count == 0 {
        return Ok(Items::new(alloc));
    }
    if count == 1 {
        return steps_of_one(alloc, file, table, from);
    }
    let half = count / 2;
    let left = steps_of(alloc, file, table, from, half)?;
    let right = steps_of(alloc, file, table, from + half, count - half)?;
    merged(alloc, left.as_slice(), right.as_slice())
}
