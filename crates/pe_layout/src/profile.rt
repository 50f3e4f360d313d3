ghost use Rattle.std.specs.Prelude.{◌≡◌, ◌+◌, ◌*◌, ◌≤◌, length};
ghost use Rattle.std.specs.Bool.{OnTrue};
ghost use Rattle.pe_layout.specs.Headers.{signature_place_of, section_table_of, section_count_of, optional_size_of};
ghost use Rattle.pe_layout.specs.Faults.{has_headers, is_in_profile};

use crate::field::{u16_at, u32_at};

// The place of the place of the PE signature, which ends the DOS header.
pub(crate) const SIGNATURE_PLACE: usize = 0x3C;

// Whether the headers are a PE file's and lie in the file.
pub(crate) fn has_headers(file: &[u8]) -> bool
    ensures value { result ≡ has_headers file.now }
    ensures dos { OnTrue result (64 ≤ length file.now) }
    ensures sections { OnTrue result (section_table_of file.now + 40 * section_count_of file.now ≤ length file.now) }
{
    if file.len() < 64 || u16_at(file, 0) != 0x5A4D {
        return false;
    }
    let signature = u32_at(file, SIGNATURE_PLACE) as usize;
    if file.len() < signature + 24 || u32_at(file, signature) != 0x4550 {
        return false;
    }
    let optional_size = u16_at(file, signature + 20) as usize;
    let sections = u16_at(file, signature + 6) as usize;
    signature + 24 + optional_size + 40 * sections <= file.len()
}

// How many data directories there are at least: the last that is read is the 15th.
const LEAST_DIRECTORIES: usize = 15;

// Whether machine and optional header are in the profile. The PE signature stands at `signature`.
pub(crate) fn is_in_profile(file: &[u8], signature: usize) -> bool
    requires place { signature ≡ signature_place_of file.now }
    requires within { section_table_of file.now ≤ length file.now }
    ensures value { result ≡ is_in_profile file.now }
    ensures directories { OnTrue result (216 ≤ optional_size_of file.now) }
{
    let optional_size = u16_at(file, signature + 20) as usize;
    if u16_at(file, signature + 4) != 0x14C || optional_size < 96 {
        return false;
    }
    let directories = u32_at(file, signature + 116) as usize;
    u16_at(file, signature + 24) == 0x10B
        && LEAST_DIRECTORIES <= directories
        && 96 + 8 * directories <= optional_size
}
