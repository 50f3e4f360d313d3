ghost use Rattle.std.specs.Prelude.{◌≡◌, ◌+◌, ◌≤◌, ◌⊎◌, length, drop};
ghost use Rattle.byteorder.specs.Endian.{little_number};

use byteorder::{ByteOrder, LittleEndian};

/// The number in the `width` bytes at `at`, the lowest first.
pub(crate) fn number_at(bytes: &[u8], at: usize, width: u8) -> u32
    requires width { (width ≡ 1) ⊎ ((width ≡ 2) ⊎ (width ≡ 4)) }
    requires room { at + width ≤ length bytes.now }
    ensures { result ≡ little_number width (drop at bytes.now) }
{
    match width {
        1 => u32::from(bytes[at]),
        2 => u32::from(LittleEndian::read_u16(&bytes[at..])),
        _ => LittleEndian::read_u32(&bytes[at..]),
    }
}
