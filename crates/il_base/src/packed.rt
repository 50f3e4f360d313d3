ghost use Rattle.std.specs.Prelude.{◌≡◌, ◌+◌, ◌-◌, ◌^◌, ◌<◌, ◌≤◌, ◌++◌, Some, ℕ, ℤ, pos, negsuc, ◌+ℤ◌, ◌≤ℤ◌, ◌<ℤ◌, int_lt, if◌then◌else◌, length, take, IfSome, OnOk, OnErr};
ghost use Rattle.il_base.specs.Numbers.{Packed, PackedSigned, StandsAt, IsShortest, packed_bytes, packed_length, packed_signed_bytes, packed_signed_length, packed_bits, IsTurned, least_signed, greatest_signed};

use crate::{Bytes, NoMemory};
use byteorder::{BigEndian, ByteOrder};

/// Reads the packed number at the place `at` (ECMA-335, II.23.2), and answers it and the number of its bytes. None
/// exactly where no packed number stands there. Longer spellings than the shortest are read too.
#[inline]
pub fn read_packed(bytes: &[u8], at: usize) -> Option<(u32, usize)>
    ensures found { IfSome result (λ r. StandsAt Packed bytes.now at r.0 r.1) }
    ensures bounds { IfSome result (λ r. (r.0 < 2 ^ 29) × (1 ≤ r.1) × (r.1 ≤ 4) × (at + r.1 ≤ length bytes.now)) }

    // What stands there is answered: so at most one number does, and None comes only where none does.
    ensures only { (n count : ℕ) → StandsAt Packed bytes.now at n count → result ≡ Some (n, count) }
{
    let rest = bytes.get(at..)?;
    first_packed(rest)
}

/// The packed number that begins `rest`, and the number of its bytes.
#[inline]
fn first_packed(rest: &[u8]) -> Option<(u32, usize)>
    ensures found { IfSome result (λ r. (r.1 ≤ length rest.now) × Packed (take r.1 rest.now) r.0) }
    ensures bounds { IfSome result (λ r. (r.0 < 2 ^ 29) × (1 ≤ r.1) × (r.1 ≤ 4)) }
    ensures only { (n count : ℕ) → count ≤ length rest.now → Packed (take count rest.now) n → result ≡ Some (n, count) }
{
    let first = *rest.first()?;
    if first < 0x80 {
        return Some((u32::from(first), 1));
    }
    if first < 0xC0 && rest.len() >= 2 {
        return Some((u32::from(BigEndian::read_u16(rest)) - 0x8000, 2));
    }
    if first >= 0xC0 && first < 0xE0 && rest.len() >= 4 {
        return Some((BigEndian::read_u32(rest) - 0xC000_0000, 4));
    }
    None
}

/// Reads the signed packed number at the place `at` (ECMA-335, II.23.2), and answers it and the number of its bytes.
/// None exactly where none stands there. Longer spellings than the shortest are read too.
pub fn read_packed_signed(bytes: &[u8], at: usize) -> Option<(i32, usize)>
    ensures found { IfSome result (λ r. StandsAt PackedSigned bytes.now at r.0 r.1) }
    ensures bounds { IfSome result (λ r. (least_signed 29 ≤ℤ r.0) × (r.0 ≤ℤ greatest_signed 29) × (1 ≤ r.1) × (r.1 ≤ 4) × (at + r.1 ≤ length bytes.now)) }

    // What stands there is answered: so at most one number does, and None comes only where none does.
    ensures only { (n : ℤ) (count : ℕ) → StandsAt PackedSigned bytes.now at n count → result ≡ Some (n, count) }
{
    let (turned, count) = read_packed(bytes, at)?;
    Some((turned_right(turned, count), count))
}

/// The signed number that was turned left by one bit, within the bits that so many bytes hold.
fn turned_right(turned: u32, count: usize) -> i32
    requires { turned < 2 ^ packed_bits count }
    ensures { IsTurned (packed_bits count) result turned }
{
    let half = (turned / 2) as i32;
    if turned % 2 == 0 {
        return half;
    }
    match count {
        1 => half - 0x40,
        2 => half - 0x2000,
        _ => half - 0x1000_0000,
    }
}

/// Adds the shortest packed spelling of `n` (ECMA-335, II.23.2) to `out`.
///
/// # Errors
///
/// There was no memory. `out` is as before.
pub fn push_packed(out: &mut Bytes, n: u32) -> Result<(), NoMemory>
    requires { n < 2 ^ 29 }
    ensures ok { OnOk result (out.new ≡ out.old ++ packed_bytes n) }
    ensures err { OnErr result (out.new ≡ out.old) }

    // What was added.
    ensures spells { Packed (packed_bytes n) n }
    ensures shortest { IsShortest Packed (packed_bytes n) n }
    ensures length { length (packed_bytes n) ≡ packed_length n }
{
    if n < 0x80 {
        return out.push(n as u8);
    }
    let mut bytes = [0; 4];
    if n < 0x4000 {
        BigEndian::write_u16(&mut bytes, 0x8000 + n as u16);
        return out.extend(&bytes[..2]);
    }
    BigEndian::write_u32(&mut bytes, 0xC000_0000 + n);
    out.extend(&bytes)
}

/// Adds the shortest packed spelling of the signed number `n` (ECMA-335, II.23.2) to `out`.
///
/// # Errors
///
/// There was no memory. `out` is as before.
pub fn push_packed_signed(out: &mut Bytes, n: i32) -> Result<(), NoMemory>
    requires low { least_signed 29 ≤ℤ n }
    requires high { n ≤ℤ greatest_signed 29 }
    ensures ok { OnOk result (out.new ≡ out.old ++ packed_signed_bytes n) }
    ensures err { OnErr result (out.new ≡ out.old) }

    // What was added.
    ensures spells { PackedSigned (packed_signed_bytes n) n }
    ensures shortest { IsShortest PackedSigned (packed_signed_bytes n) n }
    ensures length { length (packed_signed_bytes n) ≡ packed_signed_length n }
{
    let mut bytes = [0; 4];
    let count = spell_signed(n, &mut bytes);
    out.extend(&bytes[..count])
}

/// Writes the shortest packed spelling of `n` to the front of `bytes`, and answers its length.
fn spell_signed(n: i32, bytes: &mut [u8; 4]) -> usize
    requires low { least_signed 29 ≤ℤ n }
    requires high { n ≤ℤ greatest_signed 29 }
    ensures inside { result ≤ 4 }
    ensures bytes { take result bytes.new ≡ packed_signed_bytes n }
{
    if n >= -0x40 && n < 0x40 {
        bytes[0] = turn_left(n, 0x80) as u8;
        return 1;
    }
    if n >= -0x2000 && n < 0x2000 {
        BigEndian::write_u16(bytes, 0x8000 + turn_left(n, 0x4000) as u16);
        return 2;
    }
    BigEndian::write_u32(bytes, 0xC000_0000 + turn_left(n, 0x2000_0000));
    4
}

/// The signed number turned left by one bit, modulo `modulus`.
fn turn_left(n: i32, modulus: i32) -> u32
    requires low { pos 0 ≤ℤ ((n +ℤ n) +ℤ modulus) }
    requires high { (n +ℤ n) <ℤ modulus }
    requires fits { modulus ≤ℤ pos (2 ^ 29) }
    ensures { pos result ≡ (if int_lt n (pos 0) then (n +ℤ n) +ℤ (modulus +ℤ pos 1) else n +ℤ n) }
{
    let doubled = 2 * n;
    if n < 0 {
        (doubled + modulus + 1) as u32
    } else {
        doubled as u32
    }
}
