ghost use Rattle.std.specs.Prelude.{◌≡◌, ◌+◌, ◌≤◌, ◌++◌, [], ◌∷◌, ℕ, length, replicate, OnOk};
ghost use Rattle.pe_layout.specs.Fields.{u16_at, u32_at};
ghost use Rattle.pe_layout.specs.Layout.{field_bytes, spelled};

use byteorder::{ByteOrder, LittleEndian};
use il_lists::{Bytes, NoMemory};

// A field of a header: a number of one, two or four bytes, a name, a text, or zeros.
#[derive(Clone, Copy)]
pub(crate) enum Field {
    Byte(u8),
    Half(u16),
    Word(u32),
    Name([u8; 8]),
    Text([u8; 12]),
    Zeros(u32),
}

// The number in the two bytes at a place.
pub(crate) fn u16_at(file: &[u8], place: usize) -> u16
    requires { place + 2 ≤ length file.now }
    ensures { result ≡ u16_at file.now place }
{
    LittleEndian::read_u16(&file[place..])
}

// The number in the four bytes at a place.
pub(crate) fn u32_at(file: &[u8], place: usize) -> u32
    requires { place + 4 ≤ length file.now }
    ensures { result ≡ u32_at file.now place }
{
    LittleEndian::read_u32(&file[place..])
}

// Adds one field.
fn push_field(out: &mut Bytes, field: Field) -> Result<(), NoMemory>
    ensures { OnOk result (out.new ≡ out.old ++ field_bytes field) }
{
    match field {
        Field::Byte(number) => out.push(number),
        Field::Half(number) => {
            let mut bytes = [0; 2];
            LittleEndian::write_u16(&mut bytes, number);
            out.extend(&bytes)
        }
        Field::Word(number) => {
            let mut bytes = [0; 4];
            LittleEndian::write_u32(&mut bytes, number);
            out.extend(&bytes)
        }
        Field::Name(bytes) => out.extend(&bytes),
        Field::Text(bytes) => out.extend(&bytes),
        Field::Zeros(count) => push_zeros(out, count),
    }
}

// Adds fields, one after the other.
pub(crate) fn push_fields(out: &mut Bytes, fields: &[Field]) -> Result<(), NoMemory>
    ensures { OnOk result (out.new ≡ out.old ++ spelled fields.now) }
{
    for field in fields {
        push_field(out, *field)?;
    }
    Ok(())
}

// Adds zeros.
pub(crate) fn push_zeros(out: &mut Bytes, count: u32) -> Result<(), NoMemory>
    ensures { OnOk result (out.new ≡ out.old ++ replicate count 0) }
{
    for _ in 0..count {
        out.push(0)?;
    }
    Ok(())
}
