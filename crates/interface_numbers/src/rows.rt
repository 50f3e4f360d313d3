ghost use Rattle.std.specs.Prelude.{◌≡◌, ◌<◌, ◌^◌};
ghost use Rattle.image_model.specs.Columns.{interface_type, type_spec_signature};
ghost use Rattle.image_model.specs.Rows.{HasRow, token_of};
ghost use Rattle.interface_numbers.specs.Rows.{NameTypes, NamesType, HasKey};

use image_streams::Image;
use metadata_tables::{Coded, unpack_coded};

/// The cell by which a row of InterfaceImpl names its type.
#[tactic(auto, unfolding(metadata_tables::specs::Schema::schema))]
fn cell_of(image: &Image<'_>, row: u32) -> u32
    requires { HasRow image.now 0x09 row }
    ensures { result ≡ interface_type image.now row }
{
    image.tables().cell(0x09, row, 1)
}

/// The row that a row of InterfaceImpl names, of TypeDef, TypeRef or TypeSpec.
pub(crate) fn type_of(image: &Image<'_>, row: u32) -> (u8, u32)
    requires there { HasRow image.now 0x09 row }
    requires types { NameTypes image.now }
    ensures { NamesType image.now row result.0 result.1 }
{
    match unpack_coded(Coded::TypeDefOrRef, cell_of(image, row)) {
        Some((table, of)) => (table, of),
        None => (0x02, 0),
    }
}

/// The signature of a row of TypeSpec, as an index of its heap.
#[tactic(auto, unfolding(metadata_tables::specs::Schema::schema))]
pub(crate) fn signature_of(image: &Image<'_>, row: u32) -> u32
    requires { HasRow image.now 0x1B row }
    ensures { result ≡ type_spec_signature image.now row }
{
    image.tables().cell(0x1B, row, 0)
}

/// The token of a row of TypeDef or TypeRef.
pub(crate) fn token_of(table: u8, row: u32) -> u32
    requires few { row < 2 ^ 24 }
    requires small { table < 16 }
    ensures { result ≡ token_of table row }
{
    u32::from(table) * 0x100_0000 + row
}

/// A number for what a row names: rows that have one name one type.
pub(crate) fn key_of(image: &Image<'_>, row: u32) -> u64
    requires there { HasRow image.now 0x09 row }
    requires types { NameTypes image.now }
    ensures { HasKey image.now row result }
{
    let (table, of) = type_of(image, row);
    if table == 0x1B {
        return u64::from(signature_of(image, of)) * 2 + 1;
    }
    u64::from(cell_of(image, row)) * 2
}
