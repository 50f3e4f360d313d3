ghost use Rattle.std.specs.Prelude.{◌≡◌, ◌<◌, ◌≤◌, ◌^◌, ℕ, IfOk, All, Contains};
ghost use Rattle.std.specs.List.{AllZip};
ghost use Rattle.image_model.specs.Columns.{semantics_association, semantics_method};
ghost use Rattle.image_model.specs.Reading.{IsAccessor};
ghost use Rattle.image_model.specs.Rows.{HasRow, first_method, methods_of, rows_with};
ghost use Rattle.row_demands.specs.Structured.{MeetStructure};
ghost use Rattle.row_parts.specs.Kinds.{AreBytes};
ghost use Rattle.image_model.specs.Streams.{tables_of};

use assembly_tree::{Accessor, Accessors};
use il_base::NoMemory;
use image_streams::Image;
use row_parts::{Part, number_of, read_owned};
use std::alloc::Global;

/// The accessors of an event or a property of a type, by the coded index with which they name it, in row order (II.22.28).
#[tactic(auto, unfolding(metadata_tables::specs::Schema::schema))]
pub(crate) fn accessors(
    alloc: Global,
    image: &Image<'_>,
    index: u64,
    type_row: u32,
) -> Result<Accessors, NoMemory>
    requires small { index < 2 ^ 40 }
    requires bytes { AreBytes (tables_of image.now) }
    requires meets { MeetStructure image.now }
    requires there { HasRow image.now 0x02 type_row }
    requires own { All (λ k. Contains (methods_of image.now type_row) (semantics_method image.now k)) (rows_with image.now 0x18 semantics_association index) }
    ensures { IfOk result (AllZip (IsAccessor image.now type_row) (rows_with image.now 0x18 semantics_association index)) }
{
    let first = first_method(image, type_row);
    let part = AccessorRows {
        image,
        type_row,
        first,
    };
    read_owned(alloc, image, &part, 0x18, 2, index)
}

/// The first method of a type.
#[tactic(auto, unfolding(metadata_tables::specs::Schema::schema))]
fn first_method(image: &Image<'_>, row: u32) -> u32
    requires { HasRow image.now 0x02 row }
    ensures { result ≡ first_method image.now row }
{
    let tables = image.tables();
    let cell = tables.cell(0x02, row, 5);
    if tables.rows(0x06) == 65_535 && cell == 0 {
        65_536
    } else {
        cell
    }
}

/// Rows of MethodSemantics whose methods are those of a type.
#[derive(Drop)]
struct AccessorRows<'i, 'a> {
    image: &'i Image<'a>,
    type_row: u32,
    first: u32,
}

impl<'i, 'a> Part<Accessor> for AccessorRows<'i, 'a> {
    ghost use Rattle.std.specs.Prelude.{◌≡◌, Contains};
    ghost use Rattle.image_model.specs.Columns.{semantics_method};
    ghost use Rattle.image_model.specs.Reading.{IsAccessor};
    ghost use Rattle.image_model.specs.Rows.{HasRow, first_method, methods_of};
    ghost use Rattle.image_model.specs.Streams.{tables_of};
    ghost use Rattle.row_parts.specs.Kinds.{AreBytes};

    ghost there = { λ it row. HasRow it.image.now 0x18 row × AreBytes (tables_of it.image.now) × (it.first ≡ first_method it.image.now it.type_row) × Contains (methods_of it.image.now it.type_row) (semantics_method it.image.now row) };

    ghost gives = { λ it row accessor. IsAccessor it.image.now it.type_row row accessor };

    fn read(&self, _alloc: Global, row: u32) -> Result<Accessor, NoMemory> {
        Ok(accessor(self.image, self.type_row, self.first, row))
    }
}

/// An accessor: its kind, and its place among the methods of the type.
#[tactic(auto, unfolding(metadata_tables::specs::Schema::schema))]
fn accessor(image: &Image<'_>, _type_row: u32, first: u32, row: u32) -> Accessor
    requires there { HasRow image.now 0x18 row }
    requires bytes { AreBytes (tables_of image.now) }
    requires first { first ≡ first_method image.now _type_row }
    requires own { Contains (methods_of image.now _type_row) (semantics_method image.now row) }
    ensures { IsAccessor image.now _type_row row result }
{
    let kind = number_of(image, 0x18, row, 0);
    let method = image.tables().cell(0x18, row, 1) - first;
    Accessor { kind, method }
}
