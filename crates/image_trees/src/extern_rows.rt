ghost use Rattle.std.specs.Prelude.{◌≡◌, IfOk};
ghost use Rattle.std.specs.List.{AllZip};
ghost use Rattle.image_model.specs.Reading.{IsExtern};
ghost use Rattle.image_model.specs.Rows.{HasRow, rows_of};
ghost use Rattle.image_model.specs.Streams.{tables_of};
ghost use Rattle.row_demands.specs.Structured.{MeetStructure};
ghost use Rattle.row_parts.specs.Kinds.{AreBytes};

use crate::versions::version;
use assembly_tree::{ExternAssembly, Externs};
use il_base::NoMemory;
use image_streams::Image;
use row_groups::Rows;
use row_parts::{Part, blob_of, four, read_all, text_of};
use std::alloc::Global;

/// The assemblies that an image names, in row order (II.22.5).
pub(crate) fn externs(alloc: Global, image: &Image<'_>) -> Result<Externs, NoMemory>
    requires bytes { AreBytes (tables_of image.now) }
    requires meets { MeetStructure image.now }
    ensures { IfOk result (AllZip (IsExtern image.now) (rows_of image.now 0x23)) }
{
    let rows = Rows {
        first: 1,
        count: u64::from(image.tables().rows(0x23)),
    };
    read_all(alloc, &ExternRows { image }, rows)
}

/// Rows of AssemblyRef.
#[derive(Drop)]
struct ExternRows<'i, 'a> {
    image: &'i Image<'a>,
}

impl<'i, 'a> Part<ExternAssembly> for ExternRows<'i, 'a> {
    ghost use Rattle.image_model.specs.Reading.{IsExtern};
    ghost use Rattle.image_model.specs.Rows.{HasRow};
    ghost use Rattle.image_model.specs.Streams.{tables_of};
    ghost use Rattle.row_demands.specs.Structured.{MeetStructure};
    ghost use Rattle.row_parts.specs.Kinds.{AreBytes};

    ghost there = { λ it row. HasRow it.image.now 0x23 row × AreBytes (tables_of it.image.now) × MeetStructure it.image.now };

    ghost gives = { λ it row e. IsExtern it.image.now row e };

    fn read(&self, alloc: Global, row: u32) -> Result<ExternAssembly, NoMemory> {
        extern_at(alloc, self.image, row)
    }
}

/// An assembly that the image names.
#[tactic(auto, unfolding(metadata_tables::specs::Schema::schema))]
fn extern_at(alloc: Global, image: &Image<'_>, row: u32) -> Result<ExternAssembly, NoMemory>
    requires there { HasRow image.now 0x23 row }
    requires bytes { AreBytes (tables_of image.now) }
    requires meets { MeetStructure image.now }
    ensures { IfOk result (IsExtern image.now row) }
{
    let version = version(image, 0x23, row, 0);
    let flags = image.tables().cell(0x23, row, 4);
    let (name, key, culture, hash) = four(
        text_of(alloc, image, 0x23, row, 6),
        blob_of(alloc, image, 0x23, row, 5),
        text_of(alloc, image, 0x23, row, 7),
        blob_of(alloc, image, 0x23, row, 8),
    )?;
    Ok(ExternAssembly {
        name,
        version,
        flags,
        key,
        culture,
        hash,
    })
}
