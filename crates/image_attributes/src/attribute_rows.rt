ghost use Rattle.std.specs.Prelude.{◌≡◌, ◌<◌, ◌^◌, ℕ, IfOk};
ghost use Rattle.std.specs.List.{AllZip};
ghost use Rattle.image_model.specs.Columns.{attribute_parent};
ghost use Rattle.image_model.specs.Reading.{IsAttribute};
ghost use Rattle.image_model.specs.Rows.{HasRow, rows_with};
ghost use Rattle.image_source.specs.Names.{names_of};
ghost use Rattle.image_source.specs.Ready.{IsReady};

use assembly_tree::{Attribute, Attributes};
use il_base::NoMemory;
use image_source::{Source, method};
use metadata_tables::Coded;
use row_parts::{Part, blob_of, pair, read_owned};
use std::alloc::Global;

/// The attributes of a row, by the coded index with which they name it, in row order (II.22.10).
#[tactic(auto, unfolding(metadata_tables::specs::Schema::schema))]
pub fn attributes(
    alloc: Global,
    source: &Source<'_, '_>,
    index: u64,
) -> Result<Attributes, NoMemory>
    requires small { index < 2 ^ 40 }
    requires ready { IsReady source.now.image.now source.now.kept.now source.now.sizes.now }
    ensures { IfOk result (AllZip (IsAttribute source.now.image.now (names_of source.now.kept.now)) (rows_with source.now.image.now 0x0C attribute_parent index)) }
{
    read_owned(
        alloc,
        source.image,
        &AttributeRows { source },
        0x0C,
        0,
        index,
    )
}

/// Rows of CustomAttribute.
#[derive(Drop)]
struct AttributeRows<'r, 's, 'a> {
    source: &'r Source<'s, 'a>,
}

impl<'r, 's, 'a> Part<Attribute> for AttributeRows<'r, 's, 'a> {
    ghost use Rattle.image_model.specs.Reading.{IsAttribute};
    ghost use Rattle.image_model.specs.Rows.{HasRow};
    ghost use Rattle.image_source.specs.Names.{names_of};
    ghost use Rattle.image_source.specs.Ready.{IsReady};

    ghost there = { λ it row. HasRow it.source.now.image.now 0x0C row × IsReady it.source.now.image.now it.source.now.kept.now it.source.now.sizes.now };

    ghost gives = { λ it row attribute. IsAttribute it.source.now.image.now (names_of it.source.now.kept.now) row attribute };

    fn read(&self, alloc: Global, row: u32) -> Result<Attribute, NoMemory> {
        attribute(alloc, self.source, row)
    }
}

/// An attribute: its constructor and the bytes of its value.
#[tactic(auto, unfolding(metadata_tables::specs::Schema::schema))]
fn attribute(alloc: Global, source: &Source<'_, '_>, row: u32) -> Result<Attribute, NoMemory>
    requires there { HasRow source.now.image.now 0x0C row }
    requires ready { IsReady source.now.image.now source.now.kept.now source.now.sizes.now }
    ensures { IfOk result (IsAttribute source.now.image.now (names_of source.now.kept.now) row) }
{
    let of = source.image.tables().cell(0x0C, row, 1);
    let (constructor, value) = pair(
        method(alloc, source, Coded::CustomAttributeType, of),
        blob_of(alloc, source.image, 0x0C, row, 2),
    )?;
    Ok(Attribute { constructor, value })
}
