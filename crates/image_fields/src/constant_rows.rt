ghost use Rattle.std.specs.Prelude.{◌≡◌, ◌<◌, ◌≤◌, ◌^◌, ℕ, IfOk, All, length};
ghost use Rattle.assembly_tree.specs.declared.members.Constant.{Constant};
ghost use Rattle.image_model.specs.Columns.{constant_parent};
ghost use Rattle.image_model.specs.Members.{ConstantIs};
ghost use Rattle.image_model.specs.Reading.{IsGiven};
ghost use Rattle.image_model.specs.Rows.{HasRow, rows_with};
ghost use Rattle.row_demands.specs.Structured.{MeetStructure};

use assembly_tree::Constant;
use constant_values::constant_of;
use heaps::one_content_at_an_index;
use il_base::NoMemory;
use image_streams::Image;
use row_parts::{Part, blob_at, read_given};
use std::alloc::Global;

/// The constant of a field, a param or a property, by the coded index with which it names this, where there is one (II.22.9).
#[tactic(auto, unfolding(metadata_tables::specs::Schema::schema))]
pub fn constant(alloc: Global, image: &Image<'_>, index: u64) -> Result<Option<Constant>, NoMemory>
    requires small { index < 2 ^ 40 }
    requires meets { MeetStructure image.now }
    requires one { length (rows_with image.now 0x0B constant_parent index) ≤ 1 }
    requires each { All (λ k. (c : Constant) × ConstantIs image.now k c) (rows_with image.now 0x0B constant_parent index) }
    ensures { IfOk result (IsGiven (ConstantIs image.now) (rows_with image.now 0x0B constant_parent index)) }
{
    read_given(alloc, image, &ConstantRows { image }, 0x0B, 2, index)
}

/// Rows of Constant.
#[derive(Drop)]
struct ConstantRows<'i, 'a> {
    image: &'i Image<'a>,
}

impl<'i, 'a> Part<Constant> for ConstantRows<'i, 'a> {
    ghost use Rattle.assembly_tree.specs.declared.members.Constant.{Constant};
    ghost use Rattle.image_model.specs.Members.{ConstantIs};
    ghost use Rattle.image_model.specs.Rows.{HasRow};
    ghost use Rattle.row_demands.specs.Structured.{MeetStructure};

    ghost there = { λ it row. HasRow it.image.now 0x0B row × MeetStructure it.image.now × ((c : Constant) × ConstantIs it.image.now row c) };

    ghost gives = { λ it row c. ConstantIs it.image.now row c };

    fn read(&self, alloc: Global, row: u32) -> Result<Constant, NoMemory> {
        constant_at(alloc, self.image, row)
    }
}

/// The constant of a row of Constant.
#[tactic(auto, unfolding(metadata_tables::specs::Schema::schema))]
fn constant_at(alloc: Global, image: &Image<'_>, row: u32) -> Result<Constant, NoMemory>
    requires there { HasRow image.now 0x0B row }
    requires meets { MeetStructure image.now }
    requires is { (c : Constant) × ConstantIs image.now row c }
    ensures { IfOk result (ConstantIs image.now row) }
{
    one_content_at_an_index();
    let element = image.tables().cell(0x0B, row, 0);
    let value = blob_at(image, 0x0B, row, 3);
    let found = constant_of(alloc, element, value)?;
    match found {
        Some(constant) => Ok(constant),
        None => unreachable!(),
    }
}
