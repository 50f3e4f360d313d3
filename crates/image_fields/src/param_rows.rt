ghost use Rattle.std.specs.Prelude.{◌≡◌, ◌<◌, ◌≤◌, ◌+◌, ◌^◌, [], ℕ, IfOk};
ghost use Rattle.std.specs.List.{AllZip, range_with_len};
ghost use Rattle.image_model.specs.Columns.{param_sequence, param_name};
ghost use Rattle.image_model.specs.Reading.{IsParam, TextIs};
ghost use Rattle.image_model.specs.Rows.{HasRow};
ghost use Rattle.image_source.specs.Names.{names_of};
ghost use Rattle.image_source.specs.Ready.{IsReady};
ghost use Rattle.row_demands.specs.Structured.{MeetStructure};

use crate::constant_rows::constant;
use crate::field_rows::without;
use assembly_tree::{Param, Params};
use il_base::{NoMemory, Text};
use image_attributes::attributes;
use image_source::Source;
use image_streams::Image;
use row_groups::Rows;
use row_parts::{Part, number_of, read_all, text_of, three};
use std::alloc::Global;

/// Params that stand side by side, in row order (II.22.33).
pub fn params(alloc: Global, source: &Source<'_, '_>, rows: Rows) -> Result<Params, NoMemory>
    requires few { rows.first + rows.count ≤ 2 ^ 32 }
    requires there { (k : ℕ) → k < rows.count → HasRow source.now.image.now 0x08 (rows.first + k) }
    requires ready { IsReady source.now.image.now source.now.kept.now source.now.sizes.now }
    ensures { IfOk result (AllZip (IsParam source.now.image.now (names_of source.now.kept.now)) (range_with_len rows.first rows.count)) }
{
    read_all(alloc, &ParamRows { source }, rows)
}

/// Rows of Param.
#[derive(Drop)]
struct ParamRows<'r, 's, 'a> {
    source: &'r Source<'s, 'a>,
}

impl<'r, 's, 'a> Part<Param> for ParamRows<'r, 's, 'a> {
    ghost use Rattle.image_model.specs.Reading.{IsParam};
    ghost use Rattle.image_model.specs.Rows.{HasRow};
    ghost use Rattle.image_source.specs.Names.{names_of};
    ghost use Rattle.image_source.specs.Ready.{IsReady};

    ghost there = { λ it row. HasRow it.source.now.image.now 0x08 row × IsReady it.source.now.image.now it.source.now.kept.now it.source.now.sizes.now };

    ghost gives = { λ it row param. IsParam it.source.now.image.now (names_of it.source.now.kept.now) row param };

    fn read(&self, alloc: Global, row: u32) -> Result<Param, NoMemory> {
        param(alloc, self.source, row)
    }
}

/// HasDefault, which another table tells (II.23.1.13).
const TOLD: u16 = 0x1000;

/// A param.
#[tactic(auto, unfolding(metadata_tables::specs::Schema::schema))]
fn param(alloc: Global, source: &Source<'_, '_>, row: u32) -> Result<Param, NoMemory>
    requires there { HasRow source.now.image.now 0x08 row }
    requires ready { IsReady source.now.image.now source.now.kept.now source.now.sizes.now }
    ensures { IfOk result (IsParam source.now.image.now (names_of source.now.kept.now) row) }
{
    let flags = number_of(source.image, 0x08, row, 0);
    let number = number_of(source.image, 0x08, row, 1);
    let (name, constant, attributes) = three(
        param_name(alloc, source.image, row, number),
        constant(alloc, source.image, u64::from(row) * 4 + 1),
        attributes(alloc, source, u64::from(row) * 32 + 4),
    )?;
    Ok(Param {
        number,
        flags: without(flags, TOLD),
        name,
        constant,
        attributes,
    })
}

/// The name of a param; that of the result isn't kept.
#[tactic(auto, unfolding(metadata_tables::specs::Schema::schema))]
fn param_name(alloc: Global, image: &Image<'_>, row: u32, number: u16) -> Result<Text, NoMemory>
    requires there { HasRow image.now 0x08 row }
    requires meets { MeetStructure image.now }
    requires number { number ≡ param_sequence image.now row }
    ensures result_name { number ≡ 0 → IfOk result (λ name. name ≡ []) }
    ensures name { (number ≡ 0 → ⊥) → IfOk result (TextIs image.now (param_name image.now row)) }
{
    if number == 0 {
        Text::new(alloc, "")
    } else {
        text_of(alloc, image, 0x08, row, 2)
    }
}
