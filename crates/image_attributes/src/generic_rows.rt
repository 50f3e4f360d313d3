ghost use Rattle.std.specs.Prelude.{◌≡◌, ◌<◌, ◌^◌, ℕ, IfOk};
ghost use Rattle.std.specs.List.{AllZip};
ghost use Rattle.image_model.specs.Columns.{bound_type, bound_parameter, generic_owner};
ghost use Rattle.image_model.specs.Reading.{OwnerIs, IsGeneric};
ghost use Rattle.image_model.specs.Rows.{HasRow, rows_with};
ghost use Rattle.image_source.specs.Ready.{IsReady};
ghost use Rattle.image_source.specs.Names.{names_of};

use crate::attributes;
use assembly_tree::{Generic, Generics};
use il_base::NoMemory;
use image_source::{Source, owner};
use row_parts::{Part, number_of, read_owned, text_of, three};
use std::alloc::Global;
use type_terms::{Owner, Owners};

/// The generic parameters of a type or a method, by the coded index with which they name it, by number (II.22.20).
#[tactic(auto, unfolding(metadata_tables::specs::Schema::schema))]
pub fn generics(alloc: Global, source: &Source<'_, '_>, index: u64) -> Result<Generics, NoMemory>
    requires small { index < 2 ^ 40 }
    requires ready { IsReady source.now.image.now source.now.kept.now source.now.sizes.now }
    ensures { IfOk result (AllZip (IsGeneric source.now.image.now (names_of source.now.kept.now)) (rows_with source.now.image.now 0x2A generic_owner index)) }
{
    read_owned(alloc, source.image, &GenericRows { source }, 0x2A, 2, index)
}

/// Rows of GenericParam.
#[derive(Drop)]
struct GenericRows<'r, 's, 'a> {
    source: &'r Source<'s, 'a>,
}

impl<'r, 's, 'a> Part<Generic> for GenericRows<'r, 's, 'a> {
    ghost use Rattle.image_model.specs.Reading.{IsGeneric};
    ghost use Rattle.image_model.specs.Rows.{HasRow};
    ghost use Rattle.image_source.specs.Ready.{IsReady};
    ghost use Rattle.image_source.specs.Names.{names_of};

    ghost there = { λ it row. HasRow it.source.now.image.now 0x2A row × IsReady it.source.now.image.now it.source.now.kept.now it.source.now.sizes.now };

    ghost gives = { λ it row generic. IsGeneric it.source.now.image.now (names_of it.source.now.kept.now) row generic };

    fn read(&self, alloc: Global, row: u32) -> Result<Generic, NoMemory> {
        generic(alloc, self.source, row)
    }
}

/// A generic parameter.
#[tactic(auto, unfolding(metadata_tables::specs::Schema::schema))]
fn generic(alloc: Global, source: &Source<'_, '_>, row: u32) -> Result<Generic, NoMemory>
    requires there { HasRow source.now.image.now 0x2A row }
    requires ready { IsReady source.now.image.now source.now.kept.now source.now.sizes.now }
    ensures { IfOk result (IsGeneric source.now.image.now (names_of source.now.kept.now) row) }
{
    let flags = number_of(source.image, 0x2A, row, 1);
    let (name, bounds, attributes) = three(
        text_of(alloc, source.image, 0x2A, row, 3),
        bounds(alloc, source, row),
        attributes(alloc, source, u64::from(row) * 32 + 19),
    )?;
    Ok(Generic {
        name,
        flags,
        bounds,
        attributes,
    })
}

/// The bounds of a generic parameter, in row order (II.22.21).
#[tactic(auto, unfolding(metadata_tables::specs::Schema::schema))]
fn bounds(alloc: Global, source: &Source<'_, '_>, row: u32) -> Result<Owners, NoMemory>
    requires { IsReady source.now.image.now source.now.kept.now source.now.sizes.now }
    ensures { IfOk result (AllZip (λ k. OwnerIs source.now.image.now (names_of source.now.kept.now) (bound_type source.now.image.now k)) (rows_with source.now.image.now 0x2C bound_parameter row)) }
{
    read_owned(
        alloc,
        source.image,
        &BoundRows { source },
        0x2C,
        0,
        u64::from(row),
    )
}

/// Rows of GenericParamConstraint.
#[derive(Drop)]
struct BoundRows<'r, 's, 'a> {
    source: &'r Source<'s, 'a>,
}

impl<'r, 's, 'a> Part<Owner> for BoundRows<'r, 's, 'a> {
    ghost use Rattle.image_model.specs.Columns.{bound_type};
    ghost use Rattle.image_model.specs.Reading.{OwnerIs};
    ghost use Rattle.image_model.specs.Rows.{HasRow};
    ghost use Rattle.image_source.specs.Ready.{IsReady};
    ghost use Rattle.image_source.specs.Names.{names_of};

    ghost there = { λ it row. HasRow it.source.now.image.now 0x2C row × IsReady it.source.now.image.now it.source.now.kept.now it.source.now.sizes.now };

    ghost gives = { λ it row of. OwnerIs it.source.now.image.now (names_of it.source.now.kept.now) (bound_type it.source.now.image.now row) of };

    fn read(&self, alloc: Global, row: u32) -> Result<Owner, NoMemory> {
        bound(alloc, self.source, row)
    }
}

/// A bound.
#[tactic(auto, unfolding(metadata_tables::specs::Schema::schema))]
fn bound(alloc: Global, source: &Source<'_, '_>, row: u32) -> Result<Owner, NoMemory>
    requires there { HasRow source.now.image.now 0x2C row }
    requires ready { IsReady source.now.image.now source.now.kept.now source.now.sizes.now }
    ensures { IfOk result (OwnerIs source.now.image.now (names_of source.now.kept.now) (bound_type source.now.image.now row)) }
{
    let of = source.image.tables().cell(0x2C, row, 1);
    owner(alloc, source, of)
}
