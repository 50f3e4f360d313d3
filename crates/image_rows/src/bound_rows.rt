//! The rows of GenericParamConstraint (ECMA-335 II.22.21).
ghost use Rattle.std.specs.Prelude.{◌∷◌, [], ◌+◌, ◌-◌, ◌^◌, ◌<◌, length, OnOk};
ghost use Rattle.image_members.specs.GenericRows.{bounds_with, bounds_from, bound_bytes, IsBoundRow, CanPushBound};
ghost use Rattle.image_members.specs.Places.{lent};
ghost use Rattle.image_members.specs.Pushing.{Pushes, CanPush};

use assembly_tree::Generic;
use il_base::NoMemory;
use image_members::type_indexes::type_index;
use image_tokens::references::References;
use image_tokens::tokens::GENERIC_PARAM_CONSTRAINT;
use metadata_tables::{Rows, row_of_columns};
use std::alloc::Global;
use type_terms::Owner;

/// Adds the rows of the bounds of generic parameters, which are those of all rows of GenericParam.
pub fn push_all_bounds<'a>(
    alloc: Global,
    refs: &mut References<'a>,
    rows: &mut Rows,
    generics: &[&'a Generic],
) -> Result<(), NoMemory>
    requires count { length generics.now < 2 ^ 24 - 1 }
    requires can { CanPush 0x2C CanPushBound bound_bytes (bounds_from 1 (lent generics.now)) refs.old rows.old }
    ensures { OnOk result (Pushes 0x2C IsBoundRow bound_bytes (bounds_from 1 (lent generics.now)) refs.old refs.new rows.old rows.new) }
{
    let mut row: u32 = 1;
    for generic in generics {
        push_bounds(alloc, refs, rows, row, generic.bounds.as_slice())?;
        row += 1;
    }
    Ok(())
}

/// Adds the rows of the bounds of the generic parameter of a row.
fn push_bounds<'a>(
    alloc: Global,
    refs: &mut References<'a>,
    rows: &mut Rows,
    row: u32,
    bounds: &'a [Owner],
) -> Result<(), NoMemory>
    requires { CanPush 0x2C CanPushBound bound_bytes (bounds_with row bounds.now) refs.old rows.old }
    ensures { OnOk result (Pushes 0x2C IsBoundRow bound_bytes (bounds_with row bounds.now) refs.old refs.new rows.old rows.new) }
{
    for bound in bounds {
        push_bound(alloc, refs, rows, row, bound)?;
    }
    Ok(())
}

/// Adds the row of a bound.
fn push_bound<'a>(
    alloc: Global,
    refs: &mut References<'a>,
    rows: &mut Rows,
    row: u32,
    bound: &'a Owner,
) -> Result<(), NoMemory>
    requires { CanPush 0x2C CanPushBound bound_bytes (bounds_with row (bound.now ∷ [])) refs.old rows.old }
    ensures { OnOk result (Pushes 0x2C IsBoundRow bound_bytes (bounds_with row (bound.now ∷ [])) refs.old refs.new rows.old rows.new) }
{
    row_of_columns();
    let of = type_index(alloc, refs, bound)?;
    rows.push(GENERIC_PARAM_CONSTRAINT, &[row, of])?;
    Ok(())
}
