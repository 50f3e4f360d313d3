//! The rows of MethodImpl (ECMA-335 II.22.27).
ghost use Rattle.std.specs.Prelude.{◌≡◌, ◌+◌, ◌^◌, ◌<◌, ◌∷◌, [], length, OnOk};
ghost use Rattle.image_rows.specs.OverrideRows.{overrides, overrides_from, override_bytes, IsOverrideRow, CanPushOverride};
ghost use Rattle.image_members.specs.Places.{lent};
ghost use Rattle.image_members.specs.Pushing.{Pushes, CanPush};

use assembly_tree::Method;
use il_base::NoMemory;
use image_tokens::methods::refer_method;
use image_tokens::references::References;
use image_tokens::tokens::{METHOD_DEF, METHOD_IMPL, index_of, index_of_token};
use metadata_tables::{Coded, Rows, row_of_columns};
use std::alloc::Global;
use type_terms::MethodRef;

/// Adds a row of MethodImpl for each method that one of these is given as the body of. The methods stand
/// in the order of their declared rows.
pub fn push_all_overrides<'a>(
    alloc: Global,
    refs: &mut References<'a>,
    rows: &mut Rows,
    methods: &[&'a Method],
) -> Result<(), NoMemory>
    requires declared { length refs.old.declared.methods ≡ length methods.now }
    requires count { length methods.now < 2 ^ 24 }
    requires can { CanPush 0x19 CanPushOverride override_bytes (overrides_from 1 refs.old.declared.methods (lent methods.now)) refs.old rows.old }
    ensures { OnOk result (Pushes 0x19 IsOverrideRow override_bytes (overrides_from 1 refs.old.declared.methods (lent methods.now)) refs.old refs.new rows.old rows.new) }
{
    let mut place: usize = 0;
    for method in methods {
        let declared = refs.declared.methods.at(place);
        place += 1;
        push_overrides(
            alloc,
            refs,
            rows,
            declared.first,
            place as u32,
            method.overrides.as_slice(),
        )?;
    }
    Ok(())
}

/// Adds the rows of the methods that the method of a row is the body of, in the type of a row.
fn push_overrides<'a>(
    alloc: Global,
    refs: &mut References<'a>,
    rows: &mut Rows,
    of: u32,
    body: u32,
    methods: &'a [MethodRef],
) -> Result<(), NoMemory>
    requires row { body < 2 ^ 24 }
    requires can { CanPush 0x19 CanPushOverride override_bytes (overrides of body methods.now) refs.old rows.old }
    ensures { OnOk result (Pushes 0x19 IsOverrideRow override_bytes (overrides of body methods.now) refs.old refs.new rows.old rows.new) }
{
    for method in methods {
        push_override(alloc, refs, rows, of, body, method)?;
    }
    Ok(())
}

/// Adds the row of one of them.
fn push_override<'a>(
    alloc: Global,
    refs: &mut References<'a>,
    rows: &mut Rows,
    of: u32,
    body: u32,
    method: &'a MethodRef,
) -> Result<(), NoMemory>
    requires row { body < 2 ^ 24 }
    requires can { CanPush 0x19 CanPushOverride override_bytes (overrides of body (method.now ∷ [])) refs.old rows.old }
    ensures { OnOk result (Pushes 0x19 IsOverrideRow override_bytes (overrides of body (method.now ∷ [])) refs.old refs.new rows.old rows.new) }
{
    row_of_columns();
    let token = refer_method(alloc, refs, method)?;
    let cells = [
        of,
        index_of(Coded::MethodDefOrRef, METHOD_DEF, body),
        index_of_token(Coded::MethodDefOrRef, token),
    ];
    rows.push(METHOD_IMPL, &cells)?;
    Ok(())
}
