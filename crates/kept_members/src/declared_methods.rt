ghost use Rattle.std.specs.Prelude.{ℕ, ◌+◌, ◌<◌, ◌≤◌, ◌^◌, IfOk, OnOk, Contains};
ghost use Rattle.image_model.specs.Naming.{OwnsMethod};
ghost use Rattle.image_model.specs.Rows.{HasRow, methods_of, token_of};
ghost use Rattle.kept_members.specs.Maps.{all_of, Has, Adds};
ghost use Rattle.kept_members.specs.Members.{CanKeep, IsMethodOf, HasMethods};

use crate::owners::{kept_owner, token_of};
use crate::signatures::{method_in, sure};
use il_base::{Copies, NoMemory};
use image_streams::Image;
use kept_names::{Kept, KeptNames};
use row_groups::{Owners, Rows};
use row_parts::{run_rows, text_of, three};
use std::alloc::Global;
use type_terms::{MethodRef, Owner};

/// The runs of methods (II.22.37).
const METHODS: Owners = Owners {
    table: 0x02,
    column: 5,
    members: 0x06,
};

/// Keeps the methods of all types (II.22.26).
pub(crate) fn keep_methods(
    alloc: Global,
    image: &Image<'_>,
    known: &KeptNames,
    methods: &mut Kept<MethodRef>,
) -> Result<(), NoMemory>
    requires { CanKeep image.now known.now }
    ensures adds { OnOk result (Adds (IsMethodOf image.now known.now) (all_of methods.old) (all_of methods.new)) }
    ensures has { OnOk result (HasMethods image.now (all_of methods.new)) }
{
    for of in 0..image.tables().rows(0x02) {
        keep_of_type(alloc, image, known, of + 1, methods)?;
    }
    Ok(())
}

/// Keeps the methods of a type, those of `<Module>` among them.
#[tactic(auto, unfolding(metadata_tables::specs::Schema::schema))]
fn keep_of_type(
    alloc: Global,
    image: &Image<'_>,
    known: &KeptNames,
    of: u32,
    methods: &mut Kept<MethodRef>,
) -> Result<(), NoMemory>
    requires can { CanKeep image.now known.now }
    requires there { HasRow image.now 0x02 of }
    ensures adds { OnOk result (Adds (IsMethodOf image.now known.now) (all_of methods.old) (all_of methods.new)) }
    ensures has { OnOk result ((row : ℕ) → Contains (methods_of image.now of) row → Has (all_of methods.new) (token_of 0x06 row)) }
{
    let owner = kept_owner(known, 0x02, of);
    let rows = run_rows(image, METHODS, of);
    keep_rows(alloc, image, known, owner, rows, methods)
}

/// Keeps methods of a type that stand side by side.
fn keep_rows(
    alloc: Global,
    image: &Image<'_>,
    known: &KeptNames,
    owner: &Owner,
    rows: Rows,
    methods: &mut Kept<MethodRef>,
) -> Result<(), NoMemory>
    requires can { CanKeep image.now known.now }
    requires few { rows.first + rows.count ≤ 2 ^ 32 }
    requires owns { (k : ℕ) → k < rows.count → HasRow image.now 0x06 (rows.first + k) × OwnsMethod image.now (rows.first + k) owner.now }
    ensures adds { OnOk result (Adds (IsMethodOf image.now known.now) (all_of methods.old) (all_of methods.new)) }
    ensures has { OnOk result ((k : ℕ) → k < rows.count → Has (all_of methods.new) (token_of 0x06 (rows.first + k))) }
{
    for k in 0..rows.count {
        keep_row(alloc, image, known, owner, (rows.first + k) as u32, methods)?;
    }
    Ok(())
}

/// Keeps a method of a type.
fn keep_row(
    alloc: Global,
    image: &Image<'_>,
    known: &KeptNames,
    owner: &Owner,
    row: u32,
    methods: &mut Kept<MethodRef>,
) -> Result<(), NoMemory>
    requires can { CanKeep image.now known.now }
    requires there { HasRow image.now 0x06 row }
    requires owns { OwnsMethod image.now row owner.now }
    ensures adds { OnOk result (Adds (IsMethodOf image.now known.now) (all_of methods.old) (all_of methods.new)) }
    ensures has { OnOk result (Has (all_of methods.new) (token_of 0x06 row)) }
{
    let method = method(alloc, image, known, owner, row)?;
    methods.keep(token_of(0x06, row), method)
}

/// A method of a type.
#[tactic(auto, unfolding(metadata_tables::specs::Schema::schema))]
fn method(
    alloc: Global,
    image: &Image<'_>,
    known: &KeptNames,
    owner: &Owner,
    row: u32,
) -> Result<MethodRef, NoMemory>
    requires can { CanKeep image.now known.now }
    requires there { HasRow image.now 0x06 row }
    requires owns { OwnsMethod image.now row owner.now }
    ensures { IfOk result (IsMethodOf image.now known.now (token_of 0x06 row)) }
{
    let (owner, name, sig) = three(
        owner.copy(alloc),
        text_of(alloc, image, 0x06, row, 3),
        sure(method_in(alloc, image, known, 0x06, row, 4)),
    )?;
    Ok(MethodRef {
        owner,
        name,
        sig,
        args: None,
    })
}
