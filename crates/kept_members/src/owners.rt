ghost use Rattle.std.specs.Prelude.{◌≡◌, ℕ, Some, IfOk};
ghost use Rattle.image_model.specs.Naming.{OwnsMember};
ghost use Rattle.image_model.specs.Rows.{Names, token_of};
ghost use Rattle.image_model.specs.Used.{IsUsed};
ghost use Rattle.image_source.specs.Names.{owner_of_row};
ghost use Rattle.type_terms.specs.declared.term.Owner.{Owner};
ghost use Rattle.kept_members.specs.Maps.{all_of, Has, AreTrue};
ghost use Rattle.kept_members.specs.Members.{owners_of, CanKeep, IsMethodOf, HasMethods};

use il_base::{Copies, NoMemory};
use image_streams::Image;
use kept_names::{Kept, KeptNames};
use metadata_tables::{Coded, unpack_coded};
use std::alloc::Global;
use type_terms::{MethodRef, Owner};

/// The token of a row, which may be past three bytes (III.1.9).
pub(crate) fn token_of(table: u8, row: u32) -> u64
    ensures { result ≡ token_of table row }
{
    u64::from(table) * 0x0100_0000 + u64::from(row)
}

/// The row that a coded index names (II.24.2.6).
pub(crate) fn named_row(kind: Coded, value: u32) -> (u8, u32)
    requires { (table row : ℕ) × Names kind value table row }
    ensures { Names kind value result.0 result.1 }
{
    match unpack_coded(kind, value) {
        Some(at) => at,
        None => unreachable!(),
    }
}

/// The type that is kept of a row.
pub(crate) fn kept_owner(known: &KeptNames, table: u8, row: u32) -> &Owner
    requires { (owner : Owner) × (owner_of_row known.now table row ≡ Some owner) }
    ensures { owner_of_row known.now table row ≡ Some result.now }
{
    match known.owner_of_row(table, row) {
        Some(owner) => owner,
        None => unreachable!(),
    }
}

/// The method that is kept of a row.
pub(crate) fn kept_method(methods: &Kept<MethodRef>, table: u8, row: u32) -> &MethodRef
    requires { Has (all_of methods.now) (token_of table row) }
    ensures { all_of methods.now (token_of table row) ≡ Some result.now }
{
    match methods.get(token_of(table, row)) {
        Some(method) => method,
        None => unreachable!(),
    }
}

/// The type of a MemberRef in use, where the methods of all types are kept (II.22.25).
#[tactic(auto, unfolding(metadata_tables::specs::Schema::schema))]
pub(crate) fn member_owner(
    alloc: Global,
    image: &Image<'_>,
    known: &KeptNames,
    methods: &Kept<MethodRef>,
    row: u32,
) -> Result<Owner, NoMemory>
    requires can { CanKeep image.now known.now }
    requires used { IsUsed image.now 0x0A row }
    requires so { AreTrue (IsMethodOf image.now known.now) (all_of methods.now) }
    requires has { HasMethods image.now (all_of methods.now) }
    ensures { IfOk result (OwnsMember image.now (owners_of known.now) row) }
{
    let at = named_row(Coded::MemberRefParent, image.tables().cell(0x0A, row, 0));
    if at.0 == 0x06 {
        return kept_method(methods, at.0, at.1).owner.copy(alloc);
    }
    kept_owner(known, at.0, at.1).copy(alloc)
}
