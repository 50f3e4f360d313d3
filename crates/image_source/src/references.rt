ghost use Rattle.std.specs.Prelude.{◌≡◌, ℕ, IfOk};
ghost use Rattle.image_model.specs.Rows.{Names, token_of};
ghost use Rattle.image_source.specs.Ready.{KeepsOwner, HasKeptOwner, KeepsMethod, HasKeptMethod};

use crate::Source;
use il_base::{Copies, NoMemory};
use metadata_tables::{Coded, unpack_coded};
use std::alloc::Global;
use type_terms::{MethodRef, Owner};

/// The type that a TypeDefOrRef index names.
pub fn owner(alloc: Global, source: &Source<'_, '_>, value: u32) -> Result<Owner, NoMemory>
    requires { HasKeptOwner source.now.image.now source.now.kept.now value }
    ensures { IfOk result (KeepsOwner source.now.image.now source.now.kept.now value) }
{
    let at = row_of(Coded::TypeDefOrRef, value);
    match source.kept.owner_of_row(at.0, at.1) {
        Some(owner) => owner.copy(alloc),
        None => unreachable!(),
    }
}

/// The method that a coded index names.
pub fn method(
    alloc: Global,
    source: &Source<'_, '_>,
    kind: Coded,
    value: u32,
) -> Result<MethodRef, NoMemory>
    requires { HasKeptMethod source.now.kept.now kind value }
    ensures { IfOk result (KeepsMethod source.now.kept.now kind value) }
{
    let at = row_of(kind, value);
    match source.kept.methods.get(token_of(at.0, at.1)) {
        Some(method) => method.copy(alloc),
        None => unreachable!(),
    }
}

/// The table and the row that a coded index names.
fn row_of(kind: Coded, value: u32) -> (u8, u32)
    requires { (table row : ℕ) × Names kind value table row }
    ensures { Names kind value result.0 result.1 }
{
    match unpack_coded(kind, value) {
        Some(at) => at,
        None => unreachable!(),
    }
}

/// The token of a row, which may be past three bytes.
fn token_of(table: u8, row: u32) -> u64
    ensures { result ≡ token_of table row }
{
    u64::from(table) * 0x0100_0000 + u64::from(row)
}
