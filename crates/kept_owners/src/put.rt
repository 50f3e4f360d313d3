ghost use Rattle.std.specs.Prelude.{◌≡◌, OnOk};
ghost use Rattle.kept_owners.specs.Kept.{Adds};

use il_base::NoMemory;
use kept_names::{KeptNames, row_key};
use type_terms::Owner;

/// Keeps the type that a row names.
pub(crate) fn put(kept: &mut KeptNames, table: u8, row: u32, owner: Owner) -> Result<(), NoMemory>
    ensures { OnOk result (Adds kept.old kept.new table row owner) }
{
    kept.owners.keep(row_key(table, row), owner)
}
