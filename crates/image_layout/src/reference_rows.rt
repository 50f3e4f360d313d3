//! The rows of the tables of references: TypeRef, MemberRef, StandAloneSig, TypeSpec and MethodSpec (ECMA-335 II.22.25, II.22.29,
//! II.22.36, II.22.38, II.22.39).
ghost use Rattle.std.specs.Prelude.{◌≡◌, ◌≤◌, [], map, OnOk};
ghost use Rattle.metadata_tables.specs.Encoding.{rows_of, IsRowOf};
ghost use Rattle.image_tokens.specs.declared.row_set.Cells.{Cells};
ghost use Rattle.image_layout.specs.Referred.{first_cells, LacksReferences, KeepsOthers};
ghost use Rattle.image_rows.specs.Filled.{HoldsReferences};
ghost use Rattle.image_members.specs.Pushing.{AddsRows};

use il_base::NoMemory;
use image_tokens::references::References;
use image_tokens::row_set::RowSet;
use image_tokens::tokens::{MEMBER_REF, METHOD_SPEC, STAND_ALONE_SIG, TYPE_REF, TYPE_SPEC};
use metadata_tables::{Rows, row_of_columns};

/// Adds the rows of references, each as it was made, to tables that have none.
pub fn push_references(rows: &mut Rows, refs: &References<'_>) -> Result<(), NoMemory>
    requires { LacksReferences rows.old }
    ensures holds { OnOk result (HoldsReferences refs.now rows.new) }
    ensures others { OnOk result (KeepsOthers rows.old rows.new) }
{
    row_of_columns();
    push_set(rows, TYPE_REF, &refs.referred.names, 3)?;
    push_set(rows, MEMBER_REF, &refs.referred.members, 3)?;
    push_set(rows, STAND_ALONE_SIG, &refs.referred.locals, 1)?;
    push_set(rows, TYPE_SPEC, &refs.referred.specs, 1)?;
    push_set(rows, METHOD_SPEC, &refs.referred.instances, 2)?;
    Ok(())
}

/// Adds the rows of a set, as many cells of each as the table has columns, to a table that has no rows.
fn push_set(rows: &mut Rows, table: u8, set: &RowSet, columns: usize) -> Result<(), NoMemory>
    requires empty { rows_of rows.old table ≡ [] }
    requires columns { columns ≤ 3 }
    requires cells { (c : Cells) → IsRowOf table (first_cells columns c) }
    ensures { OnOk result (AddsRows table (map (first_cells columns) set.now) rows.old rows.new) }
{
    for k in 0..set.len() {
        let cells = set.at(k);
        rows.push(table, &[cells.first, cells.second, cells.third][..columns])?;
    }
    Ok(())
}
