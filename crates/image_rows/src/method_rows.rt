//! The rows of MethodDef (ECMA-335 II.22.26).
ghost use Rattle.std.specs.Prelude.{◌≡◌, ◌+◌, ◌-◌, ◌^◌, ◌<◌, ◌≤◌, ◌∷◌, [], length, sum_by, OnOk};
ghost use Rattle.std.specs.List.{AllZip};
ghost use Rattle.metadata_tables.specs.Encoding.{rows_in};
ghost use Rattle.image_rows.specs.FieldRows.{AddsItems};
ghost use Rattle.image_rows.specs.MethodRows.{placed_methods, method_cells, IsMethodRow, IsMethodAt};
ghost use Rattle.image_members.specs.Places.{lent, params_of};
ghost use Rattle.image_members.specs.Pushing.{AddsRows};

use assembly_tree::Method;
use il_base::NoMemory;
use image_tokens::references::References;
use image_tokens::row_set::Cells;
use image_tokens::tokens::{METHOD_DEF, run_cell};
use metadata_tables::{Rows, row_of_columns};

/// Adds a row of MethodDef for each declared method, in the order of the declared rows. Bodies stand at
/// the RVAs `bodies`, and there are `params` parameters in all.
pub fn push_methods<'a>(
    refs: &References<'a>,
    rows: &mut Rows,
    methods: &[&'a Method],
    bodies: &[u32],
    params: usize,
) -> Result<(), NoMemory>
    requires declared { AllZip (IsMethodAt refs.now) refs.now.declared.methods (lent methods.now) }
    requires bodies { length bodies.now ≡ length methods.now }
    requires few { rows_in rows.old 0x06 + length methods.now < 2 ^ 24 }
    requires runs { sum_by (λ m. length (params_of m)) (lent methods.now) < 2 ^ 24 }
    ensures { OnOk result (AddsItems 0x06 (IsMethodRow params refs.now) (placed_methods 1 bodies.now (lent methods.now)) rows.old rows.new) }
{
    let mut place: usize = 0;
    let mut param: u32 = 1;
    for method in methods {
        let cells = refs.declared.methods.at(place);
        push_method(rows, method, bodies[place], cells, run_cell(params, param))?;
        place += 1;
        param += method.params.len() as u32;
    }
    Ok(())
}

/// Adds the row of a method, whose name and signature stand where its declared row says.
fn push_method(
    rows: &mut Rows,
    method: &Method,
    rva: u32,
    declared: Cells,
    run: u32,
) -> Result<(), NoMemory>
    requires { rows_in rows.old 0x06 < 2 ^ 24 - 1 }
    ensures { OnOk result (AddsRows 0x06 ((rva ∷ method.now.impl_flags ∷ method.now.flags ∷ declared.second ∷ declared.third ∷ run ∷ []) ∷ []) rows.old rows.new) }
{
    row_of_columns();
    let cells = [
        rva,
        u32::from(method.impl_flags),
        u32::from(method.flags),
        declared.second,
        declared.third,
        run,
    ];
    rows.push(METHOD_DEF, &cells)?;
    Ok(())
}
