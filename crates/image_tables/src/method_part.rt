//! The rows of methods, and their bodies (ECMA-335 II.22.26, II.22.27, II.22.33, II.25.4).
ghost use Rattle.std.specs.Prelude.{◌+◌, ◌^◌, ◌≤◌, length, map, sum_by, OnOk};
ghost use Rattle.image_members.specs.CodeBytes.{body_of, stated_room};
ghost use Rattle.image_rows.specs.Filled.{HoldsMethods};
ghost use Rattle.image_members.specs.Ordered.{IsOrdered};
ghost use Rattle.image_members.specs.Places.{all_methods};
ghost use Rattle.image_tables.specs.Filling.{method_part, IsReady, Fills, Lengthens};

use assembly_tree::Assembly;
use il_base::{Bytes, NoMemory};
use image_members::bodies::push_bodies;
use image_members::classes::Class;
use image_members::order::Ordered;
use image_rows::method_rows::push_methods;
use image_rows::override_rows::push_all_overrides;
use image_rows::param_rows::push_params;
use image_tokens::references::References;
use laws_tree_weights::laws::overrides_are_counted;
use metadata_tables::Rows;
use std::alloc::Global;

/// Adds the bodies of methods to the code, and the rows of methods, of their parameters and of what they
/// override.
pub fn push_method_part<'a>(
    alloc: Global,
    refs: &mut References<'a>,
    rows: &mut Rows,
    code: &mut Bytes,
    a: &'a Assembly,
    classes: &[Class<'a>],
    ordered: &Ordered<'a>,
) -> Result<(), NoMemory>
    requires ready { IsReady 1 (method_part a.now classes.now) a.now classes.now refs.old rows.old }
    requires ordered { IsOrdered a.now classes.now ordered.now }
    requires long { length code.old + sum_by stated_room (map body_of (all_methods a.now classes.now)) ≤ 2 ^ 26 }
    ensures fills { OnOk result (Fills 1 (method_part a.now classes.now) (λ r tables. HoldsMethods a.now classes.now r tables code.new) refs.old refs.new rows.old rows.new) }
    ensures lengthens { OnOk result (Lengthens (sum_by stated_room (map body_of (all_methods a.now classes.now))) code.old code.new) }
{
    overrides_are_counted();
    let methods = ordered.methods.as_slice();
    let bodies = push_bodies(alloc, refs, code, methods)?;
    push_methods(refs, rows, methods, bodies.as_slice(), ordered.params.len())?;
    push_params(refs, rows, ordered.params.as_slice())?;
    push_all_overrides(alloc, refs, rows, methods)?;
    Ok(())
}
