//! The classes of an assembly.
ghost use Rattle.std.specs.Prelude.{◌≡◌, ◌<◌, ◌≤◌, ◌^◌, ◌++◌, ◌∷◌, [], length, IfOk, OnOk};
ghost use Rattle.std.specs.List.{filter, sum_by};
ghost use Rattle.std.specs.Option.{option_copied};
ghost use Rattle.assembly_tree.specs.Weight.{typedef_weight, weight_of};
ghost use Rattle.assembly_tree.specs.declared.typedef.TypeDef.TheViews.{out-TypeDef};
ghost use Rattle.class_model.specs.Classes.{classes, is_class};
ghost use Rattle.class_faces.specs.Paths.{classes_in, path_in, row_at};

use assembly_tree::{Assembly, TypeDef};
use class_model::Row;
use il_lists::{Copies, Items, NoMemory};
use std::alloc::Global;
use type_terms::{Path, TypeId};

/// The flag of an interface (ECMA-335 II.23.1.15).
pub const INTERFACE: u32 = 0x20;

/// The classes of an assembly in preorder.
pub fn classes(alloc: Global, a: &Assembly) -> Result<Items<Row>, NoMemory>
    requires { weight_of a.now ≤ 2 ^ 26 }
    ensures { IfOk result (λ rows. rows ≡ classes a.now) }
{
    let mut rows = Items::new(alloc);
    add_classes(alloc, None, a.types.as_slice(), &mut rows)?;
    Ok(rows)
}

/// Adds the classes among these types and those that they nest; `outer` is the path of what holds them, None at the top.
fn add_classes(
    alloc: Global,
    outer: Option<&Path>,
    types: &[TypeDef],
    rows: &mut Items<Row>,
) -> Result<(), NoMemory>
    requires { sum_by typedef_weight types.now ≤ 2 ^ 26 }
    ensures { OnOk result (rows.new ≡ rows.old ++ classes_in (path_in (option_copied outer.entry)) types.now) }
{
    for of in types {
        let path = path_of(alloc, outer, &of.id)?;
        let nested = of.nested.as_slice();
        add_class(alloc, &path, of, rows)?;
        add_classes(alloc, Some(&path), nested, rows)?;
    }
    Ok(())
}

/// The path of a type in what has the path `outer`.
fn path_of(alloc: Global, outer: Option<&Path>, id: &TypeId) -> Result<Path, NoMemory>
    ensures { IfOk result (λ path. path ≡ path_in (option_copied outer.entry) ++ id.now ∷ []) }
{
    let id = id.copy(alloc)?;
    match outer {
        None => Path::new(alloc, id),
        Some(outer) => {
            let mut path = outer.copy(alloc)?;
            path.push(id)?;
            Ok(path)
        }
    }
}

/// Adds the type of that path, where it is a class.
fn add_class(
    alloc: Global,
    path: &Path,
    of: &TypeDef,
    rows: &mut Items<Row>,
) -> Result<(), NoMemory>
    requires { length (out-TypeDef of.now).generics < 2 ^ 32 }
    ensures { OnOk result (rows.new ≡ rows.old ++ filter is_class (row_at path.now of.now ∷ [])) }
{
    if of.flags & INTERFACE != 0 {
        return Ok(());
    }
    let path = path.copy(alloc)?;
    let parameters = of.generics.len() as u32;
    rows.push(Row {
        path,
        flags: of.flags,
        parameters,
    })
}
