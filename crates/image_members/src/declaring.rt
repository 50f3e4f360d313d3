//! The rows by which declared types are found (ECMA-335 II.10.8, II.22.32, II.22.37).
ghost use Rattle.std.specs.Prelude.{◌≡◌, ◌+◌, ◌-◌, ◌^◌, ◌<◌, ◌∷◌, [], length, map, sum_by, IfOk, OnOk};
ghost use Rattle.std.specs.List.{AllByRecursion};
ghost use Rattle.image_members.specs.Declaring.{module_id, class_id, class_place, class_size, places, AreApart, Declares, IsDeclaring};
ghost use Rattle.image_tokens.specs.Texts.{IsPlainId, id_size};

use crate::classes::Class;
use heaps::{StringHeap, one_content_at_an_index};
use il_base::{NoMemory, Text};
use image_tokens::row_set::{Cells, RowSet};
use image_tokens::texts::add_id;
use std::alloc::Global;
use type_terms::TypeId;

/// How many names there are mostly beside those of types.
const MORE_NAMES: usize = 100;

/// The rows of `<Module>` and of the declared types, each found by its encloser's row, its name and its
/// space.
pub fn declare_types<'a>(
    alloc: Global,
    strings: &mut StringHeap,
    classes: &[Class<'a>],
) -> Result<RowSet, NoMemory>
    requires plain { AllByRecursion (λ c. IsPlainId (class_id c)) classes.now }
    requires apart { AreApart (places classes.now) }
    requires room { length strings.old.bytes + (10 + sum_by class_size classes.now) + 8 < 2 ^ 29 }
    requires few { length classes.now < 2 ^ 24 - 2 }
    ensures { IfOk result (IsDeclaring classes.now strings.old strings.new) }
{
    strings.make_room(alloc, classes.len() + MORE_NAMES)?;
    let mut rows = RowSet::with_room(alloc, classes.len() + 1)?;
    let module = module_id(alloc)?;
    declare_type(strings, &mut rows, 0, &module)?;
    declare_classes(strings, &mut rows, classes)?;
    Ok(rows)
}

/// The name of the type that holds what is declared outside of any class.
fn module_id(alloc: Global) -> Result<TypeId, NoMemory>
    ensures { IfOk result (λ id. id ≡ module_id) }
{
    let name = Text::new(alloc, "<Module>")?;
    let space = Text::new(alloc, "")?;
    Ok(TypeId { space, name })
}

/// Adds the row of each type.
fn declare_classes<'a>(
    strings: &mut StringHeap,
    rows: &mut RowSet,
    classes: &[Class<'a>],
) -> Result<(), NoMemory>
    requires plain { AllByRecursion (λ c. IsPlainId (class_id c)) classes.now }
    requires room { length strings.old.bytes + sum_by class_size classes.now + 8 < 2 ^ 29 }
    requires few { length rows.old + length classes.now < 2 ^ 24 - 1 }
    ensures { OnOk result (Declares (map class_place classes.now) (sum_by class_size classes.now) strings.old strings.new rows.old rows.new) }
{
    for class in classes {
        declare_type(strings, rows, class.encloser, &class.of.id)?;
    }
    Ok(())
}

/// Adds the row of a type in its encloser.
fn declare_type(
    strings: &mut StringHeap,
    rows: &mut RowSet,
    encloser: u32,
    id: &TypeId,
) -> Result<(), NoMemory>
    requires plain { IsPlainId id.now }
    requires room { length strings.old.bytes + id_size id.now + 8 < 2 ^ 29 }
    requires few { length rows.old < 2 ^ 24 - 1 }
    ensures { OnOk result (Declares (record { encloser = encloser; id = id.now } ∷ []) (id_size id.now) strings.old strings.new rows.old rows.new) }
{
    one_content_at_an_index();
    let (name, space) = add_id(strings, id)?;
    rows.number(Cells {
        first: encloser,
        second: name,
        third: space,
    })?;
    Ok(())
}
