//! The types that an assembly declares, in the order of their rows (ECMA-335 II.22.32, II.22.37).
ghost use Rattle.std.specs.Prelude.{◌+◌, ◌-◌, ◌*◌, ◌^◌, ◌<◌, ◌≤◌, length, sum_by, IfOk, OnOk};
ghost use Rattle.assembly_tree.specs.Nesting.{types_in};
ghost use Rattle.assembly_tree.specs.Weight.{weight_of};
ghost use Rattle.image_members.specs.Classes.{AreClasses, AddsClasses};

use assembly_tree::{Assembly, TypeDef};
use il_base::{Items, NoMemory};
use std::alloc::Global;

/// A declared type, with the row of the type that nests it, or 0 where it stands at the top.
#[derive(Clone, Copy)]
pub struct Class<'a> {
    pub of: &'a TypeDef,
    pub encloser: u32,
}

/// Declared types by their rows; the first has row 2, since row 1 is that of `<Module>`.
pub type Classes<'a> = Items<Class<'a>>;

/// The types that the assembly declares, each before those that it nests.
pub fn classes_of<'a>(alloc: Global, a: &'a Assembly) -> Result<Classes<'a>, NoMemory>
    requires { weight_of a.now ≤ 2 ^ 26 }
    ensures classes { IfOk result (AreClasses 0 2 a.now.types) }
    ensures few { IfOk result (λ classes. 64 * length classes ≤ weight_of a.now) }
{
    let mut into = Items::with_capacity(alloc, a.types.len())?;
    add_classes(a.types.as_slice(), 0, &mut into)?;
    Ok(into)
}

/// Adds the types side by side in an encloser, each followed by those that it nests.
fn add_classes<'a>(
    types: &'a [TypeDef],
    encloser: u32,
    into: &mut Classes<'a>,
) -> Result<(), NoMemory>
    requires { length into.old + sum_by types_in types.now < 2 ^ 24 - 2 }
    ensures { OnOk result (AddsClasses encloser types.now into.old into.new) }
{
    for of in types {
        let row = into.len() as u32 + 2;
        into.push(Class { of, encloser })?;
        add_classes(of.nested.as_slice(), row, into)?;
    }
    Ok(())
}
