//! The names that have `valuetype` before them in the types of an assembly (ECMA-335 II.7.1, II.23.2.12), gathered in one
//! walk over the tree.
ghost use Rattle.std.specs.Prelude.{◌≡◌, OnOk, List};
ghost use Rattle.std.specs.List.{flat_map};
ghost use Rattle.type_terms.specs.declared.name.TypeName.{TypeName};
ghost use Rattle.type_hierarchy.specs.Gathered.{gathered, name_by, with_name};
ghost use Rattle.type_hierarchy.specs.ValueNames.{optional};

mod bodies;
mod members;
mod terms;
mod types;

use il_lists::{Copies, Items, NoMemory};
use std::alloc::Global;
use type_hierarchy::meanings::Meanings;
use type_hierarchy::names::Names;
use type_terms::TypeName;

/// Parts of an assembly that have names with `valuetype` in them.
pub trait NamesValues {
    /// These names in order.
    ghost value_names: { Self → List TypeName };

    /// Adds each, with what its scope means, unless it is there.
    fn gather(&self, alloc: Global, means: &Meanings, into: &mut Names) -> Result<(), NoMemory>
        ensures { OnOk result (into.new ≡ gathered means.now into.old (value_names self.now)) };
}

impl<T: NamesValues> NamesValues for Items<T> {
    ghost value_names = { flat_map T.value_names };

    #[tactic(auto, using(crate::proofs::Gathering::both_in, crate::proofs::Gathering::none_in))]
    fn gather(&self, alloc: Global, means: &Meanings, into: &mut Names) -> Result<(), NoMemory> {
        for item in self.as_slice() {
            item.gather(alloc, means, into)?;
        }
        Ok(())
    }
}

impl<T: NamesValues> NamesValues for Option<T> {
    ghost value_names = { optional T.value_names };

    #[tactic(auto, using(crate::proofs::Gathering::both_in, crate::proofs::Gathering::none_in))]
    fn gather(&self, alloc: Global, means: &Meanings, into: &mut Names) -> Result<(), NoMemory> {
        match self {
            None => Ok(()),
            Some(item) => item.gather(alloc, means, into),
        }
    }
}

/// Adds a name, with what its scope means, unless it is there.
fn gather_name(
    alloc: Global,
    means: &Meanings,
    name: &TypeName,
    into: &mut Names,
) -> Result<(), NoMemory>
    ensures { OnOk result (into.new ≡ with_name into.old (name_by means.now name.now)) }
{
    let scope = means.of(name.scope);
    if into.has(scope, name.path.as_slice()) {
        return Ok(());
    }
    let path = name.path.copy(alloc)?;
    into.push(TypeName { scope, path })
}
