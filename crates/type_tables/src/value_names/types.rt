ghost use Rattle.std.specs.Prelude.{◌≡◌, OnOk};
ghost use Rattle.std.specs.List.{flat_map};
ghost use Rattle.assembly_tree.specs.declared.typedef.TypeDef.TheViews.{out-TypeDef};
ghost use Rattle.type_hierarchy.specs.Gathered.{gathered};
ghost use Rattle.type_hierarchy.specs.ValueNames.{in_own, in_typedef, value_names};

use super::NamesValues;
use assembly_tree::{Assembly, TypeDef};
use il_lists::NoMemory;
use std::alloc::Global;
use type_hierarchy::meanings::Meanings;
use type_hierarchy::names::Names;

/// Adds the names in a type without those that it nests.
#[tactic(auto, using(crate::proofs::Gathering::both_in), unfolding(type_hierarchy::specs::ValueNames::in_own))]
fn gather_own(
    alloc: Global,
    means: &Meanings,
    t: &TypeDef,
    into: &mut Names,
) -> Result<(), NoMemory>
    ensures { OnOk result (into.new ≡ gathered means.now into.old (in_own (out-TypeDef t.now))) }
{
    t.generics.gather(alloc, means, into)?;
    t.extends.gather(alloc, means, into)?;
    t.implements.gather(alloc, means, into)?;
    t.fields.gather(alloc, means, into)?;
    t.methods.gather(alloc, means, into)?;
    t.properties.gather(alloc, means, into)?;
    t.events.gather(alloc, means, into)?;
    t.attributes.gather(alloc, means, into)
}

/// Adds the names in each type, with those that it nests.
fn gather_typedefs(
    alloc: Global,
    means: &Meanings,
    types: &[TypeDef],
    into: &mut Names,
) -> Result<(), NoMemory>
    ensures { OnOk result (into.new ≡ gathered means.now into.old (flat_map in_typedef types.now)) }
{
    for of in types {
        gather_own(alloc, means, of, into)?;
        gather_typedefs(alloc, means, of.nested.as_slice(), into)?;
    }
    Ok(())
}

impl NamesValues for Assembly {
    ghost value_names = { value_names };

    #[tactic(auto, using(crate::proofs::Gathering::both_in), unfolding(type_hierarchy::specs::ValueNames::value_names))]
    fn gather(&self, alloc: Global, means: &Meanings, into: &mut Names) -> Result<(), NoMemory> {
        self.manifest.attributes.gather(alloc, means, into)?;
        self.manifest.module_attributes.gather(alloc, means, into)?;
        self.fields.gather(alloc, means, into)?;
        self.methods.gather(alloc, means, into)?;
        gather_typedefs(alloc, means, self.types.as_slice(), into)
    }
}
