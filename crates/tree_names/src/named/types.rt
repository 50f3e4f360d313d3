ghost use Rattle.std.specs.Prelude.{◌≡◌, OnOk};
ghost use Rattle.std.specs.List.{flat_map};
ghost use Rattle.assembly_tree.specs.declared.typedef.TypeDef.TheViews.{out-TypeDef};
ghost use Rattle.tree_names.specs.Looking.{seen_all};
ghost use Rattle.tree_names.specs.Named.{names_in, names_in_declarations, names_in_manifest, names_in_own, names_in_typedef};

use super::{Looks, Named};
use assembly_tree::{Assembly, Manifest, TypeDef};
use il_lists::NoMemory;

/// Shows the names in a type without those that it nests.
#[tactic(auto, using(crate::proofs::Seeing::both_seen), unfolding(crate::specs::Named::names_in_own))]
fn show_own<L: Looks>(t: &TypeDef, to: &mut L) -> Result<(), NoMemory>
    ensures { OnOk result (to.new ≡ seen_all L.seen to.old (names_in_own (out-TypeDef t.now))) }
{
    t.generics.show(to)?;
    t.extends.show(to)?;
    t.implements.show(to)?;
    t.fields.show(to)?;
    t.methods.show(to)?;
    t.properties.show(to)?;
    t.events.show(to)?;
    t.attributes.show(to)
}

/// Shows the names in each type, with those that it nests.
fn show_typedefs<L: Looks>(types: &[TypeDef], to: &mut L) -> Result<(), NoMemory>
    ensures { OnOk result (to.new ≡ seen_all L.seen to.old (flat_map names_in_typedef types.now)) }
{
    for of in types {
        show_own(of, to)?;
        show_typedefs(of.nested.as_slice(), to)?;
    }
    Ok(())
}

/// Shows the names in what an assembly declares, in order: not those in what it and its module say of themselves.
#[tactic(auto, using(crate::proofs::Seeing::both_seen), unfolding(crate::specs::Named::names_in_declarations))]
pub fn show_declarations<L: Looks>(a: &Assembly, to: &mut L) -> Result<(), NoMemory>
    ensures { OnOk result (to.new ≡ seen_all L.seen to.old (names_in_declarations a.now)) }
{
    a.fields.show(to)?;
    a.methods.show(to)?;
    show_typedefs(a.types.as_slice(), to)
}

impl Named for Manifest {
    ghost names = { names_in_manifest };

    #[tactic(auto, using(crate::proofs::Seeing::both_seen), unfolding(crate::specs::Named::names_in_manifest))]
    fn show<L: Looks>(&self, to: &mut L) -> Result<(), NoMemory> {
        self.attributes.show(to)?;
        self.module_attributes.show(to)
    }
}

impl Named for Assembly {
    ghost names = { names_in };

    #[tactic(auto, using(crate::proofs::Seeing::both_seen), unfolding(crate::specs::Named::names_in))]
    fn show<L: Looks>(&self, to: &mut L) -> Result<(), NoMemory> {
        self.manifest.show(to)?;
        show_declarations(self, to)
    }
}
