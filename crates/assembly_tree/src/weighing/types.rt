ghost use Rattle.std.specs.Prelude.{◌≡◌, ◌-◌, ◌||◌, sum_by};
ghost use Rattle.std.specs.List.{flat_map};
ghost use Rattle.assembly_tree.specs.Loading.{has_text};
ghost use Rattle.assembly_tree.specs.Room.{typedef_texts, texts};
ghost use Rattle.assembly_tree.specs.Weight.{own_weight, typedef_weight, extern_weight, manifest_weight, weight_of};
ghost use Rattle.assembly_tree.specs.declared.typedef.TypeDef.TheViews.{out-TypeDef};

use super::members::charge_present;
use super::terms::charge_bounds;
use super::texts::load_more;
use super::weighs::{Weighs, charge_length};
use crate::{Assembly, ExternAssembly, Manifest, TypeDef};

impl TypeDef {
    /// Takes off the weight of the type without those that it nests.
    #[tactic(auto, using(crate::proofs::Charging::both_off), unfolding(crate::specs::Weight::own_weight))]
    fn charge_own(&self, left: u64) -> u64
        ensures { result ≡ left - own_weight (out-TypeDef self.now) }
    {
        let left = left.saturating_sub(64);
        let left = charge_length(left, self.id.space.len());
        let left = charge_length(left, self.id.name.len());
        let left = charge_present(left, self.layout.is_some());
        let left = self.generics.charge(left);
        let left = self.extends.charge(left);
        let left = charge_bounds(&self.implements, left);
        let left = self.fields.charge(left);
        let left = self.methods.charge(left);
        let left = self.properties.charge(left);
        let left = self.events.charge(left);
        self.attributes.charge(left)
    }
}

/// Takes off the weight of each type, with those that it nests, and looks whether they load texts.
fn charge_types(types: &[TypeDef], left: u64, loads: &mut bool) -> u64
    ensures left { result ≡ left - sum_by typedef_weight types.now }
    ensures loads { loads.new ≡ (loads.old || has_text (flat_map typedef_texts types.now)) }
{
    let mut left = left;
    for of in types {
        left = of.charge_own(left);
        // What has just been weighed is still in the cache.
        *loads = load_more(*loads, of.methods.as_slice());
        left = charge_types(of.inner(), left, loads);
    }
    left
}

impl Weighs for ExternAssembly {
    ghost weight = { extern_weight };

    #[tactic(auto, using(crate::proofs::Charging::both_off), unfolding(crate::specs::Weight::extern_weight))]
    fn charge(&self, left: u64) -> u64 {
        let left = left.saturating_sub(64);
        let left = charge_length(left, self.name.len());
        let left = charge_length(left, self.key.len());
        let left = charge_length(left, self.culture.len());
        charge_length(left, self.hash.len())
    }
}

impl Weighs for Manifest {
    ghost weight = { manifest_weight };

    #[tactic(auto, using(crate::proofs::Charging::both_off), unfolding(crate::specs::Weight::manifest_weight))]
    fn charge(&self, left: u64) -> u64 {
        let left = charge_length(left, self.name.len());
        let left = charge_length(left, self.key.len());
        let left = charge_length(left, self.culture.len());
        let left = charge_length(left, self.module.len());
        let left = self.attributes.charge(left);
        self.module_attributes.charge(left)
    }
}

/// Takes off the weight of the assembly, and looks whether it loads texts.
#[tactic(auto, using(crate::proofs::Charging::both_off), unfolding(crate::specs::Weight::weight_of))]
pub fn charge_assembly(a: &Assembly, left: u64, loads: &mut bool) -> u64
    ensures left { result ≡ left - weight_of a.now }
    ensures loads { loads.new ≡ (loads.old || has_text (texts a.now)) }
{
    let left = left.saturating_sub(32_768);
    let left = a.manifest.charge(left);
    let left = a.externs.charge(left);
    let left = a.fields.charge(left);
    let left = a.methods.charge(left);
    *loads = load_more(*loads, a.methods.as_slice());
    charge_types(a.types.as_slice(), left, loads)
}
