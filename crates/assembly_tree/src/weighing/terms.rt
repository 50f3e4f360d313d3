ghost use Rattle.std.specs.Prelude.{◌≡◌, ◌-◌, sum_by};
ghost use Rattle.assembly_tree.specs.Weight.{id_weight, name_weight, type_weight, owner_weight, signature_weight, method_ref_weight, field_ref_weight, bounds_weight};

use super::weighs::{Weighs, charge_each, charge_length};
use type_terms::{FieldRef, MethodRef, MethodSig, Owner, Owners, SigType, TypeId, TypeName};

impl Weighs for TypeId {
    ghost weight = { id_weight };

    #[tactic(auto, using(crate::proofs::Charging::both_off), unfolding(crate::specs::Weight::id_weight))]
    fn charge(&self, left: u64) -> u64 {
        let left = left.saturating_sub(32);
        let left = charge_length(left, self.space.len());
        charge_length(left, self.name.len())
    }
}

impl Weighs for TypeName {
    ghost weight = { name_weight };

    #[tactic(auto, using(crate::proofs::Charging::both_off), unfolding(crate::specs::Weight::name_weight))]
    fn charge(&self, left: u64) -> u64 {
        let mut left = left;
        for id in self.path.as_slice() {
            left = id.charge(left);
        }
        left
    }
}

impl Weighs for SigType {
    ghost weight = { type_weight };

    fn charge(&self, left: u64) -> u64 {
        charge_type(self, left)
    }
}

impl Weighs for Owner {
    ghost weight = { owner_weight };

    fn charge(&self, left: u64) -> u64 {
        charge_owner(self, left)
    }
}

#[cycle(charge)]
fn charge_type(t: &SigType, left: u64) -> u64
    ensures { result ≡ left - type_weight t.now }
{
    let left = left.saturating_sub(32);
    match t {
        SigType::Prim(_) | SigType::Var(_) | SigType::MVar(_) => left,
        SigType::Class(name) | SigType::Value(name) => name.charge(left),
        SigType::Inst { name, args, .. } => charge_types(
            args.get().as_slice(),
            name.get().charge(left),
        ),
        SigType::SzArray(of) | SigType::ByRef(of) | SigType::Pointer(of) | SigType::Pinned(of) =>
            charge_type(of.get(), left),
        SigType::Array {
            of,
            sizes,
            lower,
            ..
        } => {
            let left = charge_each(left, 8, sizes.get().len());
            let left = charge_each(left, 8, lower.get().len());
            charge_type(of.get(), left)
        }
        SigType::Mod { by, of, .. } => charge_type(of.get(), charge_owner(by.get(), left)),
    }
}

#[cycle(charge)]
fn charge_owner(owner: &Owner, left: u64) -> u64
    ensures { result ≡ left - owner_weight owner.now }
{
    match owner {
        Owner::Name(name) => name.charge(left),
        Owner::Spec(of) => charge_type(of, left),
    }
}

#[cycle(charge)]
fn charge_types(types: &[SigType], left: u64) -> u64
    ensures { result ≡ left - sum_by type_weight types.now }
{
    let mut left = left;
    for of in types {
        left = charge_type(of, left);
    }
    left
}

impl Weighs for MethodSig {
    ghost weight = { signature_weight };

    #[tactic(auto, using(crate::proofs::Charging::both_off), unfolding(crate::specs::Weight::signature_weight))]
    fn charge(&self, left: u64) -> u64 {
        self.params.charge(self.ret.charge(left))
    }
}

impl Weighs for MethodRef {
    ghost weight = { method_ref_weight };

    #[tactic(auto, using(crate::proofs::Charging::both_off), unfolding(crate::specs::Weight::method_ref_weight))]
    fn charge(&self, left: u64) -> u64 {
        let left = left.saturating_sub(64);
        let left = self.owner.charge(left);
        let left = charge_length(left, self.name.len());
        let left = self.sig.charge(left);
        self.args.charge(left)
    }
}

impl Weighs for FieldRef {
    ghost weight = { field_ref_weight };

    #[tactic(auto, using(crate::proofs::Charging::both_off), unfolding(crate::specs::Weight::field_ref_weight))]
    fn charge(&self, left: u64) -> u64 {
        let left = left.saturating_sub(64);
        let left = self.owner.charge(left);
        let left = charge_length(left, self.name.len());
        self.of.charge(left)
    }
}

/// Takes off 64 for each bound or interface, and its weight.
#[tactic(auto, using(crate::proofs::Charging::both_off), unfolding(crate::specs::Weight::bounds_weight))]
pub fn charge_bounds(bounds: &Owners, left: u64) -> u64
    ensures { result ≡ left - bounds_weight bounds.now }
{
    bounds.charge(charge_each(left, 64, bounds.len()))
}
