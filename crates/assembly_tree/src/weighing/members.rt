ghost use Rattle.std.specs.Prelude.{◌≡◌, ◌-◌, ◌+◌, length, if◌then◌else◌};
ghost use Rattle.assembly_tree.specs.Weight.{optional, attribute_weight, constant_weight, generic_weight, field_weight, method_weight, param_weight, property_weight, event_weight};

use super::terms::charge_bounds;
use super::weighs::{Weighs, charge_each, charge_length};
use crate::{Attribute, Constant, Event, Field, Generic, Method, Param, Property};
use il_lists::Bytes;

impl Weighs for Attribute {
    ghost weight = { attribute_weight };

    #[tactic(auto, using(crate::proofs::Charging::both_off), unfolding(crate::specs::Weight::attribute_weight))]
    fn charge(&self, left: u64) -> u64 {
        let left = left.saturating_sub(64);
        let left = self.constructor.charge(left);
        charge_length(left, self.value.len())
    }
}

impl Weighs for Constant {
    ghost weight = { constant_weight };

    #[tactic(auto, using(crate::proofs::Charging::both_off), unfolding(crate::specs::Weight::constant_weight))]
    fn charge(&self, left: u64) -> u64 {
        let left = left.saturating_sub(64);
        match self {
            Constant::Str(units) => charge_each(left, 2, units.len()),
            Constant::Bool(_)
            | Constant::Char(_)
            | Constant::Int { .. }
            | Constant::Real4(_)
            | Constant::Real8(_)
            | Constant::Null => left,
        }
    }
}

impl Weighs for Generic {
    ghost weight = { generic_weight };

    #[tactic(auto, using(crate::proofs::Charging::both_off), unfolding(crate::specs::Weight::generic_weight))]
    fn charge(&self, left: u64) -> u64 {
        let left = left.saturating_sub(64);
        let left = charge_length(left, self.name.len());
        let left = charge_bounds(&self.bounds, left);
        self.attributes.charge(left)
    }
}

impl Weighs for Field {
    ghost weight = { field_weight };

    #[tactic(auto, using(crate::proofs::Charging::both_off), unfolding(crate::specs::Weight::field_weight))]
    fn charge(&self, left: u64) -> u64 {
        let left = left.saturating_sub(64);
        let left = charge_length(left, self.name.len());
        let left = self.of.charge(left);
        let left = self.constant.charge(left);
        let left = charge_present(left, self.offset.is_some());
        let left = charge_content(left, &self.content);
        self.attributes.charge(left)
    }
}

/// Takes off 64 for what is there.
pub fn charge_present(left: u64, present: bool) -> u64
    ensures { result ≡ left - (if present then 64 else 0) }
{
    if present {
        left.saturating_sub(64)
    } else {
        left
    }
}

/// Takes off 64 and the bytes of the data, where there is any.
fn charge_content(left: u64, content: &Option<Bytes>) -> u64
    ensures { result ≡ left - optional (λ bytes. 64 + length bytes) content.now }
{
    match content {
        None => left,
        Some(bytes) => charge_length(left.saturating_sub(64), bytes.len()),
    }
}

impl Weighs for Method {
    ghost weight = { method_weight };

    #[tactic(auto, using(crate::proofs::Charging::both_off), unfolding(crate::specs::Weight::method_weight))]
    fn charge(&self, left: u64) -> u64 {
        let left = left.saturating_sub(64);
        let left = charge_length(left, self.name.len());
        let left = self.sig.charge(left);
        let left = self.generics.charge(left);
        let left = self.params.charge(left);
        let left = charge_each(left, 64, self.overrides.len());
        let left = self.overrides.charge(left);
        let left = self.body.charge(left);
        self.attributes.charge(left)
    }
}

impl Weighs for Param {
    ghost weight = { param_weight };

    #[tactic(auto, using(crate::proofs::Charging::both_off), unfolding(crate::specs::Weight::param_weight))]
    fn charge(&self, left: u64) -> u64 {
        let left = left.saturating_sub(64);
        let left = charge_length(left, self.name.len());
        let left = self.constant.charge(left);
        self.attributes.charge(left)
    }
}

impl Weighs for Property {
    ghost weight = { property_weight };

    #[tactic(auto, using(crate::proofs::Charging::both_off), unfolding(crate::specs::Weight::property_weight))]
    fn charge(&self, left: u64) -> u64 {
        let left = left.saturating_sub(64);
        let left = charge_length(left, self.name.len());
        let left = self.sig.charge(left);
        let left = self.constant.charge(left);
        let left = charge_each(left, 64, self.accessors.len());
        self.attributes.charge(left)
    }
}

impl Weighs for Event {
    ghost weight = { event_weight };

    #[tactic(auto, using(crate::proofs::Charging::both_off), unfolding(crate::specs::Weight::event_weight))]
    fn charge(&self, left: u64) -> u64 {
        let left = left.saturating_sub(64);
        let left = charge_length(left, self.name.len());
        let left = self.of.charge(left);
        let left = charge_each(left, 64, self.accessors.len());
        self.attributes.charge(left)
    }
}
