ghost use Rattle.type_hierarchy.specs.ValueNames.{in_attribute, in_generic, in_field, in_param, in_property, in_event, in_method};

use super::NamesValues;
use assembly_tree::{Attribute, Event, Field, Generic, Method, Param, Property};
use il_lists::NoMemory;
use std::alloc::Global;
use type_hierarchy::meanings::Meanings;
use type_hierarchy::names::Names;

impl NamesValues for Attribute {
    ghost value_names = { in_attribute };

    #[tactic(auto, unfolding(type_hierarchy::specs::ValueNames::in_attribute))]
    fn gather(&self, alloc: Global, means: &Meanings, into: &mut Names) -> Result<(), NoMemory> {
        self.constructor.gather(alloc, means, into)
    }
}

impl NamesValues for Generic {
    ghost value_names = { in_generic };

    #[tactic(auto, using(crate::proofs::Gathering::both_in), unfolding(type_hierarchy::specs::ValueNames::in_generic))]
    fn gather(&self, alloc: Global, means: &Meanings, into: &mut Names) -> Result<(), NoMemory> {
        self.bounds.gather(alloc, means, into)?;
        self.attributes.gather(alloc, means, into)
    }
}

impl NamesValues for Field {
    ghost value_names = { in_field };

    #[tactic(auto, using(crate::proofs::Gathering::both_in), unfolding(type_hierarchy::specs::ValueNames::in_field))]
    fn gather(&self, alloc: Global, means: &Meanings, into: &mut Names) -> Result<(), NoMemory> {
        self.of.gather(alloc, means, into)?;
        self.attributes.gather(alloc, means, into)
    }
}

impl NamesValues for Param {
    ghost value_names = { in_param };

    #[tactic(auto, unfolding(type_hierarchy::specs::ValueNames::in_param))]
    fn gather(&self, alloc: Global, means: &Meanings, into: &mut Names) -> Result<(), NoMemory> {
        self.attributes.gather(alloc, means, into)
    }
}

impl NamesValues for Property {
    ghost value_names = { in_property };

    #[tactic(auto, using(crate::proofs::Gathering::both_in), unfolding(type_hierarchy::specs::ValueNames::in_property))]
    fn gather(&self, alloc: Global, means: &Meanings, into: &mut Names) -> Result<(), NoMemory> {
        self.sig.gather(alloc, means, into)?;
        self.attributes.gather(alloc, means, into)
    }
}

impl NamesValues for Event {
    ghost value_names = { in_event };

    #[tactic(auto, using(crate::proofs::Gathering::both_in), unfolding(type_hierarchy::specs::ValueNames::in_event))]
    fn gather(&self, alloc: Global, means: &Meanings, into: &mut Names) -> Result<(), NoMemory> {
        self.of.gather(alloc, means, into)?;
        self.attributes.gather(alloc, means, into)
    }
}

impl NamesValues for Method {
    ghost value_names = { in_method };

    #[tactic(auto, using(crate::proofs::Gathering::both_in), unfolding(type_hierarchy::specs::ValueNames::in_method))]
    fn gather(&self, alloc: Global, means: &Meanings, into: &mut Names) -> Result<(), NoMemory> {
        self.sig.gather(alloc, means, into)?;
        self.generics.gather(alloc, means, into)?;
        self.params.gather(alloc, means, into)?;
        self.overrides.gather(alloc, means, into)?;
        self.body.gather(alloc, means, into)?;
        self.attributes.gather(alloc, means, into)
    }
}
