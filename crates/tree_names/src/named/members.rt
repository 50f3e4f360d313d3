ghost use Rattle.tree_names.specs.Named.{names_in_attribute, names_in_generic, names_in_field, names_in_param, names_in_property, names_in_event, names_in_method};

use super::{Looks, Named};
use assembly_tree::{Attribute, Event, Field, Generic, Method, Param, Property};
use il_lists::NoMemory;

impl Named for Attribute {
    ghost names = { names_in_attribute };

    #[tactic(auto, unfolding(crate::specs::Named::names_in_attribute))]
    fn show<L: Looks>(&self, to: &mut L) -> Result<(), NoMemory> {
        self.constructor.show(to)
    }
}

impl Named for Generic {
    ghost names = { names_in_generic };

    #[tactic(auto, using(crate::proofs::Seeing::both_seen), unfolding(crate::specs::Named::names_in_generic))]
    fn show<L: Looks>(&self, to: &mut L) -> Result<(), NoMemory> {
        self.bounds.show(to)?;
        self.attributes.show(to)
    }
}

impl Named for Field {
    ghost names = { names_in_field };

    #[tactic(auto, using(crate::proofs::Seeing::both_seen), unfolding(crate::specs::Named::names_in_field))]
    fn show<L: Looks>(&self, to: &mut L) -> Result<(), NoMemory> {
        self.of.show(to)?;
        self.attributes.show(to)
    }
}

impl Named for Param {
    ghost names = { names_in_param };

    #[tactic(auto, unfolding(crate::specs::Named::names_in_param))]
    fn show<L: Looks>(&self, to: &mut L) -> Result<(), NoMemory> {
        self.attributes.show(to)
    }
}

impl Named for Property {
    ghost names = { names_in_property };

    #[tactic(auto, using(crate::proofs::Seeing::both_seen), unfolding(crate::specs::Named::names_in_property))]
    fn show<L: Looks>(&self, to: &mut L) -> Result<(), NoMemory> {
        self.sig.show(to)?;
        self.attributes.show(to)
    }
}

impl Named for Event {
    ghost names = { names_in_event };

    #[tactic(auto, using(crate::proofs::Seeing::both_seen), unfolding(crate::specs::Named::names_in_event))]
    fn show<L: Looks>(&self, to: &mut L) -> Result<(), NoMemory> {
        self.of.show(to)?;
        self.attributes.show(to)
    }
}

impl Named for Method {
    ghost names = { names_in_method };

    #[tactic(auto, using(crate::proofs::Seeing::both_seen), unfolding(crate::specs::Named::names_in_method))]
    fn show<L: Looks>(&self, to: &mut L) -> Result<(), NoMemory> {
        self.sig.show(to)?;
        self.generics.show(to)?;
        self.params.show(to)?;
        self.overrides.show(to)?;
        self.body.show(to)?;
        self.attributes.show(to)
    }
}
