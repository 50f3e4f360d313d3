ghost use Rattle.std.specs.Prelude.{◌≡◌, ◌==◌, ◌||◌};
ghost use Rattle.std.specs.List.{list_all};
ghost use Rattle.assembly_tree.specs.DataSize.{size_in_data};
ghost use Rattle.assembly_tree.specs.WellFormedMembers.{is_clear, is_generic, is_param, is_content, is_field, is_property_accessor, is_event_accessor, is_accessor_of, is_property, is_event};

use super::formed_parts::Formed;
use super::names::{has_no_zero, is_name};
use super::signatures::is_property_signature;
use crate::{Accessor, Accessors, Assembly, Event, Field, Generic, Param, Property, data_size};
use il_lists::Bytes;

/// Whether the bits of a mask are clear.
pub fn is_clear(mask: u16, flags: u16) -> bool
    ensures { result ≡ is_clear mask flags }
{
    flags & mask == 0
}

impl Formed for Generic {
    ghost formed = { is_generic };

    #[tactic(auto, unfolding(crate::specs::WellFormedMembers::is_generic))]
    fn is_formed(&self, a: &Assembly) -> bool {
        is_name(&self.name) && self.bounds.is_formed(a) && self.attributes.is_formed(a)
    }
}

impl Formed for Param {
    ghost formed = { is_param };

    #[tactic(auto, unfolding(crate::specs::WellFormedMembers::is_param))]
    fn is_formed(&self, a: &Assembly) -> bool {
        has_no_zero(&self.name)
            && (self.number != 0 || self.name.len() == 0)
            && is_clear(0x1000, self.flags)
            && self.constant.is_formed(a)
            && self.attributes.is_formed(a)
    }
}

impl Formed for Field {
    ghost formed = { is_field };

    #[tactic(auto, unfolding(crate::specs::WellFormedMembers::is_field))]
    fn is_formed(&self, a: &Assembly) -> bool {
        is_name(&self.name)
            && is_clear(0x8100, self.flags)
            && self.of.is_formed(a)
            && self.constant.is_formed(a)
            && is_content(data_size(a, &self.of), &self.content)
            && self.attributes.is_formed(a)
    }
}

/// Whether there is no data, or as many bytes of it as are stated.
fn is_content(size: Option<u32>, content: &Option<Bytes>) -> bool
    ensures { result ≡ is_content size content.now }
{
    match (size, content) {
        (_, None) => true,
        (None, Some(_)) => false,
        (Some(size), Some(bytes)) => bytes.len() == size as usize,
    }
}

impl Formed for Property {
    ghost formed = { is_property };

    #[tactic(auto, unfolding(crate::specs::WellFormedMembers::is_property))]
    fn is_formed(&self, a: &Assembly) -> bool {
        is_name(&self.name)
            && is_clear(0x1000, self.flags)
            && is_property_signature(&self.sig)
            && self.sig.is_formed(a)
            && self.constant.is_formed(a)
            && are_property_accessors(&self.accessors)
            && self.attributes.is_formed(a)
    }
}

impl Formed for Event {
    ghost formed = { is_event };

    #[tactic(auto, unfolding(crate::specs::WellFormedMembers::is_event))]
    fn is_formed(&self, a: &Assembly) -> bool {
        is_name(&self.name)
            && self.of.is_formed(a)
            && are_event_accessors(&self.accessors)
            && self.attributes.is_formed(a)
    }
}

/// Whether each has a kind that a property's accessor has.
fn are_property_accessors(accessors: &Accessors) -> bool
    ensures { result ≡ list_all is_property_accessor accessors.now }
{
    accessors
        .as_slice()
        .iter()
        .all(|accessor| is_property_kind(accessor.kind))
}

fn is_property_kind(kind: u16) -> bool
    ensures { result ≡ ((kind == 1) || (kind == 2) || (kind == 4)) }
{
    kind == 1 || kind == 2 || kind == 4
}

/// Whether each has a kind that an event's accessor has.
fn are_event_accessors(accessors: &Accessors) -> bool
    ensures { result ≡ list_all is_event_accessor accessors.now }
{
    accessors
        .as_slice()
        .iter()
        .all(|accessor| is_event_kind(accessor.kind))
}

fn is_event_kind(kind: u16) -> bool
    ensures { result ≡ ((kind == 4) || (kind == 8) || (kind == 0x10) || (kind == 0x20)) }
{
    kind == 4 || kind == 8 || kind == 0x10 || kind == 0x20
}

/// Whether each accessor is one of so many methods.
pub fn are_accessors_of(methods: usize, accessors: &[Accessor]) -> bool
    ensures { result ≡ list_all (is_accessor_of methods) accessors.now }
{
    accessors
        .iter()
        .all(|accessor| (accessor.method as usize) < methods)
}
