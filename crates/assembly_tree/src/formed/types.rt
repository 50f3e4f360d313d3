ghost use Rattle.std.specs.Prelude.{◌≡◌, ◌-◌, sum_by};
ghost use Rattle.std.specs.List.{list_all};
ghost use Rattle.assembly_tree.specs.WellFormed.{are_classes, is_one_entry};
ghost use Rattle.assembly_tree.specs.WellFormedTypes.{is_pack, is_layout, is_interface, is_base, is_owner_before, is_not_module, is_head, are_members, has_accessors_of_property, has_accessors_of_event, has_its_accessors, members_differ, is_own, are_types, entries_in, entries_of};
ghost use Rattle.assembly_tree.specs.declared.typedef.TypeDef.TheViews.{out-TypeDef};

use super::formed_parts::Formed;
use super::lists::{Before, are_different, are_rising};
use super::members::are_accessors_of;
use super::names::{is_module, is_system_object, is_type_id};
use super::signatures::is_count;
use crate::{Assembly, Event, Layout, Method, Property, TypeDef};
use std::cmp::Ordering;
use type_terms::{Owner, TypeId, compare_owners};

/// The levels of types that may stand in one another.
const MAX_LEVELS: u32 = 100;

fn is_pack(pack: u16) -> bool
    ensures { result ≡ is_pack pack }
{
    matches!(pack, 0 | 1 | 2 | 4 | 8 | 16 | 32 | 64 | 128)
}

fn is_layout(layout: &Option<Layout>) -> bool
    ensures { result ≡ is_layout layout.now }
{
    match layout {
        None => true,
        Some(layout) => is_pack(layout.pack),
    }
}

/// Whether the type is an interface without a base, or another one that has or needs none.
fn is_base(top: bool, id: &TypeId, flags: u32, extends: &Option<Owner>) -> bool
    ensures { result ≡ is_base top id.now flags extends.now }
{
    if flags & 0x20 != 0 {
        extends.is_none()
    } else {
        extends.is_some() || (top && is_system_object(id))
    }
}

/// Whether it isn't a top-level `<Module>`.
fn is_not_module(top: bool, id: &TypeId) -> bool
    ensures { result ≡ is_not_module top id.now }
{
    !(top && is_module(id))
}

impl Before for Owner {
    ghost before = { is_owner_before };

    fn is_before(&self, other: &Owner) -> bool {
        match compare_owners(self, other) {
            Ordering::Less => true,
            Ordering::Equal | Ordering::Greater => false,
        }
    }
}

impl TypeDef {
    /// Whether the type without its members meets its conditions.
    #[tactic(auto, unfolding(crate::specs::WellFormedTypes::is_head))]
    fn is_head(&self, a: &Assembly, top: bool) -> bool
        ensures { result ≡ is_head a.now top (out-TypeDef self.now) }
    {
        is_type_id(&self.id)
            && is_not_module(top, &self.id)
            && is_layout(&self.layout)
            && is_base(top, &self.id, self.flags, &self.extends)
            && is_count(self.generics.len())
            && self.generics.is_formed(a)
            && self.extends.is_formed(a)
            && are_rising(self.implements.as_slice())
            && self.implements.is_formed(a)
            && self.attributes.is_formed(a)
    }

    /// Whether the type's members meet their conditions.
    #[tactic(auto, unfolding(crate::specs::WellFormedTypes::are_members))]
    fn are_members(&self, a: &Assembly) -> bool
        ensures { result ≡ are_members a.now (out-TypeDef self.now) }
    {
        self.fields.is_formed(a)
            && self.methods.is_formed(a)
            && self.properties.is_formed(a)
            && self.events.is_formed(a)
    }

    /// Whether the accessors of its properties and events are among its methods.
    #[tactic(auto, unfolding(crate::specs::WellFormedTypes::has_its_accessors))]
    fn has_its_accessors(&self) -> bool
        ensures { result ≡ has_its_accessors (out-TypeDef self.now) }
    {
        property_accessors_of(self.methods.len(), self.properties.as_slice())
            && event_accessors_of(self.methods.len(), self.events.as_slice())
    }

    /// Whether no member is declared twice.
    #[tactic(auto, unfolding(crate::specs::WellFormedTypes::members_differ))]
    fn members_differ(&self) -> bool
        ensures { result ≡ members_differ (out-TypeDef self.now) }
    {
        are_different(self.fields.as_slice())
            && are_different(self.methods.as_slice())
            && are_different(self.properties.as_slice())
            && are_different(self.events.as_slice())
    }

    /// Whether the type without those that it nests meets its conditions.
    #[tactic(auto, unfolding(crate::specs::WellFormedTypes::is_own))]
    fn is_own(&self, a: &Assembly, top: bool) -> bool
        ensures { result ≡ is_own a.now top (out-TypeDef self.now) }
    {
        self.is_head(a, top)
            && self.are_members(a)
            && self.has_its_accessors()
            && self.members_differ()
    }
}

fn property_accessors_of(methods: usize, properties: &[Property]) -> bool
    ensures { result ≡ list_all (has_accessors_of_property methods) properties.now }
{
    properties.iter().all(|property| are_accessors_of(methods, property.accessors.as_slice()))
}

fn event_accessors_of(methods: usize, events: &[Event]) -> bool
    ensures { result ≡ list_all (has_accessors_of_event methods) events.now }
{
    events.iter().all(|event| are_accessors_of(methods, event.accessors.as_slice()))
}

/// Whether types that stand side by side, and those that they nest, meet their conditions, in at most `levels` levels.
fn are_types(a: &Assembly, top: bool, levels: u32, types: &[TypeDef]) -> bool
    ensures { result ≡ are_types a.now top levels types.now }
{
    if levels == 0 {
        return types.len() == 0;
    }
    if !are_different(types) {
        return false;
    }
    for of in types {
        if !of.is_own(a, top) {
            return false;
        }
        if !are_types(a, false, levels - 1, of.inner()) {
            return false;
        }
    }
    true
}

/// Whether the assembly's types meet their conditions.
pub fn are_classes(a: &Assembly) -> bool
    ensures { result ≡ are_classes a.now }
{
    are_types(a, true, MAX_LEVELS, a.types.as_slice())
}

/// Takes off 1 for each of the methods where the program starts.
fn take_entries(methods: &[Method], left: u64) -> u64
    ensures { result ≡ left - entries_in methods.now }
{
    let mut left = left;
    for method in methods {
        if method.entry {
            left = left.saturating_sub(1);
        }
    }
    left
}

impl TypeDef {
    /// The methods that it declares.
    fn own_methods(&self) -> &[Method]
        ensures { result.now ≡ (out-TypeDef self.now).methods }
    {
        self.methods.as_slice()
    }
}

/// Takes off 1 for each method of the types, and of those that they nest, where the program starts.
fn take_entries_of(types: &[TypeDef], left: u64) -> u64
    ensures { result ≡ left - sum_by entries_of types.now }
{
    let mut left = left;
    for of in types {
        left = take_entries(of.own_methods(), left);
        left = take_entries_of(of.inner(), left);
    }
    left
}

/// Whether the program starts at one method at most.
#[tactic(auto, using(crate::proofs::Charging::both_off), unfolding(crate::specs::WellFormedTypes::entries))]
pub fn is_one_entry(a: &Assembly) -> bool
    ensures { result ≡ is_one_entry a.now }
{
    let left = take_entries(a.methods.as_slice(), 2);
    take_entries_of(a.types.as_slice(), left) > 0
}
