ghost use Rattle.std.specs.Prelude.{◌≡◌, ◌↔◌};
ghost use Rattle.heaps.specs.Content.{HasText};
ghost use Rattle.image_model.specs.Rows.{count_of, HasRow};
ghost use Rattle.member_demands.specs.Semantics.{IsOwnedBy};
ghost use Rattle.distinct_members.specs.Signed.{CanTell, TellFacts};
ghost use Rattle.row_demands.specs.Structured.{MeetStructure};

use crate::likeness::MemberKind;
use crate::owners::{field_type, method_type};
use crate::signatures::{
    field_hash, method_hash, property_hash, same_fields, same_methods, same_properties,
};
use image_streams::Image;
use member_demands::{event_type, property_type};
use signature_equality::Numbering;
use signature_facts::Owners;
use std::marker::Model;

/// The fields of types.
#[derive(Drop)]
pub(crate) struct Fields<'k, 'a, O: Owners, N: Numbering> {
    pub(crate) image: &'k Image<'a>,
    pub(crate) facts: &'k O,
    pub(crate) numbers: &'k N,
}

impl<'k, 'a, O: Owners, N: Numbering> MemberKind for Fields<'k, 'a, O, N> {
    ghost use Rattle.image_model.specs.Columns.{field_name};
    ghost use Rattle.row_demands.specs.Structured.{MeetStructure};
    ghost use Rattle.image_model.specs.Rows.{fields_of};
    ghost use Rattle.distinct_members.specs.Signed.{CanTell, TellFacts, FieldsAlike, field_hash};

    ghost ready = { λ it. MeetStructure it.image.now × CanTell it.image.now (N.canon it.numbers.now) × TellFacts it.image.now (O.facts it.facts.now) };

    ghost image = { λ it. it.image.now };

    ghost table = { λ it. 0x04 };

    ghost members = { λ it. fields_of it.image.now };

    ghost name_at = { λ it. field_name it.image.now };

    ghost alike = { λ it. FieldsAlike it.image.now };

    ghost hash_at = { λ it. field_hash it.image.now (O.facts it.facts.now) };

    fn count(&self) -> u32 {
        self.image.tables().rows(0x04)
    }

    fn owner(&self, row: u32) -> u32 {
        field_type(self.image, row)
    }

    #[tactic(auto, unfolding(metadata_tables::specs::Schema::schema))]
    fn name(&self, row: u32) -> u32 {
        self.image.tables().cell(0x04, row, 1)
    }

    fn signature_hash(&self, row: u32) -> u64 {
        field_hash(self.image, self.facts, row)
    }

    fn same_signature(&self, one: u32, other: u32) -> bool {
        same_fields(self.image, self.numbers, one, other)
    }

    fn are_right(&self) {}
}

/// The methods of types.
#[derive(Drop)]
pub(crate) struct Methods<'k, 'a, O: Owners, N: Numbering> {
    pub(crate) image: &'k Image<'a>,
    pub(crate) facts: &'k O,
    pub(crate) numbers: &'k N,
}

impl<'k, 'a, O: Owners, N: Numbering> MemberKind for Methods<'k, 'a, O, N> {
    ghost use Rattle.image_model.specs.Columns.{method_name};
    ghost use Rattle.row_demands.specs.Structured.{MeetStructure};
    ghost use Rattle.image_model.specs.Rows.{methods_of};
    ghost use Rattle.distinct_members.specs.Signed.{CanTell, TellFacts, MethodsAlike, method_hash};

    ghost ready = { λ it. MeetStructure it.image.now × CanTell it.image.now (N.canon it.numbers.now) × TellFacts it.image.now (O.facts it.facts.now) };

    ghost image = { λ it. it.image.now };

    ghost table = { λ it. 0x06 };

    ghost members = { λ it. methods_of it.image.now };

    ghost name_at = { λ it. method_name it.image.now };

    ghost alike = { λ it. MethodsAlike it.image.now };

    ghost hash_at = { λ it. method_hash it.image.now (O.facts it.facts.now) };

    fn count(&self) -> u32 {
        self.image.tables().rows(0x06)
    }

    fn owner(&self, row: u32) -> u32 {
        method_type(self.image, row)
    }

    #[tactic(auto, unfolding(metadata_tables::specs::Schema::schema))]
    fn name(&self, row: u32) -> u32 {
        self.image.tables().cell(0x06, row, 3)
    }

    fn signature_hash(&self, row: u32) -> u64 {
        method_hash(self.image, self.facts, row)
    }

    fn same_signature(&self, one: u32, other: u32) -> bool {
        same_methods(self.image, self.numbers, one, other)
    }

    fn are_right(&self) {}
}

/// The properties of types.
#[derive(Drop)]
pub(crate) struct Properties<'k, 'a, O: Owners, N: Numbering> {
    pub(crate) image: &'k Image<'a>,
    pub(crate) facts: &'k O,
    pub(crate) numbers: &'k N,
}

impl<'k, 'a, O: Owners, N: Numbering> MemberKind for Properties<'k, 'a, O, N> {
    ghost use Rattle.image_model.specs.Columns.{property_name};
    ghost use Rattle.row_demands.specs.Structured.{MeetStructure};
    ghost use Rattle.image_model.specs.Rows.{properties_of};
    ghost use Rattle.distinct_members.specs.Signed.{CanTell, TellFacts, PropertiesAlike, property_hash};

    ghost ready = { λ it. MeetStructure it.image.now × CanTell it.image.now (N.canon it.numbers.now) × TellFacts it.image.now (O.facts it.facts.now) };

    ghost image = { λ it. it.image.now };

    ghost table = { λ it. 0x17 };

    ghost members = { λ it. properties_of it.image.now };

    ghost name_at = { λ it. property_name it.image.now };

    ghost alike = { λ it. PropertiesAlike it.image.now };

    ghost hash_at = { λ it. property_hash it.image.now (O.facts it.facts.now) };

    fn count(&self) -> u32 {
        self.image.tables().rows(0x17)
    }

    fn owner(&self, row: u32) -> u32 {
        property_type(self.image, row)
    }

    #[tactic(auto, unfolding(metadata_tables::specs::Schema::schema))]
    fn name(&self, row: u32) -> u32 {
        self.image.tables().cell(0x17, row, 1)
    }

    fn signature_hash(&self, row: u32) -> u64 {
        property_hash(self.image, self.facts, row)
    }

    fn same_signature(&self, one: u32, other: u32) -> bool {
        same_properties(self.image, self.numbers, one, other)
    }

    fn are_right(&self) {}
}

/// The events of types, which have names alone.
#[derive(Drop)]
pub(crate) struct Events<'k, 'a> {
    pub(crate) image: &'k Image<'a>,
}

impl<'k, 'a> MemberKind for Events<'k, 'a> {
    ghost use Rattle.image_model.specs.Columns.{event_name};
    ghost use Rattle.row_demands.specs.Structured.{MeetStructure};
    ghost use Rattle.image_model.specs.Rows.{events_of};

    ghost ready = { λ it. MeetStructure it.image.now };

    ghost image = { λ it. it.image.now };

    ghost table = { λ it. 0x14 };

    ghost members = { λ it. events_of it.image.now };

    ghost name_at = { λ it. event_name it.image.now };

    ghost alike = { λ it one other. Unit {0} };

    ghost hash_at = { λ it row. 0 };

    fn count(&self) -> u32 {
        self.image.tables().rows(0x14)
    }

    fn owner(&self, row: u32) -> u32 {
        event_type(self.image, row)
    }

    #[tactic(auto, unfolding(metadata_tables::specs::Schema::schema))]
    fn name(&self, row: u32) -> u32 {
        self.image.tables().cell(0x14, row, 1)
    }

    fn signature_hash(&self, _row: u32) -> u64 {
        0
    }

    fn same_signature(&self, _one: u32, _other: u32) -> bool {
        true
    }

    fn are_right(&self) {}
}
