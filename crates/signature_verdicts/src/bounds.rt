ghost use Rattle.std.specs.Prelude.{◌≡◌, ◌↔◌, ◌≤◌, IsTrue, false};
ghost use Rattle.image_model.specs.Terms.{max_count};
ghost use Rattle.signature_facts.specs.Scanning.{whole_type, whole_locals, whole_instantiation, whole_property};
ghost use Rattle.signature_bounds.specs.Bounded.{scanned_at, IsKept, HasRank, IsBounded, FieldIs, MethodIs};

use crate::{Judgements, Kind};
use signature_facts::Owners;

impl<'s, 'a, O: Owners> Judgements<'s, 'a, O> {
    /// Whether the blob at an index spells a type in bounds (ECMA-335 II.23.2.14).
    pub fn is_type(&self, index: u32) -> bool
        ensures { IsTrue result ↔ IsKept (scanned_at self.now.image.now (whole_type (O.facts self.now.owners.now)) index) HasRank }
    {
        self.of(Kind::Type, index).is_bounded
    }

    /// Whether the blob at an index spells a field in bounds (ECMA-335 II.23.2.4).
    pub fn is_field(&self, index: u32) -> bool
        ensures { IsTrue result ↔ FieldIs self.now.image.now (O.facts self.now.owners.now) index }
    {
        self.of(Kind::Field, index).is_bounded
    }

    /// Whether the blob at an index spells a method in bounds (ECMA-335 II.23.2.2).
    pub fn is_method(&self, index: u32) -> bool
        ensures { IsTrue result ↔ MethodIs self.now.image.now (O.facts self.now.owners.now) index IsBounded }
    {
        self.of(Kind::Method, index).is_bounded
    }

    /// Whether the blob at an index spells a property in bounds (ECMA-335 II.23.2.5).
    pub fn is_property(&self, index: u32) -> bool
        ensures { IsTrue result ↔ IsKept (scanned_at self.now.image.now (whole_property (O.facts self.now.owners.now)) index) IsBounded }
    {
        self.of(Kind::Property, index).is_bounded
    }

    /// Whether the blob at an index spells locals in bounds (ECMA-335 II.23.2.6).
    pub fn are_locals(&self, index: u32) -> bool
        ensures { IsTrue result ↔ IsKept (scanned_at self.now.image.now (whole_locals (O.facts self.now.owners.now)) index) (λ l. (l.count ≤ max_count) × HasRank l.facts) }
    {
        self.of(Kind::Locals, index).is_bounded
    }

    /// Whether the blob at an index spells arguments of a generic method in bounds (ECMA-335 II.23.2.15).
    pub fn are_arguments(&self, index: u32) -> bool
        ensures { IsTrue result ↔ IsKept (scanned_at self.now.image.now (whole_instantiation (O.facts self.now.owners.now)) index) (λ l. HasRank l.facts) }
    {
        self.of(Kind::Instantiation, index).is_bounded
    }

    /// Whether it spells a method in bounds that has no sentinel.
    pub fn is_declared_method(&self, index: u32) -> bool
        ensures { IsTrue result ↔ MethodIs self.now.image.now (O.facts self.now.owners.now) index (λ m. IsBounded m × (m.has_sentinel ≡ false)) }
    {
        let verdict = self.of(Kind::Method, index);
        verdict.is_bounded && !verdict.has_sentinel
    }

    /// Whether it spells a method at all.
    pub fn is_spelled_method(&self, index: u32) -> bool
        ensures { IsTrue result ↔ MethodIs self.now.image.now (O.facts self.now.owners.now) index (λ m. Unit {0}) }
    {
        self.of(Kind::Method, index).is_spelled
    }
}
