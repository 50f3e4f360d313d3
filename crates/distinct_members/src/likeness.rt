ghost use Rattle.std.specs.Prelude.{◌≡◌, ◌↔◌, ◌≤◌, ◌<◌, ℕ, List, IsTrue};
ghost use Rattle.heaps.specs.Content.{HasText};
ghost use Rattle.image_model.specs.Rows.{count_of, HasRow};
ghost use Rattle.image_model.specs.Streams.{strings_of};
ghost use Rattle.member_demands.specs.Semantics.{IsOwnedBy};

use name_numbers::TextHashes;
use row_twins::Likeness;
use std::marker::Model;
use type_terms::hashing::mix;

/// Members of a sort: fields, methods, events or properties.
pub(crate) trait MemberKind {
    ghost use Rattle.std.specs.Prelude.{ℕ, List};

    /// What is known of the members, so that they may be asked.
    ghost ready: { Self → Type 0 };

    /// The image.
    ghost image: { Self → List ℕ };

    /// The table of the members.
    ghost table: { Self → ℕ };

    /// The members of a type.
    ghost members: { Self → ℕ → List ℕ };

    /// The index of a member's name.
    ghost name_at: { Self → ℕ → ℕ };

    /// The signatures of two members are one.
    ghost alike: { Self → ℕ → ℕ → Type 0 };

    /// The hash of a member's signature.
    ghost hash_at: { Self → ℕ → ℕ };

    /// How many members there are.
    fn count(&self) -> u32
        ensures { result ≡ count_of (image self.now) (table self.now) };

    /// The type that has a member.
    fn owner(&self, row: u32) -> u32
        requires ready { ready self.now }
        requires there { HasRow (image self.now) (table self.now) row }
        ensures { IsOwnedBy (image self.now) (members self.now) row result };

    /// The index of a member's name.
    fn name(&self, row: u32) -> u32
        requires ready { ready self.now }
        requires there { HasRow (image self.now) (table self.now) row }
        ensures { result ≡ name_at self.now row };

    /// The hash of a member's signature.
    fn signature_hash(&self, row: u32) -> u64
        requires ready { ready self.now }
        requires there { HasRow (image self.now) (table self.now) row }
        ensures { result ≡ hash_at self.now row };

    /// Whether the signatures of two members are one.
    fn same_signature(&self, one: u32, other: u32) -> bool
        requires ready { ready self.now }
        requires one { HasRow (image self.now) (table self.now) one }
        requires other { HasRow (image self.now) (table self.now) other }
        ensures { IsTrue result ↔ alike self.now one other };

    /// A law: each member has a name, and equal signatures have one hash.
    fn are_right(&self)
        requires { ready self.now }
        ensures names { (row : ℕ) → HasRow (image self.now) (table self.now) row → (text : List ℕ) × HasText (strings_of (image self.now)) (name_at self.now row) text }
        ensures hashes { (one other : ℕ) → HasRow (image self.now) (table self.now) one → HasRow (image self.now) (table self.now) other → alike self.now one other → hash_at self.now one ≡ hash_at self.now other };
}

/// Members are alike where they are of one type and have one name and one signature.
#[derive(Drop)]
pub(crate) struct Members<'m, 't, K: MemberKind> {
    pub(crate) kind: &'m K,
    pub(crate) texts: &'m TextHashes<'t>,
}

impl<'m, 't, K: MemberKind> Likeness for Members<'m, 't, K> {
    ghost use Rattle.std.specs.Prelude.{◌≡◌};
    ghost use Rattle.image_model.specs.Rows.{count_of};
    ghost use Rattle.image_model.specs.Streams.{strings_of};
    ghost use Rattle.distinct_members.specs.Alike.{MembersAlike, MemberHashed};

    ghost ready = { λ it. K.ready it.kind.now × (it.texts.now ≡ strings_of (K.image it.kind.now)) };

    ghost rows = { λ it. count_of (K.image it.kind.now) (K.table it.kind.now) };

    ghost alike = { λ it one other. MembersAlike (K.image it.kind.now) (K.members it.kind.now) (K.name_at it.kind.now) (K.alike it.kind.now) one other };

    ghost hashed = { λ it row hash. MemberHashed (K.image it.kind.now) (K.members it.kind.now) (K.name_at it.kind.now) (K.hash_at it.kind.now) row hash };

    fn count(&self) -> u32 {
        self.kind.count()
    }

    fn hash_of(&self, row: u32) -> u64 {
        let owner = self.kind.owner(row);
        let text = self.texts.hash_at(self.kind.name(row));
        let signature = self.kind.signature_hash(row);
        mix(mix(u64::from(owner), u64::from(text)), signature)
    }

    fn are_alike(&self, one: u32, other: u32) -> bool {
        self.kind.are_right();
        if self.kind.owner(one) != self.kind.owner(other) {
            return false;
        }
        if !self
            .texts
            .is_same(self.kind.name(one), self.kind.name(other))
        {
            return false;
        }
        self.kind.same_signature(one, other)
    }

    fn alike_are_hashed_alike(&self) {
        self.kind.are_right();
    }
}
