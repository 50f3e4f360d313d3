//! Members of a class, found by a hash of their names and signatures: a map leads from a hash to the newest member with it, and
//! a chain from each member to the newest older one with the same hash.

ghost use Rattle.std.specs.Prelude.{◌≡◌, ◌++◌, ◌∷◌, [], OnErr, OnOk, nat_eq};
ghost use Rattle.indexmap.specs.IndexMap.{get};
ghost use Rattle.check_members.specs.MemberHashes.{member_hash};
ghost use Rattle.check_members.specs.SameMembers.{is_member};

use crate::same_members::is_same_member;
use il_base::{Items, NoMemory, Text};
use indexmap::IndexMap;
use std::alloc::Global;
use std::marker::Model;
use type_terms::hashing::hash_member;
use type_terms::{MethodSig, orders_are_total};

/// What tells a member from the others of its kind: its name and its signature. That of a field has its type alone.
#[derive(Drop)]
pub struct Member {
    pub name: Text,
    pub sig: MethodSig,
}

/// Members. Contracts see the list of them.
#[derive(Drop)]
pub struct Members {
    // From a hash to the place of the newest member with it.
    newest: IndexMap<u64, usize>,
    members: Items<Member>,
    // From each member to the newest older one with the same hash.
    nexts: Items<Option<usize>>,
}

impl Model for Members {
    ghost use Rattle.std.specs.Coded.{codes};
    ghost use Rattle.std.specs.Prelude.{List, nat_eq};
    ghost use Rattle.indexmap.specs.IndexMap.{get};
    ghost use Rattle.type_terms.specs.contracts.term.SigType as sig_type;
    ghost use Rattle.source_nodes.specs.Chains.{IsChained};
    ghost use Rattle.check_members.specs.MemberHashes.{member_hash};
    ghost use Rattle.check_members.specs.declared.member_sets.Member.{Member};

    ghost Value = { List Member };

    ghost coded = { Prim.hlevel (codes, sig_type.the_row.coded) };

    ghost view = { λ n. n.members };

    ghost invariant = { λ n. IsChained member_hash (get nat_eq n.newest) n.members n.nexts };
}

impl Members {
    /// No members. Takes no memory.
    pub fn new(alloc: Global) -> Members
        ensures { result ≡ [] }
    {
        Members {
            newest: IndexMap::new(alloc),
            members: Items::new(alloc),
            nexts: Items::new(alloc),
        }
    }

    /// Whether one of them is the same as a member. Takes no memory.
    pub fn has(&self, member: &Member) -> bool
        ensures { result ≡ is_member self.now member.now }
    {
        orders_are_total();
        let mut at = self.newest.get(&member_hash(member)).copied();
        while let Some(place) = at {
            if is_same_member(member, self.members.at(place)) {
                return true;
            }
            at = *self.nexts.at(place);
        }
        false
    }

    /// Adds a member.
    pub fn push(&mut self, member: Member) -> Result<(), NoMemory>
        ensures ok { OnOk result (self.new ≡ self.old ++ member ∷ []) }
        ensures err { OnErr result (self.new ≡ self.old) }
    {
        let hash = member_hash(&member);
        let next = self.newest.get(&hash).copied();
        let place = self.members.len();
        self.members.push(member)?;
        if let Err(error) = self.nexts.push(next) {
            self.members.truncate(place);
            return Err(error);
        }
        match self.newest.insert(hash, place) {
            Ok(_) => Ok(()),
            Err(_) => {
                self.members.truncate(place);
                self.nexts.truncate(place);
                Err(NoMemory)
            }
        }
    }
}

// The hash of a member.
fn member_hash(member: &Member) -> u64
    ensures { result ≡ member_hash member.now }
{
    hash_member(member.name.as_bytes(), &member.sig)
}
