//! The methods of a class, of which the first with a name and a signature is found by its hash: a map leads from a hash to the
//! first method with it, and a chain from each method to the next one with the same hash. The methods are entered from the last to the
//! first, so the newest in a chain is the first.

ghost use Rattle.std.specs.Prelude.{◌≡◌, IfOk, map, nat_eq, position};
ghost use Rattle.indexmap.specs.IndexMap.{get};
ghost use Rattle.lower_members.specs.MethodHashes.{signed_hash};
ghost use Rattle.lower_members.specs.SignedMethods.{is_signed, signed};

use assembly_tree::Method;
use il_base::{Items, NoMemory};
use indexmap::IndexMap;
use std::alloc::Global;
use std::marker::Model;
use type_terms::equality::is_same_signature;
use type_terms::hashing::hash_member;
use type_terms::{MethodSig, orders_are_total};

/// Methods that can be found. Contracts see the list of their names and signatures.
#[derive(Drop)]
pub struct MethodTable<'a> {
    methods: &'a [Method],
    // From a hash to the entry of the first method with it. Entries are counted from the last method.
    newest: IndexMap<u64, usize>,
    // From each entry to that of the next method with the same hash.
    nexts: Items<Option<usize>>,
}

impl<'a> Model for MethodTable<'a> {
    ghost use Rattle.std.specs.Coded.{codes};
    ghost use Rattle.std.specs.Prelude.{List, map, nat_eq, reverse};
    ghost use Rattle.indexmap.specs.IndexMap.{get};
    ghost use Rattle.type_terms.specs.contracts.term.SigType as sig_type;
    ghost use Rattle.source_nodes.specs.Chains.{IsChained};
    ghost use Rattle.lower_members.specs.MethodHashes.{signed_hash};
    ghost use Rattle.lower_members.specs.SignedMethods.{Signed, signed};

    ghost Value = { List Signed };

    ghost coded = { Prim.hlevel (codes, sig_type.the_row.coded) };

    ghost view = { λ t. map signed t.methods.now };

    ghost invariant = { λ t. IsChained signed_hash (get nat_eq t.newest) (reverse (map signed t.methods.now)) t.nexts };
}

impl<'a> MethodTable<'a> {
    /// The table of some methods.
    pub fn new(alloc: Global, methods: &'a [Method]) -> Result<MethodTable<'a>, NoMemory>
        ensures { IfOk result (λ table. table ≡ map signed methods.now) }
    {
        let mut newest = IndexMap::new(alloc);
        let mut nexts = Items::new(alloc);
        let mut more = methods.len();
        while more > 0 {
            more -= 1;
            let method = &methods[more];
            let hash = signed_hash(method.name.as_bytes(), &method.sig);
            let next = newest.get(&hash).copied();
            let place = nexts.len();
            if newest.insert(hash, place).is_err() {
                return Err(NoMemory);
            }
            nexts.push(next)?;
        }
        Ok(MethodTable {
            methods,
            newest,
            nexts,
        })
    }

    /// The number of the first method with a name and a signature. Takes no memory.
    pub fn find(&self, name: &[u8], sig: &MethodSig) -> Option<usize>
        ensures { result ≡ position (is_signed name.now sig.now) self.now }
    {
        orders_are_total();
        let mut at = self.newest.get(&signed_hash(name, sig)).copied();
        while let Some(place) = at {
            let k = self.methods.len() - 1 - place;
            if is_signed(&self.methods[k], name, sig) {
                return Some(k);
            }
            at = *self.nexts.at(place);
        }
        None
    }
}

// Whether a method has a name and a signature.
fn is_signed(method: &Method, name: &[u8], sig: &MethodSig) -> bool
    ensures { result ≡ is_signed name.now sig.now (signed method.now) }
{
    method.name.as_bytes() == name && is_same_signature(&method.sig, sig)
}

// The hash of a method with a name and a signature.
fn signed_hash(name: &[u8], sig: &MethodSig) -> u64
    ensures { result ≡ signed_hash (record { name = name.now; sig = sig.now }) }
{
    hash_member(name, sig)
}
