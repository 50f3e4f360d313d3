//! What slots of interfaces ask for.
ghost use Rattle.std.specs.Prelude.{◌≡◌, ◌∷◌, ◌<◌, ◌↔◌, drop, length, IsTrue, IfOk};
ghost use Rattle.std.specs.List.{Contains};
ghost use Rattle.sig_pool.specs.Pool.{HasAll};
ghost use Rattle.type_order.specs.Parts.{type_arguments};
ghost use Rattle.type_hierarchy.specs.World.{hierarchy, type_at, Stays};
ghost use Rattle.class_members.specs.Facts.{HasRoom, IsFound, IsSame, IsWanted};

use crate::facts::Facts;
use crate::keys::fact_of;
use assembly_tree::Method;
use il_lists::{Items, NoMemory};
use std::alloc::Global;
use type_order::types::World;
use type_order::{TypeKey, TypeKeys, arguments_of, keys_keep_their_types};

/// What fills a slot, as facts of some type: a method, an override with its signature as it is written, and one with arguments
/// put in.
#[derive(Drop)]
pub struct Wanted {
    pub member: Items<u64>,
    pub written: Items<u64>,
    pub applied: Items<u64>,
}

/// What fills that slot of the interface.
pub fn wants_of(
    alloc: Global,
    w: &mut World,
    face: &TypeKey,
    slot: &Method,
) -> Result<Wanted, NoMemory>
    requires { face.now < length w.old.nodes }
    ensures wanted { IfOk result (IsWanted w.new.nodes (hierarchy w.old) (type_at w.old face.now) slot.now) }
    ensures room { IfOk result HasRoom }
    ensures stays { Stays w.old w.new }
{
    let args = arguments_of(w, face)?;
    wants_by(alloc, w, face, slot, &args)
}

/// What fills that slot of the interface, which has these arguments.
fn wants_by(
    alloc: Global,
    w: &mut World,
    face: &TypeKey,
    slot: &Method,
    args: &TypeKeys,
) -> Result<Wanted, NoMemory>
    requires face { face.now < length w.old.nodes }
    requires args { HasAll w.old.nodes args.now (type_arguments (type_at w.old face.now)) }
    ensures wanted { IfOk result (IsWanted w.new.nodes (hierarchy w.old) (type_at w.old face.now) slot.now) }
    ensures room { IfOk result HasRoom }
    ensures stays { Stays w.old w.new }
{
    keys_keep_their_types();
    let member = fact_of(alloc, w, face, None, &slot.name, &slot.sig, Some(args))?;
    let written = fact_of(alloc, w, face, Some(*face), &slot.name, &slot.sig, None)?;
    let applied = fact_of(
        alloc,
        w,
        face,
        Some(*face),
        &slot.name,
        &slot.sig,
        Some(args),
    )?;
    Ok(Wanted {
        member,
        written,
        applied,
    })
}

/// Whether it is among the facts that the type of `at` offers what is wanted, which stays the same.
pub fn is_offered(facts: &Facts, wanted: &mut Wanted, at: &TypeKey) -> bool
    requires { HasRoom wanted.old }
    ensures answer { IsTrue result ↔ IsFound facts.now at.now wanted.old }
    ensures same { IsSame wanted.old wanted.new }
{
    let member = is_fact(facts, &mut wanted.member, at);
    let written = is_fact(facts, &mut wanted.written, at);
    let applied = is_fact(facts, &mut wanted.applied, at);
    member || written || applied
}

/// Whether this is among the facts with the type of `at` in front, in the place of the first number.
fn is_fact(facts: &Facts, fact: &mut Items<u64>, at: &TypeKey) -> bool
    requires { 0 < length fact.old }
    ensures answer { IsTrue result ↔ Contains facts.now (at.now ∷ drop 1 fact.old) }
    ensures same { drop 1 fact.new ≡ drop 1 fact.old }
    ensures room { 0 < length fact.new }
{
    fact.set(0, at.id().place() as u64);
    facts.has(fact.as_slice())
}
