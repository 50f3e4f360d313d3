//! The interfaces that types have above them, each list once.
ghost use Rattle.std.specs.Prelude.{◌≡◌, ◌<◌, length, IfOk};
ghost use Rattle.std.specs.List.{list_any};
ghost use Rattle.std.specs.Option.{option_copied};
ghost use Rattle.assembly_tree.specs.declared.members.Method.{Method};
ghost use Rattle.sig_pool.specs.Terms.{AllBelow};
ghost use Rattle.type_hierarchy.specs.Indexed.{KnowsTypes};
ghost use Rattle.type_hierarchy.specs.World.{hierarchy, type_at, Stays};
ghost use Rattle.class_faces.specs.Marked.{is_face, is_overriding, overrides_some, AreAmong, ArePassing};
ghost use Rattle.class_faces.specs.Merged.{AreMerged};
ghost use Rattle.class_faces.specs.More.{all_of, overriding_of, AreMore};

use crate::closure::{closure, union};
use crate::declaring::declaration;
use crate::rows::INTERFACE;
use assembly_tree::{Assembly, Method};
use il_lists::{Items, NoMemory};
use std::alloc::Global;
use type_order::types::World;
use type_order::{TypeKey, TypeKeys, keys_keep_their_types};

/// The declared interfaces that a type has above it, and those of them with a method that is given as the body of another.
#[derive(Drop)]
pub struct Faces {
    pub all: TypeKeys,
    pub overriding: TypeKeys,
}

/// Whether the key's type is a declared interface.
pub fn is_face(alloc: Global, a: &Assembly, w: &World, key: &TypeKey) -> Result<bool, NoMemory>
    requires key { key.now < length w.now.nodes }
    requires knows { KnowsTypes a.now w.now.tables }
    ensures { IfOk result (λ r. r ≡ is_face a.now (hierarchy w.now) (type_at w.now key.now)) }
{
    match declaration(alloc, a, w, key)? {
        Some(of) => Ok(of.flags & INTERFACE != 0),
        None => Ok(false),
    }
}

/// Whether the key's type is a declared interface with a method that is given as the body of another.
fn is_overriding(alloc: Global, a: &Assembly, w: &World, key: &TypeKey) -> Result<bool, NoMemory>
    requires key { key.now < length w.now.nodes }
    requires knows { KnowsTypes a.now w.now.tables }
    ensures { IfOk result (λ r. r ≡ is_overriding a.now (hierarchy w.now) (type_at w.now key.now)) }
{
    match declaration(alloc, a, w, key)? {
        Some(of) => Ok(of.flags & INTERFACE != 0 && override_some(of.methods.as_slice())),
        None => Ok(false),
    }
}

/// Whether one of the methods is given as the body of another.
fn override_some(methods: &[Method]) -> bool
    ensures { result ≡ list_any overrides_some methods.now }
{
    for method in methods {
        if !method.overrides.is_empty() {
            return true;
        }
    }
    false
}

/// The interfaces among the types.
fn interfaces_among(
    alloc: Global,
    a: &Assembly,
    w: &World,
    keys: &[TypeKey],
) -> Result<TypeKeys, NoMemory>
    requires keys { AllBelow (length w.now.nodes) keys.now }
    requires knows { KnowsTypes a.now w.now.tables }
    ensures { IfOk result (ArePassing (is_face a.now (hierarchy w.now)) w.now.nodes keys.now) }
{
    let mut passing = Items::new(alloc);
    for key in keys {
        if is_face(alloc, a, w, key)? {
            passing.push(*key)?;
        }
    }
    Ok(passing)
}

/// The interfaces among the types that have a method that is given as the body of another.
fn overriding_among(
    alloc: Global,
    a: &Assembly,
    w: &World,
    keys: &[TypeKey],
) -> Result<TypeKeys, NoMemory>
    requires keys { AllBelow (length w.now.nodes) keys.now }
    requires knows { KnowsTypes a.now w.now.tables }
    ensures { IfOk result (ArePassing (is_overriding a.now (hierarchy w.now)) w.now.nodes keys.now) }
{
    let mut passing = Items::new(alloc);
    for key in keys {
        if is_overriding(alloc, a, w, key)? {
            passing.push(*key)?;
        }
    }
    Ok(passing)
}

/// The interfaces among the types, and those of them that override.
fn faces_among(alloc: Global, a: &Assembly, w: &World, keys: &[TypeKey]) -> Result<Faces, NoMemory>
    requires keys { AllBelow (length w.now.nodes) keys.now }
    requires knows { KnowsTypes a.now w.now.tables }
    ensures { IfOk result (AreAmong a.now (hierarchy w.now) w.now.nodes keys.now) }
{
    let all = interfaces_among(alloc, a, w, keys)?;
    let overriding = overriding_among(alloc, a, w, keys)?;
    Ok(Faces { all, overriding })
}

/// The interfaces of both.
fn merged(alloc: Global, above: &Faces, own: &Faces) -> Result<Faces, NoMemory>
    ensures { IfOk result (AreMerged above.now own.now) }
{
    let all = union(alloc, above.all.as_slice(), own.all.as_slice())?;
    let overriding = union(
        alloc,
        above.overriding.as_slice(),
        own.overriding.as_slice(),
    )?;
    Ok(Faces { all, overriding })
}

/// The interfaces of `above`, and those among the types of `own` and what lies above these.
pub fn more_faces(
    alloc: Global,
    a: &Assembly,
    w: &mut World,
    above: Option<&Faces>,
    own: &[TypeKey],
) -> Result<Faces, NoMemory>
    requires types { KnowsTypes a.now w.old.tables }
    requires own { AllBelow (length w.old.nodes) own.now }
    requires all { AllBelow (length w.old.nodes) (all_of (option_copied above)) }
    requires overriding { AllBelow (length w.old.nodes) (overriding_of (option_copied above)) }
    ensures faces { IfOk result (AreMore a.now (hierarchy w.old) w.old.nodes w.new.nodes own.now (option_copied above.entry)) }
    ensures stays { Stays w.old w.new }
{
    keys_keep_their_types();
    let keys = closure(alloc, w, own)?;
    let own = faces_among(alloc, a, w, keys.as_slice())?;
    match above {
        Some(above) => merged(alloc, above, &own),
        None => Ok(own),
    }
}
