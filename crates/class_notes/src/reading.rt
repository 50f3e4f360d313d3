//! All that a type offers.
ghost use Rattle.std.specs.Prelude.{◌≡◌, ◌<◌, ◌⊎◌, [], length, IsTrue, OnOk};
ghost use Rattle.std.specs.List.{flat_map};
ghost use Rattle.sig_pool.specs.Terms.{AllBelow};
ghost use Rattle.type_hierarchy.specs.Indexed.{KnowsTypes};
ghost use Rattle.type_hierarchy.specs.World.{hierarchy, type_at, Stays};
ghost use Rattle.class_members.specs.Facts.{Adds};
ghost use Rattle.class_members.specs.Offers.{overrides_in};
ghost use Rattle.class_notes.specs.Fresh.{AreLedFaces};
ghost use Rattle.class_notes.specs.Reading.{AddsObject, Reads};

use assembly_tree::Assembly;
use class_faces::{Faces, declaration};
use class_members::{Facts, add_object_offers, add_offers, add_overrides};
use il_lists::NoMemory;
use std::alloc::Global;
use type_order::types::World;
use type_order::{TypeKey, keys_keep_their_types, primitive_key};
use type_terms::Prim;

/// Adds all that the type of `at` offers, whose own interfaces lead to these.
pub fn read(
    alloc: Global,
    a: &Assembly,
    w: &mut World,
    facts: &mut Facts,
    at: &TypeKey,
    led: &Faces,
) -> Result<(), NoMemory>
    requires at { at.now < length w.old.nodes }
    requires knows { KnowsTypes a.now w.old.tables }
    requires led { AreLedFaces a.now (hierarchy w.old) w.old.nodes (type_at w.old at.now) led.now }
    ensures ok { OnOk result (Reads a.now (hierarchy w.old) w.new.nodes at.now (type_at w.old at.now) facts.old facts.new) }
    ensures stays { Stays w.old w.new }
{
    keys_keep_their_types();
    add_offers(alloc, a, w, facts, at)?;
    read_overrides(alloc, a, w, facts, at, led.overriding.as_slice())?;
    read_object(alloc, a, w, facts, at)
}

/// Adds, as offers of the type of `at`, the overrides of interfaces.
fn read_overrides(
    alloc: Global,
    a: &Assembly,
    w: &mut World,
    facts: &mut Facts,
    at: &TypeKey,
    faces: &[TypeKey],
) -> Result<(), NoMemory>
    requires knows { KnowsTypes a.now w.old.tables }
    requires faces { AllBelow (length w.old.nodes) faces.now }
    ensures ok { OnOk result (Adds w.new.nodes at.now (flat_map (λ k. overrides_in a.now (hierarchy w.old) (type_at w.old k)) faces.now) facts.old facts.new) }
    ensures stays { Stays w.old w.new }
{
    keys_keep_their_types();
    for face in faces {
        add_overrides(alloc, a, w, facts, at, face)?;
    }
    Ok(())
}

/// Adds what Object offers, where the type of `at` is the core's Object and isn't declared.
fn read_object(
    alloc: Global,
    a: &Assembly,
    w: &mut World,
    facts: &mut Facts,
    at: &TypeKey,
) -> Result<(), NoMemory>
    requires at { at.now < length w.old.nodes }
    requires knows { KnowsTypes a.now w.old.tables }
    ensures ok { OnOk result (AddsObject a.now (hierarchy w.old) w.new.nodes at.now (type_at w.old at.now) facts.old facts.new) }
    ensures stays { Stays w.old w.new }
{
    keys_keep_their_types();
    let object = primitive_key(w, Prim::Object)?;
    let is_object = w.pool().same(at.id(), object.id());
    if !is_object {
        return Ok(());
    }
    let declared = declaration(alloc, a, w, &object)?;
    match declared {
        Some(_) => Ok(()),
        None => add_object_offers(alloc, w, facts, at),
    }
}
