//! The slots for which a type has no method.
ghost use Rattle.std.specs.Prelude.{◌≡◌, ◌<◌, ℕ, length, IfOk, OnOk};
ghost use Rattle.std.specs.List.{All, Contains};
ghost use Rattle.assembly_tree.specs.declared.assembly.Assembly.{Assembly as Tree};
ghost use Rattle.sig_pool.specs.Terms.{AllBelow};
ghost use Rattle.type_hierarchy.specs.Indexed.{KnowsTypes};
ghost use Rattle.type_hierarchy.specs.World.{hierarchy, type_at, Stays};
ghost use Rattle.class_model.specs.Slots.{is_slot, methods_in, IsFace};
ghost use Rattle.class_notes.specs.Opening.{AddsFaces, AddsSlot, AddsSlots, AreStill, IsLeft, IsWithin};
ghost use Rattle.class_notes.specs.Reading.{HasRead};

use crate::filling::{is_filled, is_own_filled};
use crate::note::{Open, Opens};
use assembly_tree::{Assembly, Method};
use class_faces::declaration;
use class_members::Facts;
use il_lists::{Items, NoMemory};
use std::alloc::Global;
use type_order::types::World;
use type_order::{TypeKey, keys_keep_their_types};

/// Those of the slots for which the type of `at` has no method of its own either.
pub fn still_open(
    alloc: Global,
    a: &Assembly,
    w: &mut World,
    facts: &Facts,
    at: &TypeKey,
    opens: &[Open],
) -> Result<Opens, NoMemory>
    requires at { at.now < length w.old.nodes }
    requires knows { KnowsTypes a.now w.old.tables }
    requires opens { All (IsWithin (length w.old.nodes)) opens.now }
    requires read { HasRead a.now (hierarchy w.old) w.old.nodes facts.now (type_at w.old at.now) }
    ensures ok { IfOk result (AreStill a.now (hierarchy w.old) w.old.nodes (type_at w.old at.now) opens.now) }
    ensures stays { Stays w.old w.new }
{
    keys_keep_their_types();
    let mut left = Items::new(alloc);
    for open in opens {
        if is_left(alloc, a, w, facts, at, open)? {
            left.push(*open)?;
        }
    }
    Ok(left)
}

/// Whether the type of `at` has no method of its own for a slot.
fn is_left(
    alloc: Global,
    a: &Assembly,
    w: &mut World,
    facts: &Facts,
    at: &TypeKey,
    open_at: &Open,
) -> Result<bool, NoMemory>
    requires at { at.now < length w.old.nodes }
    requires knows { KnowsTypes a.now w.old.tables }
    requires slot { open_at.now.face < length w.old.nodes }
    requires read { HasRead a.now (hierarchy w.old) w.old.nodes facts.now (type_at w.old at.now) }
    ensures ok { IfOk result (IsLeft a.now (hierarchy w.old) w.old.nodes (type_at w.old at.now) open_at.now) }
    ensures stays { Stays w.old w.new }
{
    let declared = declaration(alloc, a, w, &open_at.face)?;
    let Some(of) = declared else {
        return Ok(false);
    };
    match of.methods.get(open_at.place) {
        Some(slot) => {
            let filled = is_own_filled(alloc, w, facts, at, &open_at.face, slot)?;
            Ok(!filled)
        }
        None => Ok(false),
    }
}

/// Adds the slots of interfaces for which the type of `at` has no method.
pub fn open_faces(
    alloc: Global,
    a: &Assembly,
    w: &mut World,
    facts: &Facts,
    at: &TypeKey,
    faces: &[TypeKey],
    opens: &mut Opens,
) -> Result<(), NoMemory>
    requires at { at.now < length w.old.nodes }
    requires knows { KnowsTypes a.now w.old.tables }
    requires faces { AllBelow (length w.old.nodes) faces.now }
    requires read { HasRead a.now (hierarchy w.old) w.old.nodes facts.now (type_at w.old at.now) }
    requires are { (k : ℕ) → Contains faces.now k → IsFace a.now (hierarchy w.old) (type_at w.old at.now) (type_at w.old k) }
    ensures ok { OnOk result (AddsFaces a.now (hierarchy w.old) w.new.nodes (type_at w.old at.now) faces.now opens.old opens.new) }
    ensures stays { Stays w.old w.new }
{
    keys_keep_their_types();
    for face in faces {
        open_slots(alloc, a, w, facts, at, face, opens)?;
    }
    Ok(())
}

/// Adds the slots of an interface for which the type of `at` has no method.
pub fn open_slots(
    alloc: Global,
    a: &Assembly,
    w: &mut World,
    facts: &Facts,
    at: &TypeKey,
    face: &TypeKey,
    opens: &mut Opens,
) -> Result<(), NoMemory>
    requires at { at.now < length w.old.nodes }
    requires knows { KnowsTypes a.now w.old.tables }
    requires face { face.now < length w.old.nodes }
    requires read { HasRead a.now (hierarchy w.old) w.old.nodes facts.now (type_at w.old at.now) }
    ensures ok { OnOk result (AddsSlots a.now (hierarchy w.old) w.new.nodes (type_at w.old at.now) face.now (methods_in a.now (hierarchy w.old) (type_at w.old face.now)) opens.old opens.new) }
    ensures stays { Stays w.old w.new }
{
    keys_keep_their_types();
    let declared = declaration(alloc, a, w, face)?;
    let Some(of) = declared else {
        return Ok(());
    };
    let methods = of.methods.as_slice();
    for place in 0..methods.len() {
        open_slot(alloc, w, facts, at, face, &methods[place], place, opens)?;
    }
    Ok(())
}

/// Adds a method of an interface, where it is a slot for which the type of `at` has no method.
fn open_slot(
    alloc: Global,
    w: &mut World,
    facts: &Facts,
    at: &TypeKey,
    face: &TypeKey,
    method: &Method,
    place: usize,
    opens: &mut Opens,
) -> Result<(), NoMemory>
    requires at { at.now < length w.old.nodes }
    requires face { face.now < length w.old.nodes }
    ensures ok { (a : Tree) → HasRead a (hierarchy w.old) w.old.nodes facts.now (type_at w.old at.now) → OnOk result (AddsSlot a (hierarchy w.old) (type_at w.old at.now) (type_at w.old face.now) method.now (record { face = face.now; place = place }) opens.old opens.new) }
    ensures stays { Stays w.old w.new }
{
    if !is_slot(method) {
        return Ok(());
    }
    if is_filled(alloc, w, facts, at, face, method)? {
        return Ok(());
    }
    opens.push(Open { face: *face, place })
}

/// Whether a class has to have a method: whether it is virtual, abstract and not static (ECMA-335 II.23.1.10).
pub fn is_slot(method: &Method) -> bool
    ensures { result ≡ is_slot method.now }
{
    let flags = method.flags;
    flags & 0x440 == 0x440 && flags & 0x10 != 0x10
}
