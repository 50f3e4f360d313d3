//! The interfaces that a type adds to those of its parent.
ghost use Rattle.std.specs.Prelude.{◌≡◌, ◌<◌, ◌∷◌, ℕ, [], length, IsTrue, Some, IfOk};
ghost use Rattle.std.specs.List.{Contains};
ghost use Rattle.std.specs.Option.{option_copied};
ghost use Rattle.type_hierarchy.specs.Indexed.{KnowsTypes};
ghost use Rattle.type_hierarchy.specs.World.{hierarchy, type_at, Stays};
ghost use Rattle.class_notes.specs.Fresh.{AreFresh, AreLedFaces, IsFaceIn, IsPassed};

use crate::note::Open;
use assembly_tree::Assembly;
use class_faces::{Faces, more_faces};
use class_members::Facts;
use il_lists::{Items, NoMemory};
use std::alloc::Global;
use type_order::types::World;
use type_order::{TypeKey, TypeKeys, interfaces_of, keys_keep_their_types};

/// The declared interfaces that the key's type lists or that those lead to.
pub fn led_faces(
    alloc: Global,
    a: &Assembly,
    w: &mut World,
    key: &TypeKey,
) -> Result<Faces, NoMemory>
    requires key { key.now < length w.old.nodes }
    requires knows { KnowsTypes a.now w.old.tables }
    ensures ok { IfOk result (AreLedFaces a.now (hierarchy w.old) w.new.nodes (type_at w.old key.now)) }
    ensures stays { Stays w.old w.new }
{
    keys_keep_their_types();
    let own = interfaces_of(w, key)?;
    more_faces(alloc, a, w, None, own.as_slice())
}

/// Those of the interfaces of which neither the pairs nor the open slots say that the parent has them.
///
/// An interface that is left out has no slot that isn't among the open ones of the parent or filled there.
pub fn fresh_faces(
    alloc: Global,
    pairs: &Facts,
    parent: Option<&TypeKey>,
    opens: &[Open],
    faces: &[TypeKey],
) -> Result<TypeKeys, NoMemory>
    ensures { IfOk result (AreFresh pairs.now (option_copied parent.entry) opens.now faces.now) }
{
    let mut fresh = Items::new(alloc);
    for face in faces {
        if !is_passed(pairs, parent, opens, face) {
            fresh.push(*face)?;
        }
    }
    Ok(fresh)
}

/// Whether it is known that the parent has the interface.
fn is_passed(pairs: &Facts, parent: Option<&TypeKey>, opens: &[Open], face: &TypeKey) -> bool
    ensures { IsTrue result → IsPassed pairs.now (option_copied parent.entry) opens.now face.now }
{
    if is_pair(pairs, parent, face) {
        return true;
    }
    has_face(opens, face)
}

/// Whether the pair of the parent and the interface is among these.
fn is_pair(pairs: &Facts, parent: Option<&TypeKey>, face: &TypeKey) -> bool
    ensures { IsTrue result → (p : ℕ) × (option_copied parent.entry ≡ Some p) × Contains pairs.now (p ∷ face.now ∷ []) }
{
    match parent {
        Some(parent) => pairs.has(&[parent.id().place() as u64, face.id().place() as u64]),
        None => false,
    }
}

/// Whether one of the slots is the interface's.
fn has_face(opens: &[Open], face: &TypeKey) -> bool
    ensures { IsTrue result → IsFaceIn opens.now face.now }
{
    for open in opens {
        if open.face.id().place() == face.id().place() {
            return true;
        }
    }
    false
}
