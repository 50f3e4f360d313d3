//! What is known of a type whose parent is known.
ghost use Rattle.std.specs.Prelude.{◌≡◌, ◌<◌, length, false, IsTrue, IfOk, OnOk};
ghost use Rattle.std.specs.Option.{option_copied};
ghost use Rattle.type_hierarchy.specs.Hierarchy.{parent as parent_type};
ghost use Rattle.type_hierarchy.specs.Indexed.{KnowsTypes};
ghost use Rattle.type_hierarchy.specs.Pooled.{HasOption};
ghost use Rattle.type_hierarchy.specs.World.{hierarchy, type_at, Stays};
ghost use Rattle.class_notes.specs.Cores.{IsCored};
ghost use Rattle.class_notes.specs.Making.{AddsItself, AddsPairs, ArePassed, Finds, IsParentChecked, IsParentNoted, IsParentSkipped};
ghost use Rattle.class_notes.specs.Fresh.{AreLedIds};
ghost use Rattle.class_notes.specs.Notes.{AreOpen, IsNoted, Knows};
ghost use Rattle.class_notes.specs.Reading.{HasRead};

use crate::fresh::{fresh_faces, led_faces};
use crate::known::is_known;
use crate::note::{Note, Notes, Opens, noted, put};
use crate::opening::{open_faces, open_slots, still_open};
use crate::reading::read;
use assembly_tree::Assembly;
use class_faces::is_face;
use class_members::Facts;
use il_lists::{Items, NoMemory};
use std::alloc::Global;
use type_order::types::World;
use type_order::{TypeKey, keys_keep_their_types};

/// Finds what is known of the key's type and keeps it. Of its parent it is known.
pub fn make_note(
    alloc: Global,
    a: &Assembly,
    w: &mut World,
    notes: &mut Notes,
    key: &TypeKey,
    parent: Option<&TypeKey>,
) -> Result<(), NoMemory>
    requires key { key.now < length w.old.nodes }
    requires types { KnowsTypes a.now w.old.tables }
    requires core { IsCored (hierarchy w.old) }
    requires knows { Knows a.now (hierarchy w.old) w.old.nodes notes.old }
    requires parent { HasOption w.old.nodes (option_copied parent) (parent_type (hierarchy w.old) (type_at w.old key.now)) }
    requires noted { IsParentNoted notes.old (option_copied parent) }
    ensures ok { OnOk result (Knows a.now (hierarchy w.old) w.new.nodes notes.new) }
    ensures there { OnOk result (IsNoted notes.new key.now) }
    ensures stays { Stays w.old w.new }
{
    keys_keep_their_types();
    if is_parent_skipped(notes, parent) {
        return put(&mut notes.notes, key, Note::Skipped);
    }
    if !is_known(alloc, a, w, key)? {
        return put(&mut notes.notes, key, Note::Skipped);
    }
    let opens = find_open(alloc, a, w, notes, key, parent)?;
    put(&mut notes.notes, key, Note::Checked(opens))
}

/// Whether the parent isn't checked.
fn is_parent_skipped(notes: &Notes, parent: Option<&TypeKey>) -> bool
    requires { IsParentNoted notes.now (option_copied parent) }
    ensures skipped { IsTrue result → IsParentSkipped notes.now (option_copied parent.entry) }
    ensures checked { result ≡ false → IsParentChecked notes.now (option_copied parent.entry) }
{
    match parent {
        Some(parent) => match noted(&notes.notes, parent) {
            Some(Note::Skipped) => true,
            Some(Note::Checked(_)) => false,
            None => false,
        },
        None => false,
    }
}

/// The slots for which a type that is checked has no method. What it offers is added.
fn find_open(
    alloc: Global,
    a: &Assembly,
    w: &mut World,
    notes: &mut Notes,
    key: &TypeKey,
    parent: Option<&TypeKey>,
) -> Result<Opens, NoMemory>
    requires key { key.now < length w.old.nodes }
    requires types { KnowsTypes a.now w.old.tables }
    requires knows { Knows a.now (hierarchy w.old) w.old.nodes notes.old }
    requires parent { HasOption w.old.nodes (option_copied parent) (parent_type (hierarchy w.old) (type_at w.old key.now)) }
    requires checked { IsParentChecked notes.old (option_copied parent) }
    ensures ok { IfOk result (Finds a.now (hierarchy w.old) w.new.nodes (type_at w.old key.now) notes.old notes.new) }
    ensures stays { Stays w.old w.new }
{
    keys_keep_their_types();
    let led = led_faces(alloc, a, w, key)?;
    read(alloc, a, w, &mut notes.facts, key, &led)?;
    let opens = open_all(alloc, a, w, notes, key, parent, led.all.as_slice())?;
    add_pairs(alloc, &mut notes.faces, key, led.all.as_slice())?;
    Ok(opens)
}

/// The slots for which a type that is checked has no method. Its own interfaces lead to these.
fn open_all(
    alloc: Global,
    a: &Assembly,
    w: &mut World,
    notes: &Notes,
    key: &TypeKey,
    parent: Option<&TypeKey>,
    faces: &[TypeKey],
) -> Result<Opens, NoMemory>
    requires key { key.now < length w.old.nodes }
    requires types { KnowsTypes a.now w.old.tables }
    requires knows { Knows a.now (hierarchy w.old) w.old.nodes notes.now }
    requires read { HasRead a.now (hierarchy w.old) w.old.nodes notes.now.facts (type_at w.old key.now) }
    requires parent { HasOption w.old.nodes (option_copied parent) (parent_type (hierarchy w.old) (type_at w.old key.now)) }
    requires checked { IsParentChecked notes.now (option_copied parent) }
    requires faces { AreLedIds a.now (hierarchy w.old) w.old.nodes (type_at w.old key.now) faces.now }
    ensures ok { IfOk result (AreOpen a.now (hierarchy w.old) w.new.nodes (type_at w.old key.now)) }
    ensures stays { Stays w.old w.new }
{
    keys_keep_their_types();
    let mut opens = passed_on(alloc, a, w, notes, key, parent)?;
    let fresh = fresh_faces(alloc, &notes.faces, parent, opens.as_slice(), faces)?;
    open_faces(alloc, a, w, &notes.facts, key, fresh.as_slice(), &mut opens)?;
    open_itself(alloc, a, w, &notes.facts, key, &mut opens)?;
    Ok(opens)
}

/// The slots for which neither the parent nor the type itself has a method.
fn passed_on(
    alloc: Global,
    a: &Assembly,
    w: &mut World,
    notes: &Notes,
    key: &TypeKey,
    parent: Option<&TypeKey>,
) -> Result<Opens, NoMemory>
    requires key { key.now < length w.old.nodes }
    requires types { KnowsTypes a.now w.old.tables }
    requires knows { Knows a.now (hierarchy w.old) w.old.nodes notes.now }
    requires read { HasRead a.now (hierarchy w.old) w.old.nodes notes.now.facts (type_at w.old key.now) }
    requires parent { HasOption w.old.nodes (option_copied parent) (parent_type (hierarchy w.old) (type_at w.old key.now)) }
    requires checked { IsParentChecked notes.now (option_copied parent) }
    ensures ok { IfOk result (ArePassed a.now (hierarchy w.old) w.old.nodes (type_at w.old key.now) (option_copied parent.entry)) }
    ensures stays { Stays w.old w.new }
{
    match parent {
        Some(parent) => match noted(&notes.notes, parent) {
            Some(Note::Checked(opens)) => {
                still_open(alloc, a, w, &notes.facts, key, opens.as_slice())
            }
            Some(Note::Skipped) => Ok(Items::new(alloc)),
            None => Ok(Items::new(alloc)),
        },
        None => Ok(Items::new(alloc)),
    }
}

/// Adds the slots of the type itself, where it is an interface, for which it has no method.
fn open_itself(
    alloc: Global,
    a: &Assembly,
    w: &mut World,
    facts: &Facts,
    key: &TypeKey,
    opens: &mut Opens,
) -> Result<(), NoMemory>
    requires key { key.now < length w.old.nodes }
    requires types { KnowsTypes a.now w.old.tables }
    requires read { HasRead a.now (hierarchy w.old) w.old.nodes facts.now (type_at w.old key.now) }
    ensures ok { OnOk result (AddsItself a.now (hierarchy w.old) w.new.nodes (type_at w.old key.now) opens.old opens.new) }
    ensures stays { Stays w.old w.new }
{
    if is_face(alloc, a, w, key)? {
        open_slots(alloc, a, w, facts, key, key, opens)
    } else {
        Ok(())
    }
}

/// Adds the pairs of a type with each of the interfaces.
fn add_pairs(
    alloc: Global,
    pairs: &mut Facts,
    key: &TypeKey,
    faces: &[TypeKey],
) -> Result<(), NoMemory>
    ensures { OnOk result (AddsPairs key.now faces.now pairs.old pairs.new) }
{
    for face in faces {
        let pair = [key.id().place() as u64, face.id().place() as u64];
        pairs.add(alloc, &pair)?;
    }
    Ok(())
}
