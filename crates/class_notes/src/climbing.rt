//! The way up from a type to what is known, and back.
ghost use Rattle.std.specs.Prelude.{◌≡◌, ◌<◌, length, false, IsTrue, None, Some, slice_get, IfOk, IfNone, IfSome, OnOk};
ghost use Rattle.type_hierarchy.specs.Hierarchy.{parent};
ghost use Rattle.type_hierarchy.specs.Indexed.{KnowsTypes};
ghost use Rattle.type_hierarchy.specs.World.{hierarchy, type_at, Stays};
ghost use Rattle.class_notes.specs.Climbing.{IsTopOf};
ghost use Rattle.class_notes.specs.Cores.{IsCored};
ghost use Rattle.class_notes.specs.Notes.{IsNoted, Knows};
ghost use Rattle.class_notes.specs.declared.note.Note.{Note as TheNote};

use crate::making::make_note;
use crate::note::{Note, Notes, noted};
use assembly_tree::Assembly;
use il_lists::{Items, NoMemory};
use std::alloc::Global;
use type_order::types::World;
use type_order::{TypeKey, TypeKeys, keys_keep_their_types, parent_key};

/// Finds, of the key's type and of each ancestor of which it isn't known, whether it is checked and the slots for which it has
/// no method.
///
/// The key is one that this world gave. NoMemory where there is no memory.
pub fn find_note(
    alloc: Global,
    a: &Assembly,
    w: &mut World,
    notes: &mut Notes,
    key: &TypeKey,
) -> Result<(), NoMemory>
    requires key { key.now < length w.old.nodes }
    requires types { KnowsTypes a.now w.old.tables }
    requires core { IsCored (hierarchy w.old) }
    requires knows { Knows a.now (hierarchy w.old) w.old.nodes notes.old }
    ensures ok { OnOk result (Knows a.now (hierarchy w.old) w.new.nodes notes.new) }
    ensures there { OnOk result (IsNoted notes.new key.now) }
    ensures stays { Stays w.old w.new }
{
    keys_keep_their_types();
    let Ladder {
        mut keys,
        mut top,
        is_noted,
    } = climb(alloc, w, notes, key)?;
    note_top(alloc, a, w, notes, &top, is_noted)?;
    while let Some(below) = keys.pop() {
        make_note(alloc, a, w, notes, &below, Some(&top))?;
        top = below;
    }
    Ok(())
}

/// What is known of the key's type, where it was found.
pub fn note_of<'a>(notes: &'a Notes, key: &TypeKey) -> Option<&'a Note>
    ensures found { IfSome result (λ n. slice_get notes.now.notes key.now ≡ Some (Some n.now)) }
    ensures none { IfNone result ((n : TheNote) → slice_get notes.now.notes key.now ≡ Some (Some n) → ⊥) }
{
    noted(&notes.notes, key)
}

/// The way up from a type.
#[derive(Drop)]
pub struct Ladder {
    /// The type and its ancestors below the top.
    pub keys: TypeKeys,
    /// The first of them that is known, or else the last.
    pub top: TypeKey,
    /// Whether it is known.
    pub is_noted: bool,
}

/// Whether something is known of the key's type.
fn is_noted(notes: &Notes, key: &TypeKey) -> bool
    ensures { IsTrue result → IsNoted notes.now key.now }
{
    match noted(&notes.notes, key) {
        Some(_) => true,
        None => false,
    }
}

/// The way up from the key's type to the first that is known, or else to the last.
fn climb(alloc: Global, w: &mut World, notes: &Notes, key: &TypeKey) -> Result<Ladder, NoMemory>
    requires key { key.now < length w.old.nodes }
    ensures ok { IfOk result (IsTopOf (hierarchy w.old) w.new.nodes notes.now key.now) }
    ensures stays { Stays w.old w.new }
{
    keys_keep_their_types();
    let mut keys = Items::new(alloc);
    let mut top = *key;
    'climb: for _ in 0..u64::MAX {
        if is_noted(notes, &top) {
            return Ok(Ladder {
                keys,
                top,
                is_noted: true,
            });
        }
        match parent_key(w, &top)? {
            Some(parent) => {
                keys.push(top)?;
                top = parent;
            }
            None => {
                return Ok(Ladder {
                    keys,
                    top,
                    is_noted: false,
                });
            }
        }
    }
    // No memory holds so many keys.
    Err(NoMemory)
}

/// Finds what is known of the top, where that isn't known.
fn note_top(
    alloc: Global,
    a: &Assembly,
    w: &mut World,
    notes: &mut Notes,
    top: &TypeKey,
    is_noted: bool,
) -> Result<(), NoMemory>
    requires key { top.now < length w.old.nodes }
    requires types { KnowsTypes a.now w.old.tables }
    requires core { IsCored (hierarchy w.old) }
    requires knows { Knows a.now (hierarchy w.old) w.old.nodes notes.old }
    requires noted { IsTrue is_noted → IsNoted notes.old top.now }
    requires last { is_noted ≡ false → parent (hierarchy w.old) (type_at w.old top.now) ≡ None }
    ensures ok { OnOk result (Knows a.now (hierarchy w.old) w.new.nodes notes.new) }
    ensures there { OnOk result (IsNoted notes.new top.now) }
    ensures stays { Stays w.old w.new }
{
    if is_noted {
        return Ok(());
    }
    make_note(alloc, a, w, notes, top, None)
}
