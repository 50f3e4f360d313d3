ghost use Rattle.std.specs.Prelude.{◌≡◌, slice_get, Some, IfSome, IfNone, OnOk};
ghost use Rattle.type_order.specs.Found.{Puts};
ghost use Rattle.class_notes.specs.Notes.{none_noted};
ghost use Rattle.class_notes.specs.declared.note.Note.{Note as TheNote};

use class_members::Facts;
use il_lists::{Items, NoMemory};
use std::alloc::Global;
use type_order::TypeKey;

/// A slot of an interface: the place of the method among those of the interface.
#[derive(Clone, Copy, Drop)]
pub struct Open {
    pub face: TypeKey,
    pub place: usize,
}

/// Slots.
pub type Opens = Items<Open>;

/// What is known of a type.
#[derive(Drop)]
pub enum Note {
    /// It or an ancestor isn't known.
    Skipped,
    /// It and all ancestors are known; these are the slots of its interfaces for which it has no method.
    Checked(Opens),
}

/// What is known of types.
#[derive(Drop)]
pub struct Notes {
    /// What types offer.
    pub(crate) facts: Facts,
    /// Pairs of a type and an interface that it has, by ids.
    pub(crate) faces: Facts,
    /// At the places of their ids.
    pub(crate) notes: Items<Option<Note>>,
}

impl Notes {
    /// Nothing yet. Takes no memory.
    pub fn new(alloc: Global) -> Notes
        ensures { result ≡ none_noted }
    {
        Notes {
            facts: Facts::new(alloc),
            faces: Facts::new(alloc),
            notes: Items::new(alloc),
        }
    }
}

/// What is known of a type.
pub(crate) fn noted<'a>(notes: &'a Items<Option<Note>>, key: &TypeKey) -> Option<&'a Note>
    ensures found { IfSome result (λ n. slice_get notes.now key.now ≡ Some (Some n.now)) }
    ensures none { IfNone result ((n : TheNote) → slice_get notes.now key.now ≡ Some (Some n) → ⊥) }
{
    match notes.get(key.id().place()) {
        Some(Some(note)) => Some(note),
        Some(None) => None,
        None => None,
    }
}

/// Keeps what is known of a type.
pub(crate) fn put(
    notes: &mut Items<Option<Note>>,
    key: &TypeKey,
    note: Note,
) -> Result<(), NoMemory>
    ensures puts { Puts notes.old notes.new key.now note }
    ensures there { OnOk result (slice_get notes.new key.now ≡ Some (Some note)) }
{
    put_at(notes, key.id().place(), note)
}

/// Puts an item at a place.
#[tactic(auto, using(type_order::proofs::FoundLemmas::push_none, type_order::proofs::FoundLemmas::puts))]
fn put_at<X: Drop>(list: &mut Items<Option<X>>, place: usize, item: X) -> Result<(), NoMemory>
    ensures puts { Puts list.old list.new place item }
    ensures there { OnOk result (slice_get list.new place ≡ Some (Some item)) }
{
    while list.len() <= place {
        list.push(None)?;
    }
    list.set(place, Some(item));
    Ok(())
}
