//! Few labels of a method, which are found by a hash of their names in a table of 64 slots: no text is made of them, and no memory
//! is asked for (ECMA-335 II.5.4, II.15.4.1).

ghost use Rattle.std.specs.Prelude.{◌≡◌, ◌<◌, get_or, replicate, slice_set, true};
ghost use Rattle.lower_bodies.specs.LabelSlots.{HaveSlots, slot_of};
ghost use Rattle.il_lexer.specs.declared.types.TokenKind.TheVariants.{Name};
ghost use Rattle.source_model.specs.Source.{Source};
ghost use Rattle.source_model.specs.Values.{name_text};
ghost use Rattle.source_syntax.specs.Methods.{AreNames};
ghost use Rattle.source_nodes.specs.Readers.{IsOf, Reads};

use source_nodes::hashes::text_hash;
use source_nodes::reader::Reader;

// How many labels are found so. Eight names have slots of their own in about two of three methods; of more some mostly share one.
const FEW: usize = 8;

/// How many slots the table has. A slot holds one more than the place of the label whose name has it, or 0 where none has.
pub const SLOTS: usize = 64;

/// Gives each of these labels its slot in an empty table, and says whether they are few and each has a slot of its own. Of names
/// that may have quotes this isn't said.
pub fn give_slots(reader: &Reader, labels: &[u32], slots: &mut [u8; SLOTS]) -> bool
    requires { slots.old ≡ replicate 64 0 }
    ensures { (s : Source) → Reads reader.now s → AreNames s labels.now → result ≡ true → HaveSlots slots.new s labels.now }
{
    if labels.len() > FEW {
        return false;
    }
    let mut k = 0;
    while k < labels.len() {
        if !take_slot(reader, labels[k], k as u8 + 1, slots) {
            return false;
        }
        k += 1;
    }
    true
}

// Gives a label's name its slot, and says whether that was surely free.
fn take_slot(reader: &Reader, token: u32, number: u8, slots: &mut [u8; SLOTS]) -> bool
    ensures free { (s : Source) → Reads reader.now s → IsOf s Name token → result ≡ true → get_or slots.old (slot_of (name_text s token)) 0 ≡ 0 }
    ensures taken { (s : Source) → Reads reader.now s → IsOf s Name token → result ≡ true → slots.new ≡ slice_set slots.old (slot_of (name_text s token)) number }
{
    match reader.plain_name(token) {
        Some(name) => fill(slots, slot_of(name), number),
        None => false,
    }
}

// Puts a number into a slot if that is free, and says whether it was.
fn fill(slots: &mut [u8; SLOTS], slot: usize, number: u8) -> bool
    requires { slot < 64 }
    ensures free { result ≡ true → get_or slots.old slot 0 ≡ 0 }
    ensures taken { result ≡ true → slots.new ≡ slice_set slots.old slot number }
{
    if slots[slot] != 0 {
        return false;
    }
    slots[slot] = number;
    true
}

/// What the slot of a name holds.
pub fn number_in(slots: &[u8; SLOTS], name: &[u8]) -> u8
    ensures { result ≡ get_or slots.now (slot_of name.now) 0 }
{
    slots[slot_of(name)]
}

// The slot of a name: its hash, with the high half mixed into the low bits.
#[tactic(auto, unfolding(crate::specs::LabelSlots::slot_of))]
fn slot_of(name: &[u8]) -> usize
    ensures within { result < 64 }
    ensures slot { result ≡ slot_of name.now }
{
    let hash = text_hash(name);
    ((hash ^ (hash >> 32)) % 64) as usize
}
