//! Methods with few labels, which are found by a hash of their names in a table of 64 slots: no text is made of them, and no memory
//! is asked for. Where two share a slot, or a name may have quotes, nothing is said (ECMA-335 II.5.4, II.15.4.1, III.1.7.2).

ghost use Rattle.std.specs.Prelude.{◌≡◌, ◌<◌, ◌≤◌, List, bytes_eq, false, get_or, length, nat_le, slice_set, true, None};
ghost use Rattle.std.specs.List.{flat_map, list_all, list_any};
ghost use Rattle.il_lexer.specs.declared.types.TokenKind.TheVariants.{Name};
ghost use Rattle.source_model.specs.BodyFaults.{is_same_name};
ghost use Rattle.source_model.specs.DeclaredTwice.{repeats};
ghost use Rattle.source_model.specs.Forest.{Part, preorder};
ghost use Rattle.source_model.specs.Instructions.{targets};
ghost use Rattle.source_model.specs.Source.{Source};
ghost use Rattle.source_model.specs.Values.{name_text};
ghost use Rattle.source_nodes.specs.Least.{least};
ghost use Rattle.source_syntax.specs.Methods.{AreNames};
ghost use Rattle.source_nodes.specs.Pieces.{ArePieces, AreParts};
ghost use Rattle.source_nodes.specs.Readers.{IsOf, Reads};
ghost use Rattle.source_nodes.specs.Walk.{IsForest};
ghost use Rattle.check_bodies.specs.KnownNames.{is_label_of, is_past, slot_of};

use ilasm_grammar::{TreeNode, productions};
use source_nodes::equality::are_equal;
use source_nodes::hashes::text_hash;
use source_nodes::pieces::{Piece, nodes_of};
use source_nodes::reader::Reader;
use source_nodes::walk::{first_token, leaf_at};

// How many labels are found so. Eight names have slots of their own in about two of three methods; of more some mostly share one.
const FEW: usize = 8;

// How many slots the table has. A slot holds one more than the place of the label whose name has it, or 0 where none has.
const SLOTS: usize = 64;

/// Whether these labels are few, each has a name of its own, an instruction follows each, and each name that an instruction
/// branches to is one of theirs. Of names that may have quotes this isn't said.
pub fn are_known(reader: &Reader, nodes: &[TreeNode], code: &[Piece], labels: &[u32]) -> bool
    requires { AreParts nodes.now code.now }
    ensures once { (s : Source) → Reads reader.now s → AreNames s labels.now → result ≡ true → None ≡ least (repeats (is_same_name s) labels.now) }
    ensures followed { (ps : List Part) → ArePieces nodes.now code.now ps → result ≡ true → list_any (is_past ps) labels.now ≡ false }
    ensures declared { (s : Source) (ps : List Part) → Reads reader.now s → AreNames s labels.now → ArePieces nodes.now code.now ps → AreNames s (flat_map targets ps) → result ≡ true →
        list_all (is_label_of s labels.now) (flat_map targets ps) ≡ true }
{
    if labels.len() > FEW {
        return false;
    }
    let mut slots = [0; SLOTS];
    if !are_distinct(reader, labels, &mut slots) {
        return false;
    }
    if !are_followed(nodes, code, labels) {
        return false;
    }
    all_lead_to(reader, nodes, code, labels, &slots)
}

// Gives each of these labels its slot, and says whether each surely has a name of its own.
fn are_distinct(reader: &Reader, labels: &[u32], slots: &mut [u8; SLOTS]) -> bool
    requires { length labels.now ≤ 8 }
    ensures { (s : Source) → Reads reader.now s → AreNames s labels.now → result ≡ true → None ≡ least (repeats (is_same_name s) labels.now) }
{
    let mut k = 0;
    while k < labels.len() {
        if !take_slot(reader, labels[k], k as u8 + 1, slots) {
            return false;
        }
        k += 1;
    }
    true
}

// Gives a label's name its slot, and says whether that was surely free.
fn take_slot(reader: &Reader, token: u32, number: u8, slots: &mut [u8; SLOTS]) -> bool
    ensures free { (s : Source) → Reads reader.now s → IsOf s Name token → result ≡ true → get_or slots.old (slot_of (name_text s token)) 0 ≡ 0 }
    ensures taken { (s : Source) → Reads reader.now s → IsOf s Name token → result ≡ true → slots.new ≡ slice_set slots.old (slot_of (name_text s token)) number }
{
    match reader.plain_name(token) {
        Some(name) => fill(slots, slot_of(name), number),
        None => false,
    }
}

// Puts a number into a slot if that is free, and says whether it was.
fn fill(slots: &mut [u8; SLOTS], slot: usize, number: u8) -> bool
    requires { slot < 64 }
    ensures free { result ≡ true → get_or slots.old slot 0 ≡ 0 }
    ensures taken { result ≡ true → slots.new ≡ slice_set slots.old slot number }
{
    if slots[slot] != 0 {
        return false;
    }
    slots[slot] = number;
    true
}

// The slot of a name: its hash, with the high half mixed into the low bits.
#[tactic(auto, unfolding(crate::specs::KnownNames::slot_of))]
fn slot_of(name: &[u8]) -> usize
    ensures within { result < 64 }
    ensures slot { result ≡ slot_of name.now }
{
    let hash = text_hash(name);
    ((hash ^ (hash >> 32)) % 64) as usize
}

// Whether an instruction follows each of these labels.
fn are_followed(nodes: &[TreeNode], code: &[Piece], labels: &[u32]) -> bool
    requires { AreParts nodes.now code.now }
    ensures { (ps : List Part) → ArePieces nodes.now code.now ps → result ≡ true → list_any (is_past ps) labels.now ≡ false }
{
    if code.is_empty() {
        return labels.is_empty();
    }
    let start = first_token(nodes_of(nodes, code[code.len() - 1]));
    are_up_to(labels, start)
}

// Whether none of these numbers is greater than another.
fn are_up_to(tokens: &[u32], most: u32) -> bool
    ensures { result ≡ list_all (λ k. nat_le k most) tokens.now }
{
    tokens.iter().all(|token| *token <= most)
}

// Whether each name that these instructions branch to is surely that of a label.
fn all_lead_to(
    reader: &Reader,
    nodes: &[TreeNode],
    code: &[Piece],
    labels: &[u32],
    slots: &[u8; SLOTS],
) -> bool
    requires { AreParts nodes.now code.now }
    ensures { (s : Source) (ps : List Part) → Reads reader.now s → AreNames s labels.now → ArePieces nodes.now code.now ps → AreNames s (flat_map targets ps) → result ≡ true →
        list_all (is_label_of s labels.now) (flat_map targets ps) ≡ true }
{
    let mut k = 0;
    while k < code.len() {
        let piece = code[k];
        let below = nodes_of(nodes, piece);
        if !leads_to(reader, piece.production, below, labels, slots) {
            return false;
        }
        k += 1;
    }
    true
}

// Whether an instruction surely branches to nothing but these labels. Of `switch` this isn't said.
fn leads_to(
    reader: &Reader,
    production: u16,
    below: &[TreeNode],
    labels: &[u32],
    slots: &[u8; SLOTS],
) -> bool
    requires { IsForest below.now }
    ensures { (s : Source) (p : Part) → Reads reader.now s → AreNames s labels.now → p.production ≡ production → preorder p.below ≡ below.now → AreNames s (targets p) → result ≡ true →
        list_all (is_label_of s labels.now) (targets p) ≡ true }
{
    match production {
        productions::INSTRUCTION_OP_BRANCH => is_label(reader, leaf_at(below, 0), labels, slots),
        productions::INSTRUCTION_SWITCH => false,
        _ => true,
    }
}

// Whether a name is surely that of a label.
fn is_label(reader: &Reader, token: u32, labels: &[u32], slots: &[u8; SLOTS]) -> bool
    ensures { (s : Source) → Reads reader.now s → AreNames s labels.now → IsOf s Name token → result ≡ true → is_label_of s labels.now token ≡ true }
{
    match reader.plain_name(token) {
        Some(name) => is_numbered(reader, slots[slot_of(name)], labels, name),
        None => false,
    }
}

// Whether a text is surely the name that this number is one more than the place of.
fn is_numbered(reader: &Reader, number: u8, tokens: &[u32], text: &[u8]) -> bool
    ensures { (s : Source) → Reads reader.now s → AreNames s tokens.now → result ≡ true → list_any (λ k. bytes_eq text.now (name_text s k)) tokens.now ≡ true }
{
    let after = usize::from(number);
    if after == 0 || after > tokens.len() {
        return false;
    }
    is_spelled(reader, tokens[after - 1], text)
}

// Whether a name is surely this text.
fn is_spelled(reader: &Reader, token: u32, text: &[u8]) -> bool
    ensures { (s : Source) → Reads reader.now s → IsOf s Name token → result ≡ true → bytes_eq text.now (name_text s token) ≡ true }
{
    match reader.plain_name(token) {
        Some(name) => are_equal(text, name),
        None => false,
    }
}
