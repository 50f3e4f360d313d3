ghost use Rattle.std.specs.Prelude.{◌≡◌, ◌↔◌, ℕ, List, Some, IsTrue, option_map, slice_index};
ghost use Rattle.heaps.specs.LookUp.{blob_in};
ghost use Rattle.image_model.specs.Columns.{type_spec_signature};
ghost use Rattle.image_model.specs.Rows.{HasRow};
ghost use Rattle.image_model.specs.Streams.{blobs_of};
ghost use Rattle.interface_numbers.specs.Known.{AreKnown, SameType, HaveOneTerm};
ghost use Rattle.interface_numbers.specs.Hashes.{HasHash, spec_hash, name_hash};

use crate::rows::{signature_of, token_of, type_of};
use heaps::{blob_at, blob_is_computed};
use image_streams::Image;
use row_twins::Likeness;
use signature_equality::{Numbering, same_type};
use signature_facts::{Owners, scan_type};

/// Rows of InterfaceImpl by their places; they are alike where they name one type.
#[derive(Drop)]
pub(crate) struct Interfaces<'k, 'a, O: Owners, N: Numbering> {
    pub(crate) image: &'k Image<'a>,
    pub(crate) facts: &'k O,
    pub(crate) numbers: &'k N,
    /// The rows; that at place 0 counts for nothing.
    pub(crate) heads: &'k [u32],
    /// How many there are.
    pub(crate) count: u32,
}

impl<'k, 'a, O: Owners, N: Numbering> Likeness for Interfaces<'k, 'a, O, N> {
    ghost use Rattle.std.specs.Prelude.{slice_index};
    ghost use Rattle.interface_numbers.specs.Known.{AreKnown, SameType};
    ghost use Rattle.interface_numbers.specs.Places.{AreHeads};
    ghost use Rattle.interface_numbers.specs.Hashes.{HasHash};

    ghost ready = { λ it. AreKnown it.image.now (O.facts it.facts.now) (N.canon it.numbers.now) × AreHeads it.image.now it.count it.heads.now };

    ghost rows = { λ it. it.count };

    ghost alike = { λ it one other. SameType it.image.now (slice_index it.heads.now one) (slice_index it.heads.now other) };

    ghost hashed = { λ it row hash. HasHash it.image.now (O.facts it.facts.now) (slice_index it.heads.now row) hash };

    fn count(&self) -> u32 {
        self.count
    }

    fn hash_of(&self, row: u32) -> u64 {
        hash_of(
            self.image,
            self.facts,
            self.numbers,
            row_at(self.heads, row),
        )
    }

    fn are_alike(&self, one: u32, other: u32) -> bool {
        are_alike(
            self.image,
            self.facts,
            self.numbers,
            row_at(self.heads, one),
            row_at(self.heads, other),
        )
    }

    fn alike_are_hashed_alike(&self) {
        blob_is_computed();
    }
}

/// The number at a place, or 0 past the end.
pub(crate) fn row_at(rows: &[u32], at: u32) -> u32
    ensures { result ≡ slice_index rows.now at }
{
    match rows.get(at as usize) {
        Some(row) => *row,
        None => 0,
    }
}

/// The hash of the type that a row names; `_numbers` tell tokens that name the same.
fn hash_of<O: Owners, N: Numbering>(image: &Image<'_>, facts: &O, _numbers: &N, row: u32) -> u64
    requires there { HasRow image.now 0x09 row }
    requires known { AreKnown image.now (O.facts facts.now) (N.canon _numbers.now) }
    ensures { HasHash image.now (O.facts facts.now) row result }
{
    let (table, of) = type_of(image, row);
    if table == 0x1B {
        return spec_hash(image, facts, signature_of(image, of));
    }
    name_hash(facts, token_of(table, of))
}

/// The hash of the type that the blob at an index spells; 0 where it spells none.
#[tactic(auto, unfolding(crate::specs::Hashes::spec_hash))]
fn spec_hash<O: Owners>(image: &Image<'_>, facts: &O, index: u32) -> u64
    ensures { result ≡ spec_hash image.now (O.facts facts.now) index }
{
    match blob_in(image, index) {
        None => 0,
        Some(blob) => match scan_type(blob, facts) {
            None => 0,
            Some(of) => of.hash,
        },
    }
}

/// The hash of what a token names; 0 where it names nothing.
fn name_hash<O: Owners>(facts: &O, token: u32) -> u64
    ensures { result ≡ name_hash (O.facts facts.now) token }
{
    match facts.facts_of(token) {
        None => 0,
        Some(of) => of.facts.hash,
    }
}

/// Whether two rows name one type.
fn are_alike<O: Owners, N: Numbering>(
    image: &Image<'_>,
    _facts: &O,
    numbers: &N,
    one: u32,
    other: u32,
) -> bool
    requires one { HasRow image.now 0x09 one }
    requires other { HasRow image.now 0x09 other }
    requires known { AreKnown image.now (O.facts _facts.now) (N.canon numbers.now) }
    ensures { IsTrue result ↔ SameType image.now one other }
{
    blob_is_computed();
    let (table, of) = type_of(image, one);
    let (other_table, to) = type_of(image, other);
    if table == 0x1B {
        if other_table == 0x1B {
            return are_equal(image, numbers, of, to);
        }
        return false;
    }
    if other_table == 0x1B {
        return false;
    }
    numbers.is_same(token_of(table, of), token_of(other_table, to))
}

/// Whether two rows of TypeSpec have one term.
fn are_equal<N: Numbering>(image: &Image<'_>, numbers: &N, one: u32, other: u32) -> bool
    requires one { HasRow image.now 0x1B one }
    requires other { HasRow image.now 0x1B other }
    ensures { HaveOneTerm image.now (N.canon numbers.now) one other result }
{
    let a = blob_of(image, one);
    let b = blob_of(image, other);
    same_type(numbers, a, b)
}

/// The signature of a row of TypeSpec, where it has one.
fn blob_of<'a>(image: &Image<'a>, row: u32) -> &'a [u8]
    requires { HasRow image.now 0x1B row }
    ensures { (bytes : List ℕ) → blob_in (blobs_of image.now) (type_spec_signature image.now row) ≡ Some bytes → result.now ≡ bytes }
{
    match blob_in(image, signature_of(image, row)) {
        Some(blob) => blob,
        None => image.blobs(),
    }
}

/// The blob at an index, if one stands there.
fn blob_in<'a>(image: &Image<'a>, index: u32) -> Option<&'a [u8]>
    ensures { option_map (λ blob. blob.now) result ≡ blob_in (blobs_of image.now) index }
{
    blob_is_computed();
    match blob_at(image.blobs(), index) {
        Some(blob) => Some(blob),
        None => None,
    }
}
