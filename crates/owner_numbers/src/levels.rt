ghost use Rattle.std.specs.Prelude.{◌≡◌, ◌≤◌, ◌<◌, ◌↔◌, ◌^◌, ℕ, IsTrue, Some};
ghost use Rattle.image_model.specs.Rows.{HasRow};
ghost use Rattle.image_model.specs.Columns.{type_spec_signature};
ghost use Rattle.owner_numbers.specs.Terms.{spec_count, level_at, hash_at};

use image_streams::Image;
use signature_facts::Owners;

/// The rows that a token can name: those whose number has three bytes.
const TOKENS: u32 = 0x00FF_FFFF;

/// The token of the first row of TypeSpec, less one.
const TYPE_SPEC: u32 = 0x1B00_0000;

/// How many rows of TypeSpec have a token.
pub(crate) fn spec_count(image: &Image<'_>) -> u32
    ensures { result ≡ spec_count image.now }
{
    image.tables().rows(0x1B).min(TOKENS)
}

/// Whether the type of a row of TypeSpec is so deep.
pub(crate) fn has_level<F: Owners>(facts: &F, row: u32, level: u32) -> bool
    requires { row < 2 ^ 24 }
    ensures { IsTrue result ↔ (level_at (F.facts facts.now) row ≡ Some level) }
{
    match facts.facts_of(TYPE_SPEC + row) {
        Some(of) => of.facts.depth == level,
        None => false,
    }
}

/// How deep the type of a row of TypeSpec is, or 0 where it has none.
fn depth_of<F: Owners>(facts: &F, row: u32) -> u32
    requires { row < 2 ^ 24 }
    ensures { (d : ℕ) → level_at (F.facts facts.now) row ≡ Some d → d ≤ result }
{
    match facts.facts_of(TYPE_SPEC + row) {
        Some(of) => of.facts.depth,
        None => 0,
    }
}

/// The hash of the type of a row of TypeSpec, or 0 where it has none.
pub(crate) fn hash_at<F: Owners>(facts: &F, row: u32) -> u64
    requires { row < 2 ^ 24 }
    ensures { result ≡ hash_at (F.facts facts.now) row }
{
    match facts.facts_of(TYPE_SPEC + row) {
        Some(of) => of.facts.hash,
        None => 0,
    }
}

/// How deep the deepest type of so many rows of TypeSpec is.
pub(crate) fn deepest<F: Owners>(facts: &F, count: u32) -> u32
    requires { count < 2 ^ 24 }
    ensures { (row d : ℕ) → 0 < row → row ≤ count → level_at (F.facts facts.now) row ≡ Some d → d ≤ result }
{
    let mut deepest = 0;
    for k in 0..count {
        deepest = depth_of(facts, k + 1).max(deepest);
    }
    deepest
}

/// The index of the signature of a row of TypeSpec.
#[tactic(auto, unfolding(metadata_tables::specs::Schema::schema))]
pub(crate) fn index_of(image: &Image<'_>, row: u32) -> u32
    requires { HasRow image.now 0x1B row }
    ensures { result ≡ type_spec_signature image.now row }
{
    image.tables().cell(0x1B, row, 0)
}
