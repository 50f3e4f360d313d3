ghost use Rattle.std.specs.Prelude.{◌≡◌, ◌≤◌, ◌<◌, ◌+◌, ◌^◌, ℕ, IfOk, OnOk, Some, length, slice_get};
ghost use Rattle.image_model.specs.Columns.{type_spec_signature};
ghost use Rattle.image_model.specs.Rows.{HasRow};
ghost use Rattle.spec_facts.specs.Rounds.{ArePlaced, ArePlaces};

use hash_places::HashPlaces;
use il_base::{Items, NoMemory, Numbers};
use image_streams::Image;
use std::alloc::Global;

/// The blobs of TypeSpec rows, each once.
#[derive(Drop)]
pub(crate) struct Distinct {
    /// Of each row, from row 1 on, the place of its blob.
    pub places: Numbers,
    /// Of each place the index of its blob.
    pub heads: Numbers,
}

/// The blobs of the TypeSpec rows of an image.
pub(crate) fn placed_blobs(alloc: Global, image: &Image<'_>) -> Result<Distinct, NoMemory>
    ensures { IfOk result (λ d. ArePlaces image.now d.places d.heads) }
{
    let count = image.tables().rows(0x1B);
    let mut newest = HashPlaces::new(alloc);
    let mut places = Items::new(alloc);
    let mut heads = Items::new(alloc);
    for row in 0..count {
        let index = index_of(image, row + 1);
        let place = place_of(&mut newest, &mut heads, index)?;
        places.push(place)?;
    }
    Ok(Distinct { places, heads })
}

/// The index of the blob of a row.
#[tactic(auto, unfolding(metadata_tables::specs::Schema::schema))]
fn index_of(image: &Image<'_>, row: u32) -> u32
    requires { HasRow image.now 0x1B row }
    ensures { result ≡ type_spec_signature image.now row }
{
    image.tables().cell(0x1B, row, 0)
}

/// The place of a blob, which is put behind the others where it isn't there.
fn place_of(newest: &mut HashPlaces, heads: &mut Numbers, index: u32) -> Result<u32, NoMemory>
    requires few { length heads.old < 2 ^ 32 }
    requires places { ArePlaced newest.old heads.old }
    ensures placed { OnOk result (ArePlaced newest.new heads.new) }
    ensures there { IfOk result (λ place. slice_get heads.new place ≡ Some index) }
    ensures stays { (place head : ℕ) → slice_get heads.old place ≡ Some head → slice_get heads.new place ≡ Some head }
    ensures one { length heads.new ≤ length heads.old + 1 }
{
    let hash = u64::from(index);
    if let Some(place) = newest.get(hash) {
        return Ok(place as u32);
    }
    let place = heads.len();
    heads.push(index)?;
    newest.insert(hash, place)?;
    Ok(place as u32)
}
