ghost use Rattle.std.specs.Prelude.{◌≡◌, ◌≤◌, ◌<◌, ◌+◌, ◌^◌, ℕ, IfOk, OnOk, length, slice_index};
ghost use Rattle.image_model.specs.Rows.{count_of, HasRow};
ghost use Rattle.interface_numbers.specs.Rows.{NameTypes};
ghost use Rattle.interface_numbers.specs.Places.{AreFound, IsPlace, ArePlaced};

use crate::rows::key_of;
use hash_places::HashPlaces;
use il_base::{Items, NoMemory, Numbers};
use image_streams::Image;
use std::alloc::Global;

/// The rows of a table, in groups of those that have one key.
#[derive(Drop)]
pub(crate) struct Placed {
    /// Of each row the place of its group; that of row 0 counts for nothing.
    pub(crate) places: Numbers,
    /// At each place the first row of the group; at place 0 there is none.
    pub(crate) heads: Numbers,
}

/// The rows of InterfaceImpl in groups.
pub(crate) fn placed_rows(alloc: Global, image: &Image<'_>) -> Result<Placed, NoMemory>
    requires { NameTypes image.now }
    ensures placed { IfOk result (λ it. ArePlaced image.now (count_of image.now 0x09) it.places it.heads) }
    ensures few { IfOk result (λ it. length it.heads ≤ 2 ^ 32) }
{
    let mut newest = HashPlaces::new(alloc);
    let mut places = Items::one(alloc, 0)?;
    let mut heads = Items::one(alloc, 0)?;
    for k in 0..image.tables().rows(0x09) {
        let place = place_of(image, &mut newest, &mut heads, k + 1)?;
        places.push(place)?;
    }
    Ok(Placed { places, heads })
}

/// The place of a row's group, which is put behind the others where it is new.
fn place_of(
    image: &Image<'_>,
    newest: &mut HashPlaces,
    heads: &mut Numbers,
    row: u32,
) -> Result<u32, NoMemory>
    requires there { HasRow image.now 0x09 row }
    requires types { NameTypes image.now }
    requires few { length heads.old ≤ row }
    requires found { AreFound image.now newest.old heads.old }
    ensures found { OnOk result (AreFound image.now newest.new heads.new) }
    ensures place { IfOk result (λ place. IsPlace image.now heads.new row place) }
    ensures stay { (p : ℕ) → p < length heads.old → slice_index heads.new p ≡ slice_index heads.old p }
    ensures more { length heads.old ≤ length heads.new }
    ensures one { length heads.new ≤ length heads.old + 1 }
{
    let key = key_of(image, row);
    if let Some(place) = newest.get(key) {
        return Ok(place as u32);
    }
    let place = heads.len();
    heads.push(row)?;
    newest.insert(key, place)?;
    Ok(place as u32)
}
