ghost use Rattle.std.specs.Prelude.{◌≡◌, ◌≤◌, ◌-◌, ◌^◌, IfOk, length, map, slice_index};
ghost use Rattle.told_weights.specs.Fresh.{NumberTypes};
ghost use Rattle.twin_numbers.specs.Numbered.{NumberTwins};
ghost use Rattle.interface_numbers.specs.Known.{AreKnown, CanNumber, SameType};
ghost use Rattle.interface_numbers.specs.Places.{AreHeads};

use crate::alike::{Interfaces, row_at};
use crate::places::placed_rows;
use heaps::{blob_is_computed, one_content_at_an_index};
use il_base::{Items, NoMemory, Numbers};
use image_model::tokens_name_one_thing;
use image_streams::Image;
use sig_codec::read_is_spelled;
use signature_equality::Numbering;
use signature_facts::Owners;
use std::alloc::Global;
use twin_numbers::number_twins;

/// Numbers for the rows of InterfaceImpl, and one for row 0 besides, by facts of what tokens name and a test that tells tokens that
/// name the same. Each row is looked at once, and each signature that rows name is compared with those that have its hash.
///
/// # Errors
///
/// There was no memory for them.
pub fn number_interfaces<O: Owners, N: Numbering>(
    alloc: Global,
    image: &Image<'_>,
    facts: &O,
    numbers: &N,
) -> Result<Numbers, NoMemory>
    requires { CanNumber image.now (O.facts facts.now) (N.canon numbers.now) }
    ensures { IfOk result (λ numbers. NumberTypes image.now numbers) }
{
    one_content_at_an_index();
    read_is_spelled();
    numbered(alloc, image, facts, numbers)
}

/// The same, by what is known of the rows.
fn numbered<O: Owners, N: Numbering>(
    alloc: Global,
    image: &Image<'_>,
    facts: &O,
    numbers: &N,
) -> Result<Numbers, NoMemory>
    requires { AreKnown image.now (O.facts facts.now) (N.canon numbers.now) }
    ensures { IfOk result (λ numbers. NumberTypes image.now numbers) }
{
    tokens_name_one_thing();
    blob_is_computed();
    let placed = placed_rows(alloc, image)?;
    let heads = placed.heads.as_slice();
    let twins = twins_of(alloc, image, facts, numbers, heads)?;
    let found = numbers_at(alloc, placed.places.as_slice(), twins.as_slice())?;
    Ok(found)
}

/// Numbers for the first rows of the groups.
fn twins_of<O: Owners, N: Numbering>(
    alloc: Global,
    image: &Image<'_>,
    facts: &O,
    numbers: &N,
    heads: &[u32],
) -> Result<Numbers, NoMemory>
    requires known { AreKnown image.now (O.facts facts.now) (N.canon numbers.now) }
    requires few { length heads.now ≤ 2 ^ 32 }
    requires heads { AreHeads image.now (length heads.now - 1) heads.now }
    ensures { IfOk result (λ twins. NumberTwins (length heads.now - 1) (λ one other. SameType image.now (slice_index heads.now one) (slice_index heads.now other)) twins) }
{
    blob_is_computed();
    let rows = Interfaces {
        image,
        facts,
        numbers,
        heads,
        count: heads.len().saturating_sub(1) as u32,
    };
    number_twins(alloc, &rows)
}

/// The number of each row's group.
fn numbers_at(alloc: Global, places: &[u32], twins: &[u32]) -> Result<Numbers, NoMemory>
    ensures { IfOk result (λ numbers. numbers ≡ map (λ place. slice_index twins.now place) places.now) }
{
    let mut numbers = Items::new(alloc);
    for place in places {
        numbers.push(row_at(twins, *place))?;
    }
    Ok(numbers)
}
