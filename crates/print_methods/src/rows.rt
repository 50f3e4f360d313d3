//! The rows of parameters by their numbers (ECMA-335 II.22.33).
ghost use Rattle.std.specs.Prelude.{◌≡◌, ◌<◌, suc, length, slice_get, slice_set, IfOk, Some};
ghost use Rattle.std.specs.Option.{option_copied};
ghost use Rattle.listing_model.specs.Methods.{row_of};
ghost use Rattle.print_methods.specs.Tables.{IsTable, AreEmpty};

use assembly_tree::Param;
use il_lists::{Items, NoMemory};
use std::alloc::Global;

/// For each number up to `count` the place of the first row with it.
pub(crate) fn places_by_number(
    alloc: Global,
    rows: &[Param],
    count: usize,
) -> Result<Items<Option<usize>>, NoMemory>
    ensures counted { IfOk result (λ places. length places ≡ suc count) }
    ensures table { IfOk result (λ places. IsTable rows.now places) }
{
    let mut places = empty_places(alloc, count)?;
    let total = rows.len();
    for done in 0..total {
        let place = total - 1 - done;
        lead_to(&mut places, rows[place].number as usize, place);
    }
    Ok(places)
}

// Lets a number lead to the place of a row, if it is one of those that are counted.
#[tactic(auto, using(crate::proofs::Tables::set_past))]
fn lead_to(places: &mut Items<Option<usize>>, number: usize, place: usize)
    ensures { places.new ≡ slice_set places.old number (Some place) }
{
    if number < places.len() {
        places.set(number, Some(place));
    }
}

// Places for the numbers up to this one, all without a row.
fn empty_places(alloc: Global, count: usize) -> Result<Items<Option<usize>>, NoMemory>
    ensures counted { IfOk result (λ places. length places ≡ suc count) }
    ensures empty { IfOk result AreEmpty }
{
    let mut places = Items::with_capacity(alloc, count)?;
    for number in 0..count {
        places.push(None)?;
    }
    places.push(None)?;
    Ok(places)
}

/// The first row with this number, where there is one.
pub(crate) fn row_at<'a>(
    rows: &'a [Param],
    places: &Items<Option<usize>>,
    number: usize,
) -> Option<&'a Param>
    requires table { IsTable rows.now places.now }
    requires within { number < length places.now }
    ensures { option_copied result ≡ row_of rows.now number }
{
    match *places.at(number) {
        Some(place) => row_in(rows, place),
        None => None,
    }
}

// The row at a place, where there is one.
fn row_in(rows: &[Param], place: usize) -> Option<&Param>
    ensures { option_copied result ≡ slice_get rows.now place }
{
    if place < rows.len() {
        return Some(&rows[place]);
    }
    None
}
