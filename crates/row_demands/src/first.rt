ghost use Rattle.std.specs.Prelude.{◌≡◌, ◌<◌, ℕ, IfOk, IfSome, IfNone, MatchOption};
ghost use Rattle.demand_search.specs.Search.{IsFirstBad};
ghost use Rattle.image_model.specs.Cells.{HasIndexes, HasEntries};
ghost use Rattle.image_model.specs.Faults.{IsImageFault};
ghost use Rattle.image_model.specs.Rows.{HasRow};
ghost use Rattle.image_model.specs.Streams.{strings_of};
ghost use Rattle.image_model.specs.Structure.{HasManifest, HasRuns, IsSorted};
ghost use Rattle.image_model.specs.declared.place.Place.TheVariants.{Row};
ghost use Rattle.row_demands.specs.Structured.{MeetStructure};

use crate::{Entries, Indexes, Manifest, Order, Runs, has_entry};
use demand_search::first_bad;
use il_base::NoMemory;
use image_model::Place;
use image_streams::{Image, Unmet};
use std::alloc::Global;
use text_places::TextPlaces;

/// The first of the demands I8 to I12 that an opened image fails, with its place; None exactly where it meets them all (II.22).
/// Each row is looked at once for each of them.
pub fn first_unmet(alloc: Global, image: &Image<'_>) -> Result<Option<Unmet>, NoMemory>
    ensures { IfOk result (λ first. MatchOption first (MeetStructure image.now) (λ unmet. IsImageFault image.now unmet.rule unmet.at)) }
{
    let _tables = image.tables();
    if let Some(at) = bad_indexes(image) {
        return Ok(Some(at_row(8, at)));
    }
    if !has_entry(image) {
        return Ok(Some(Unmet {
            rule: 8,
            at: Place::Whole,
        }));
    }
    if let Some(at) = bad_entries(alloc, image)? {
        return Ok(Some(at_row(9, at)));
    }
    if let Some(at) = bad_manifest(image) {
        return Ok(Some(at_row(10, at)));
    }
    if let Some(at) = bad_runs(alloc, image)? {
        return Ok(Some(at_row(11, at)));
    }
    if let Some(at) = bad_order(image) {
        return Ok(Some(at_row(12, at)));
    }
    Ok(None)
}

/// The first row with an index out of its range.
fn bad_indexes(image: &Image<'_>) -> Option<(u8, u32)>
    ensures bad { IfSome result (λ at. IsFirstBad (λ table row. HasRow image.now table row → HasIndexes image.now table row) at.0 at.1) }
    ensures none { IfNone result ((table row : ℕ) → HasRow image.now table row → HasIndexes image.now table row) }
{
    let indexes = Indexes::new(image);
    first_bad(&indexes)
}

/// The first row with a damaged entry.
fn bad_entries(alloc: Global, image: &Image<'_>) -> Result<Option<(u8, u32)>, NoMemory>
    ensures bad { IfOk result (λ first. IfSome first (λ at. IsFirstBad (λ table row. HasRow image.now table row → HasEntries image.now table row) at.0 at.1)) }
    ensures none { IfOk result (λ first. IfNone first ((table row : ℕ) → HasRow image.now table row → HasEntries image.now table row)) }
{
    let texts = TextPlaces::new(alloc, image.strings())?;
    Ok(bad_entries_by(image, &texts))
}

/// The same, by the places of the image's texts.
fn bad_entries_by<'a>(image: &Image<'a>, texts: &TextPlaces<'a>) -> Option<(u8, u32)>
    requires { texts.now ≡ strings_of image.now }
    ensures bad { IfSome result (λ at. IsFirstBad (λ table row. HasRow image.now table row → HasEntries image.now table row) at.0 at.1) }
    ensures none { IfNone result ((table row : ℕ) → HasRow image.now table row → HasEntries image.now table row) }
{
    let entries = Entries::new(image, texts);
    first_bad(&entries)
}

/// The first of the rows that must be there which isn't as it should be.
fn bad_manifest(image: &Image<'_>) -> Option<(u8, u32)>
    ensures bad { IfSome result (λ at. IsFirstBad (HasManifest image.now) at.0 at.1) }
    ensures none { IfNone result ((table row : ℕ) → HasManifest image.now table row) }
{
    let manifest = Manifest::new(image);
    first_bad(&manifest)
}

/// The first row with a wrong run, or in none, where indexes lie in their ranges.
fn bad_runs(alloc: Global, image: &Image<'_>) -> Result<Option<(u8, u32)>, NoMemory>
    requires { (table row : ℕ) → HasRow image.now table row → HasIndexes image.now table row }
    ensures bad { IfOk result (λ first. IfSome first (λ at. IsFirstBad (HasRuns image.now) at.0 at.1)) }
    ensures none { IfOk result (λ first. IfNone first ((table row : ℕ) → HasRuns image.now table row)) }
{
    let runs = Runs::new(alloc, image)?;
    Ok(first_bad(&runs))
}

/// The first row that comes before the one above it in a sorted table.
fn bad_order(image: &Image<'_>) -> Option<(u8, u32)>
    ensures bad { IfSome result (λ at. IsFirstBad (IsSorted image.now) at.0 at.1) }
    ensures none { IfNone result ((table row : ℕ) → IsSorted image.now table row) }
{
    let order = Order::new(image);
    first_bad(&order)
}

/// A demand that fails at a row.
fn at_row(rule: u8, at: (u8, u32)) -> Unmet
    ensures rule { result.rule ≡ rule }
    ensures at { result.at ≡ Row at.0 at.1 }
{
    Unmet {
        rule,
        at: Place::Row {
            table: at.0,
            row: at.1,
        },
    }
}
