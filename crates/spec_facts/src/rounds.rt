ghost use Rattle.std.specs.Prelude.{◌≡◌, ◌<◌, ◌+◌, ◌↔◌, ℕ, List, Option, IsTrue, true, false, length, slice_get, Some, None};
ghost use Rattle.signature_facts.specs.Scanning.{OwnersFacts};
ghost use Rattle.signature_facts.specs.declared.facts.Facts.{Facts};
ghost use Rattle.spec_facts.specs.Rounds.{scanned_at, found, ArePlaces, TellsSpecs, IsSound, IsFixed, RoundSo, unknown};
ghost use Rattle.spec_facts.specs.SpecMap.{merged};

use crate::distinct::Distinct;
use crate::known::Known;
use heaps::blob_at;
use image_streams::Image;
use signature_facts::{Facts, Owners, scan_type};

/// Whether a place isn't found yet.
fn is_unknown(facts: &[Option<Facts>], place: usize) -> bool
    ensures { IsTrue result ↔ (slice_get facts.now place ≡ Some None) }
{
    matches!(facts.get(place), Some(None))
}

/// The facts of the type that the blob at an index spells.
#[tactic(auto, unfolding(crate::specs::Rounds::scanned_at))]
fn scanned_at<O: Owners>(image: &Image<'_>, owners: &O, index: u32) -> Option<Facts>
    ensures { result ≡ scanned_at image.now (O.facts owners.now) index }
{
    let blob = blob_at(image.blobs(), index)?;
    scan_type(blob, owners)
}

/// Looks at one place, where it isn't found yet, by what was found so far; whether one was found here or before.
fn look<N: Owners>(
    image: &Image<'_>,
    names: &N,
    distinct: &Distinct,
    facts: &mut [Option<Facts>],
    place: usize,
    before: bool,
) -> bool
    requires within { place < length distinct.now.heads }
    requires placed { ArePlaces image.now distinct.now.places distinct.now.heads }
    requires each { length facts.old ≡ length distinct.now.heads }
    ensures each { length facts.new ≡ length facts.old }
    ensures step { (old : List (Option Facts)) → RoundSo image.now (N.facts names.now) distinct.now.places distinct.now.heads old facts.old before place → RoundSo image.now (N.facts names.now) distinct.now.places distinct.now.heads old facts.new result (place + 1) }
{
    if !is_unknown(facts, place) {
        return before;
    }
    let index = *distinct.heads.at(place);
    match found_at(image, names, distinct.places.as_slice(), facts, index) {
        None => before,
        Some(found) => {
            facts[place] = Some(found);
            true
        }
    }
}

/// The facts of the type that the blob at an index spells, by what was found so far.
fn found_at<N: Owners>(
    image: &Image<'_>,
    names: &N,
    places: &[u32],
    facts: &[Option<Facts>],
    index: u32,
) -> Option<Facts>
    ensures { result ≡ scanned_at image.now (merged (N.facts names.now) (found places.now facts.now)) index }
{
    let known = Known {
        names,
        places,
        facts,
    };
    scanned_at(image, &known, index)
}

/// Looks once at each place that isn't found yet, by what was found so far; whether one was found.
pub(crate) fn round<N: Owners>(
    image: &Image<'_>,
    names: &N,
    distinct: &Distinct,
    facts: &mut [Option<Facts>],
) -> bool
    requires placed { ArePlaces image.now distinct.now.places distinct.now.heads }
    requires each { length facts.old ≡ length distinct.now.heads }
    ensures sound { (true_map : OwnersFacts) → TellsSpecs image.now (N.facts names.now) true_map → IsSound image.now true_map distinct.now.heads facts.old → IsSound image.now true_map distinct.now.heads facts.new }
    ensures found { result ≡ true → unknown facts.new < unknown facts.old }
    ensures fixed { result ≡ false → (facts.new ≡ facts.old) × IsFixed image.now (N.facts names.now) distinct.now.places distinct.now.heads facts.old (length distinct.now.heads) }
{
    let mut has_found = false;
    for place in 0..distinct.heads.len() {
        has_found = look(image, names, distinct, facts, place, has_found);
    }
    has_found
}
