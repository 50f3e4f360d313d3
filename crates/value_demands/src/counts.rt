ghost use Rattle.std.specs.Prelude.{◌≡◌, option_map};
ghost use Rattle.heaps.specs.LookUp.{blob_in};
ghost use Rattle.image_model.specs.Streams.{blobs_of};
ghost use Rattle.value_demands.specs.Valued.{counts_of, count_of_list, scanned_method, scanned_list};

use heaps::blob_at;
use image_streams::Image;
use signature_facts::{ListFacts, MethodFacts, Owners, scan_instantiation, scan_method};

/// How many generic parameters and parameters a method has.
#[derive(Clone, Copy)]
pub(crate) struct Counts {
    pub(crate) generic: u32,
    pub(crate) params: u32,
}

/// Those of the method whose signature stands at an index of `#Blob`; none where no such signature stands there.
pub(crate) fn counts_at<O: Owners>(image: &Image<'_>, facts: &O, index: u32) -> Counts
    ensures { result ≡ counts_of (scanned_method image.now (O.facts facts.now) index) }
{
    match blob_in(image, index) {
        Some(blob) => counts_of(scan_method(blob, facts)),
        None => counts_of(None),
    }
}

/// Those of a method, if there is one.
fn counts_of(method: Option<MethodFacts>) -> Counts
    ensures { result ≡ counts_of method }
{
    match method {
        Some(of) => Counts {
            generic: of.generic,
            params: of.params,
        },
        None => Counts {
            generic: 0,
            params: 0,
        },
    }
}

/// How many arguments stand at an index of `#Blob`; 0 where no arguments stand there.
pub(crate) fn arguments_at<O: Owners>(image: &Image<'_>, facts: &O, index: u32) -> u32
    ensures { result ≡ count_of_list (scanned_list image.now (O.facts facts.now) index) }
{
    match blob_in(image, index) {
        Some(blob) => count_of_list(scan_instantiation(blob, facts)),
        None => count_of_list(None),
    }
}

/// How many types there are in a list, if there is one.
fn count_of_list(list: Option<ListFacts>) -> u32
    ensures { result ≡ count_of_list list }
{
    match list {
        Some(of) => of.count,
        None => 0,
    }
}

/// The blob at an index, if one stands there.
fn blob_in<'a>(image: &Image<'a>, index: u32) -> Option<&'a [u8]>
    ensures { option_map (λ blob. blob.now) result ≡ blob_in (blobs_of image.now) index }
{
    match blob_at(image.blobs(), index) {
        Some(blob) => Some(blob),
        None => None,
    }
}
