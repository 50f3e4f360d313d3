ghost use Rattle.std.specs.Prelude.{◌≡◌};
ghost use Rattle.row_weights.specs.Signatures.{weighed, weighed_blob, type_weighed, method_weighed, list_weighed, locals_weighed};

use crate::Kind;
use heaps::blob_at;
use image_streams::Image;
use signature_facts::{
    Facts, ListFacts, MethodFacts, Owners, scan_field, scan_instantiation, scan_locals,
    scan_method, scan_property, scan_type,
};

/// What the signature at an index of `#Blob` weighs, read as this kind; 0 where none is spelled.
pub(crate) fn weigh<O: Owners>(image: &Image<'_>, owners: &O, kind: Kind, index: u32) -> u32
    ensures { result ≡ weighed image.now (O.facts owners.now) kind index }
{
    match blob_at(image.blobs(), index) {
        None => 0,
        Some(blob) => weigh_blob(owners, kind, blob),
    }
}

/// What the bytes of a signature weigh.
fn weigh_blob<O: Owners>(owners: &O, kind: Kind, blob: &[u8]) -> u32
    ensures { result ≡ weighed_blob (O.facts owners.now) kind blob.now }
{
    match kind {
        Kind::Type => weigh_type(scan_type(blob, owners)),
        Kind::Field => weigh_type(scan_field(blob, owners)),
        Kind::Method => weigh_method(scan_method(blob, owners)),
        Kind::Property => weigh_method(scan_property(blob, owners)),
        Kind::Locals => weigh_locals(scan_locals(blob, owners)),
        Kind::Instantiation => weigh_list(scan_instantiation(blob, owners)),
    }
}

fn weigh_type(facts: Option<Facts>) -> u32
    ensures { result ≡ type_weighed facts }
{
    match facts {
        None => 0,
        Some(of) => of.weight,
    }
}

fn weigh_method(facts: Option<MethodFacts>) -> u32
    ensures { result ≡ method_weighed facts }
{
    match facts {
        None => 0,
        Some(of) => of.facts.weight,
    }
}

fn weigh_list(facts: Option<ListFacts>) -> u32
    ensures { result ≡ list_weighed facts }
{
    match facts {
        None => 0,
        Some(of) => of.facts.weight,
    }
}

/// Locals count 64 each besides.
fn weigh_locals(facts: Option<ListFacts>) -> u32
    ensures { result ≡ locals_weighed facts }
{
    match facts {
        None => 0,
        Some(of) => of.facts.weight.saturating_add(of.count.saturating_mul(64)),
    }
}
