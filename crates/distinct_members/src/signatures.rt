ghost use Rattle.std.specs.Prelude.{◌≡◌, ◌↔◌, IsTrue, Some, List, ℕ, option_map};
ghost use Rattle.heaps.specs.LookUp.{blob_in};
ghost use Rattle.image_model.specs.Columns.{field_signature, method_signature, property_signature};
ghost use Rattle.image_model.specs.Rows.{HasRow};
ghost use Rattle.image_model.specs.Streams.{blobs_of};
ghost use Rattle.distinct_members.specs.Signed.{CanTell, type_hash, sig_hash, field_hash, method_hash, property_hash, FieldsAlike, MethodsAlike, PropertiesAlike};

use heaps::blob_at;
use image_streams::Image;
use signature_equality::{Numbering, same_field, same_method, same_property};
use signature_facts::{Facts, MethodFacts, Owners, scan_field, scan_method, scan_property};

/// The blob at an index, if one stands there.
fn blob_in<'a>(image: &Image<'a>, index: u32) -> Option<&'a [u8]>
    ensures { option_map (λ blob. blob.now) result ≡ blob_in (blobs_of image.now) index }
{
    match blob_at(image.blobs(), index) {
        Some(blob) => Some(blob),
        None => None,
    }
}

/// The blob at an index, which is there.
fn blob_there<'a>(image: &Image<'a>, index: u32) -> &'a [u8]
    ensures { (bytes : List ℕ) → blob_in (blobs_of image.now) index ≡ Some bytes → result.now ≡ bytes }
{
    match blob_in(image, index) {
        Some(blob) => blob,
        None => image.blobs(),
    }
}

/// The hash of a type, if there is one.
fn type_hash(of: Option<Facts>) -> u64
    ensures { result ≡ type_hash of }
{
    match of {
        Some(of) => of.hash,
        None => 0,
    }
}

/// The hash of a method or a property, if there is one.
fn sig_hash(of: Option<MethodFacts>) -> u64
    ensures { result ≡ sig_hash of }
{
    match of {
        Some(of) => of.facts.hash,
        None => 0,
    }
}

/// The hash of a field's signature, or 0 where it has none.
pub(crate) fn field_hash<O: Owners>(image: &Image<'_>, facts: &O, row: u32) -> u64
    requires { HasRow image.now 0x04 row }
    ensures { result ≡ field_hash image.now (O.facts facts.now) row }
{
    match blob_in(image, field_index(image, row)) {
        Some(blob) => type_hash(scan_field(blob, facts)),
        None => 0,
    }
}

/// The index of a field's signature.
#[tactic(auto, unfolding(metadata_tables::specs::Schema::schema))]
fn field_index(image: &Image<'_>, row: u32) -> u32
    requires { HasRow image.now 0x04 row }
    ensures { result ≡ field_signature image.now row }
{
    image.tables().cell(0x04, row, 2)
}

/// The hash of a method's signature, or 0 where it has none.
pub(crate) fn method_hash<O: Owners>(image: &Image<'_>, facts: &O, row: u32) -> u64
    requires { HasRow image.now 0x06 row }
    ensures { result ≡ method_hash image.now (O.facts facts.now) row }
{
    match blob_in(image, method_index(image, row)) {
        Some(blob) => sig_hash(scan_method(blob, facts)),
        None => 0,
    }
}

/// The index of a method's signature.
#[tactic(auto, unfolding(metadata_tables::specs::Schema::schema))]
fn method_index(image: &Image<'_>, row: u32) -> u32
    requires { HasRow image.now 0x06 row }
    ensures { result ≡ method_signature image.now row }
{
    image.tables().cell(0x06, row, 4)
}

/// The hash of a property's signature, or 0 where it has none.
pub(crate) fn property_hash<O: Owners>(image: &Image<'_>, facts: &O, row: u32) -> u64
    requires { HasRow image.now 0x17 row }
    ensures { result ≡ property_hash image.now (O.facts facts.now) row }
{
    match blob_in(image, property_index(image, row)) {
        Some(blob) => sig_hash(scan_property(blob, facts)),
        None => 0,
    }
}

/// The index of a property's signature.
#[tactic(auto, unfolding(metadata_tables::specs::Schema::schema))]
fn property_index(image: &Image<'_>, row: u32) -> u32
    requires { HasRow image.now 0x17 row }
    ensures { result ≡ property_signature image.now row }
{
    image.tables().cell(0x17, row, 2)
}

/// Whether two fields have one signature.
pub(crate) fn same_fields<N: Numbering>(image: &Image<'_>, numbers: &N, a: u32, b: u32) -> bool
    requires one { HasRow image.now 0x04 a }
    requires other { HasRow image.now 0x04 b }
    requires tells { CanTell image.now (N.canon numbers.now) }
    ensures { IsTrue result ↔ FieldsAlike image.now a b }
{
    let one = blob_there(image, field_index(image, a));
    let other = blob_there(image, field_index(image, b));
    same_field(numbers, one, other)
}

/// Whether two methods have one signature.
pub(crate) fn same_methods<N: Numbering>(image: &Image<'_>, numbers: &N, a: u32, b: u32) -> bool
    requires one { HasRow image.now 0x06 a }
    requires other { HasRow image.now 0x06 b }
    requires tells { CanTell image.now (N.canon numbers.now) }
    ensures { IsTrue result ↔ MethodsAlike image.now a b }
{
    let one = blob_there(image, method_index(image, a));
    let other = blob_there(image, method_index(image, b));
    same_method(numbers, one, other)
}

/// Whether two properties have one signature.
pub(crate) fn same_properties<N: Numbering>(image: &Image<'_>, numbers: &N, a: u32, b: u32) -> bool
    requires one { HasRow image.now 0x17 a }
    requires other { HasRow image.now 0x17 b }
    requires tells { CanTell image.now (N.canon numbers.now) }
    ensures { IsTrue result ↔ PropertiesAlike image.now a b }
{
    let one = blob_there(image, property_index(image, a));
    let other = blob_there(image, property_index(image, b));
    same_property(numbers, one, other)
}
