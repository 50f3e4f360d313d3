ghost use Rattle.std.specs.Prelude.{◌≡◌, ◌↔◌, IsTrue, Some, option_map};
ghost use Rattle.heaps.specs.LookUp.{blob_in};
ghost use Rattle.image_model.specs.Columns.{attribute_type, member_signature};
ghost use Rattle.image_model.specs.Rows.{HasRow};
ghost use Rattle.image_model.specs.Streams.{blobs_of};
ghost use Rattle.metadata_tables.specs.CodedIndex.{unpacked};
ghost use Rattle.metadata_tables.specs.declared.coded.Coded.TheVariants.{CustomAttributeType};
ghost use Rattle.signature_facts.specs.declared.facts.MethodFacts.{MethodFacts};
ghost use Rattle.attribute_demands.specs.Judging.{CanJudge, HasConstructorByNames, SpellsMethod};

use heaps::blob_at;
use image_streams::Image;
use metadata_tables::{Coded, unpack_coded};
use signature_facts::{MethodFacts, Owners, scan_method};

/// Whether an attribute's type is a method: a MethodDef, or a MemberRef with a method's signature (II.22.10).
pub(crate) fn has_constructor<O: Owners>(image: &Image<'_>, facts: &O, row: u32) -> bool
    requires there { HasRow image.now 0x0C row }
    requires can { CanJudge image.now (O.facts facts.now) }
    ensures { IsTrue result ↔ HasConstructorByNames image.now row }
{
    let (table, constructor) = constructor_of(image, facts, row);
    if table == 0x06 {
        return true;
    }
    is_method(image, facts, constructor)
}

/// The row that an attribute's type names.
fn constructor_of<O: Owners>(image: &Image<'_>, _facts: &O, row: u32) -> (u8, u32)
    requires there { HasRow image.now 0x0C row }
    requires can { CanJudge image.now (O.facts _facts.now) }
    ensures { unpacked CustomAttributeType (attribute_type image.now row) ≡ Some (result.0, result.1) }
{
    match unpack_coded(Coded::CustomAttributeType, type_index(image, row)) {
        Some(named) => named,
        None => (0, 0),
    }
}

/// The coded index of an attribute's type.
#[tactic(auto, unfolding(metadata_tables::specs::Schema::schema))]
fn type_index(image: &Image<'_>, row: u32) -> u32
    requires { HasRow image.now 0x0C row }
    ensures { result ≡ attribute_type image.now row }
{
    image.tables().cell(0x0C, row, 1)
}

/// Whether a MemberRef has a method's signature.
fn is_method<O: Owners>(image: &Image<'_>, facts: &O, row: u32) -> bool
    requires { HasRow image.now 0x0A row }
    ensures { IsTrue result ↔ SpellsMethod image.now (O.facts facts.now) row }
{
    match blob_in(image, signature_index(image, row)) {
        Some(blob) => is_there(scan_method(blob, facts)),
        None => false,
    }
}

/// Whether there is a method.
fn is_there(method: Option<MethodFacts>) -> bool
    ensures { IsTrue result ↔ ((m : MethodFacts) × (method ≡ Some m)) }
{
    match method {
        Some(_) => true,
        None => false,
    }
}

/// The index of the signature of a MemberRef.
#[tactic(auto, unfolding(metadata_tables::specs::Schema::schema))]
fn signature_index(image: &Image<'_>, row: u32) -> u32
    requires { HasRow image.now 0x0A row }
    ensures { result ≡ member_signature image.now row }
{
    image.tables().cell(0x0A, row, 2)
}

/// The blob at an index, if one stands there.
fn blob_in<'a>(image: &Image<'a>, index: u32) -> Option<&'a [u8]>
    ensures { option_map (λ blob. blob.now) result ≡ blob_in (blobs_of image.now) index }
{
    match blob_at(image.blobs(), index) {
        Some(blob) => Some(blob),
        None => None,
    }
}
