ghost use Rattle.std.specs.Prelude.{◌≡◌, ◌↔◌, IsTrue};
ghost use Rattle.body_codec.specs.Names.{NameMap};
ghost use Rattle.image_model.specs.Members.{HasValues, IsAttributed};
ghost use Rattle.image_model.specs.Rows.{HasRow};
ghost use Rattle.row_demands.specs.Structured.{MeetStructure};

use crate::constants::{param_has_constants, property_has_constants};
use crate::generics::type_has_generics;
use crate::kinds::{event_has_kinds, is_among, overrides_in_class, property_has_kinds};
use crate::layouts::has_layout;
use image_streams::Image;
use metadata_tables::{Coded, unpack_coded};

/// Whether a type meets the demand on values (I16): its generic parameters and its layout.
pub fn type_has_values(image: &Image<'_>, row: u32) -> bool
    requires there { HasRow image.now 0x02 row }
    requires meets { MeetStructure image.now }
    ensures { (names : NameMap) → IsTrue result ↔ HasValues image.now names 0x02 row }
{
    if !type_has_generics(image, row) {
        return false;
    }
    has_layout(image, row)
}

/// Whether a param meets the demand on values (I16): its constant.
pub fn param_has_values(image: &Image<'_>, row: u32) -> bool
    requires there { HasRow image.now 0x08 row }
    requires meets { MeetStructure image.now }
    ensures { (names : NameMap) → IsTrue result ↔ HasValues image.now names 0x08 row }
{
    param_has_constants(image, row)
}

/// Whether an event meets the demand on values (I16): it has a type, and accessors of its kinds.
#[tactic(auto, unfolding(metadata_tables::specs::Schema::schema))]
pub fn event_has_values(image: &Image<'_>, row: u32) -> bool
    requires there { HasRow image.now 0x14 row }
    requires meets { MeetStructure image.now }
    ensures { (names : NameMap) → IsTrue result ↔ HasValues image.now names 0x14 row }
{
    let of = image.tables().cell(0x14, row, 2);
    if of == 0 {
        return false;
    }
    event_has_kinds(image, row)
}

/// Whether a property meets the demand on values (I16): its constant, and accessors of its kinds.
pub fn property_has_values(image: &Image<'_>, row: u32) -> bool
    requires there { HasRow image.now 0x17 row }
    requires meets { MeetStructure image.now }
    ensures { (names : NameMap) → IsTrue result ↔ HasValues image.now names 0x17 row }
{
    if !property_has_constants(image, row) {
        return false;
    }
    property_has_kinds(image, row)
}

/// Whether a row of MethodImpl meets the demand on values (I16): its body is a method of its class.
pub fn override_has_values(image: &Image<'_>, row: u32) -> bool
    requires there { HasRow image.now 0x19 row }
    requires meets { MeetStructure image.now }
    ensures { (names : NameMap) → IsTrue result ↔ HasValues image.now names 0x19 row }
{
    overrides_in_class(image, row)
}

/// The tables of what may have attributes (II.22.10).
const ATTRIBUTED: [u32; 9] = [0x20, 0x00, 0x02, 0x04, 0x06, 0x08, 0x17, 0x14, 0x2A];

/// Whether an attribute's parent is one that may have attributes: the part of the demand on attributes (I21) that asks nothing of
/// signatures.
#[tactic(auto, unfolding(metadata_tables::specs::Schema::schema))]
pub fn has_attributed_parent(image: &Image<'_>, row: u32) -> bool
    requires { HasRow image.now 0x0C row }
    ensures { IsTrue result ↔ IsAttributed image.now row }
{
    let parent = image.tables().cell(0x0C, row, 0);
    match unpack_coded(Coded::HasCustomAttribute, parent) {
        Some((table, _row)) => is_among(&ATTRIBUTED, u32::from(table)),
        None => false,
    }
}
