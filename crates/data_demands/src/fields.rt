ghost use Rattle.std.specs.Prelude.{◌≡◌, ◌≤◌, ◌<◌, ◌+◌, ◌↔◌, IsTrue, length};
ghost use Rattle.pe_layout.specs.FileMap.{readable};
ghost use Rattle.image_model.specs.Columns.{data_rva};
ghost use Rattle.image_model.specs.Members.{HasValues, data_of};
ghost use Rattle.image_model.specs.Rows.{HasRow};
ghost use Rattle.row_demands.specs.Structured.{MeetStructure};
ghost use Rattle.attribute_demands.specs.Judging.{ByNames};
ghost use Rattle.member_demands.specs.Groups.{StandTogether};
ghost use Rattle.data_demands.specs.Measured.{CanMeasure, HaveOneLayout, HasDataByNames};

use crate::sizes::data_size;
use image_streams::Image;
use member_demands::{field_has_constants, has_one_data, has_one_offset};
use row_groups::{Rows, owned_rows};
use type_names::TypeNames;

/// Whether a field meets the demand on values (I16): it has one constant at most, which is one, one offset at most, and data at one place
/// at most, where as many bytes can be read as its type has (II.22.9, II.22.16, II.22.18).
pub fn field_has_values(image: &Image<'_>, names: &TypeNames<'_, '_>, row: u32) -> bool
    requires there { HasRow image.now 0x04 row }
    requires same { names.now.image ≡ image.now }
    requires can { CanMeasure image.now }
    requires layouts { HaveOneLayout image.now }
    ensures { IsTrue result ↔ ByNames image.now (λ map. HasValues image.now map 0x04 row) }
{
    if !field_has_constants(image, row) {
        return false;
    }
    if !has_one_offset(image, row) {
        return false;
    }
    if !has_one_data(image, row) {
        return false;
    }
    has_data(image, names, row)
}

/// Whether the data of a field is there, at one place at most.
fn has_data(image: &Image<'_>, names: &TypeNames<'_, '_>, row: u32) -> bool
    requires there { HasRow image.now 0x04 row }
    requires one { length (data_of image.now row) ≤ 1 }
    requires same { names.now.image ≡ image.now }
    requires can { CanMeasure image.now }
    requires layouts { HaveOneLayout image.now }
    ensures { IsTrue result ↔ HasDataByNames image.now row }
{
    let places = data_of(image, row);
    if places.count == 0 {
        return true;
    }
    let size = data_size(image, names, row);
    0 < size && size as usize <= readable(image, places.first as u32)
}

/// The places of the data of a field.
#[tactic(auto, unfolding(metadata_tables::specs::Schema::schema))]
fn data_of(image: &Image<'_>, row: u32) -> Rows
    requires meets { MeetStructure image.now }
    ensures { StandTogether image.now 0x1D 1 row result.first result.count }
{
    owned_rows(image, 0x1D, 1, u64::from(row))
}

/// How many bytes can be read at a place of data.
#[tactic(auto, unfolding(metadata_tables::specs::Schema::schema))]
fn readable(image: &Image<'_>, place: u32) -> usize
    requires { HasRow image.now 0x1D place }
    ensures { result ≡ length (readable image.now (data_rva image.now place)) }
{
    let rva = image.tables().cell(0x1D, place, 0);
    match image.pe().at_rva(rva) {
        Some(bytes) => bytes.len(),
        None => 0,
    }
}
