ghost use Rattle.std.specs.Prelude.{◌≡◌, ◌≤◌, ◌<◌, ◌↔◌, ℕ, Option};
ghost use Rattle.type_terms.specs.declared.term.Owner.{Owner};
ghost use Rattle.type_terms.specs.declared.term.SigType.{SigType};
ghost use Rattle.image_model.specs.Columns.{field_signature};
ghost use Rattle.image_model.specs.Naming.{TellsOwners};
ghost use Rattle.image_model.specs.Rows.{count_of, HasRow};
ghost use Rattle.image_model.specs.Terms.{FieldHas};
ghost use Rattle.body_codec.specs.Names.{NameMap};
ghost use Rattle.attribute_demands.specs.Judging.{ByNames};
ghost use Rattle.field_data.specs.Kinds.{IsOfKind, HasClassSize};
ghost use Rattle.data_demands.specs.Measured.{CanMeasure, HaveOneLayout, IsSize, IsFieldSize};

use crate::named_types::named_type;
use field_data::{DataKind, class_size, data_kind};
use heaps::{blob_at, one_content_at_an_index};
use image_streams::Image;
use type_names::TypeNames;

/// How many bytes a value of the type of a field has in data (II.16.3): the width of a primitive type, or the class size of a value type
/// of the image; 0 where it has no size.
pub fn data_size(image: &Image<'_>, names: &TypeNames<'_, '_>, field: u32) -> u32
    requires there { HasRow image.now 0x04 field }
    requires same { names.now.image ≡ image.now }
    requires can { CanMeasure image.now }
    requires layouts { HaveOneLayout image.now }
    ensures { ByNames image.now (λ map. IsFieldSize image.now map field result) }
{
    size_of_kind(image, names, field_kind(image, field))
}

/// What decides the size of a field's data.
fn field_kind(image: &Image<'_>, field: u32) -> DataKind
    requires { HasRow image.now 0x04 field }
    ensures { (names : NameMap) (t : SigType) → FieldHas image.now names field t → IsOfKind image.now names.owners t result }
{
    one_content_at_an_index();
    match blob_at(image.blobs(), signature_of(image, field)) {
        Some(blob) => kind_or_none(data_kind(blob)),
        None => DataKind::Sizeless,
    }
}

/// What was found, or that there is no size.
fn kind_or_none(kind: Option<DataKind>) -> DataKind
    ensures { (found : DataKind) → kind ≡ Some found → result ≡ found }
{
    match kind {
        Some(kind) => kind,
        None => DataKind::Sizeless,
    }
}

/// The index of the signature of a field.
#[tactic(auto, unfolding(metadata_tables::specs::Schema::schema))]
fn signature_of(image: &Image<'_>, field: u32) -> u32
    requires { HasRow image.now 0x04 field }
    ensures { result ≡ field_signature image.now field }
{
    image.tables().cell(0x04, field, 2)
}

/// The size of the types of a kind, or 0 where they have none.
fn size_of_kind(image: &Image<'_>, names: &TypeNames<'_, '_>, kind: DataKind) -> u32
    requires same { names.now.image ≡ image.now }
    requires can { CanMeasure image.now }
    requires layouts { HaveOneLayout image.now }
    ensures { (owners : ℕ → Option Owner) (t : SigType) → TellsOwners image.now owners → IsOfKind image.now owners t kind → IsSize image.now t result }
{
    match kind {
        DataKind::Bytes(width) => width,
        DataKind::Value(token) => size_of_type(image, named_type(image, names, token)),
        DataKind::Sizeless => 0,
    }
}

/// The class size of a type, or 0 where there is none.
fn size_of_type(image: &Image<'_>, row: u32) -> u32
    requires can { CanMeasure image.now }
    requires there { 0 < row → HasRow image.now 0x02 row }
    requires layouts { HaveOneLayout image.now }
    ensures { (size : ℕ) → ((0 < row) × HasClassSize image.now row size) ↔ ((size ≡ result) × (0 < size)) }
{
    if row == 0 {
        return 0;
    }
    class_size(image, row)
}
