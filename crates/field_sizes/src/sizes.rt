ghost use Rattle.std.specs.Prelude.{◌≡◌, ℕ, IfOk};
ghost use Rattle.image_model.specs.Columns.{data_field};
ghost use Rattle.image_model.specs.Members.{HasValues};
ghost use Rattle.image_model.specs.Rows.{HasRow};
ghost use Rattle.attribute_demands.specs.Judging.{ByNames};
ghost use Rattle.data_demands.specs.Measured.{CanMeasure};
ghost use Rattle.image_ready.specs.Laws.{AreDataSizes};
ghost use Rattle.field_sizes.specs.Sizes.{IsSizeAt};

use data_demands::data_size;
use il_base::NoMemory;
use image_streams::Image;
use std::alloc::Global;
use type_names::TypeNames;

/// Of each row of FieldRVA of an image that meets I1 to I16 how many bytes the type of its field has in data (II.16.3, II.22.18); what
/// stands at 0 counts for nothing.
///
/// # Errors
///
/// There was no memory for them.
pub fn data_sizes(
    alloc: Global,
    image: &Image<'_>,
    names: &TypeNames<'_, '_>,
) -> Result<Vec<u32>, NoMemory>
    requires same { names.now.image ≡ image.now }
    requires can { CanMeasure image.now }
    requires values { (table row : ℕ) → ByNames image.now (λ map. HasValues image.now map table row) }
    ensures { IfOk result (λ sizes. ByNames image.now (λ map. AreDataSizes image.now map sizes.items)) }
{
    let count = image.tables().rows(0x1D);
    let mut sizes = Vec::from_elem(alloc, 0, count as usize + 1)?;
    for row in 0..count {
        sizes[row as usize + 1] = size_at(image, names, row + 1);
    }
    Ok(sizes)
}

/// How many bytes the type of the field of a row of FieldRVA has.
fn size_at(image: &Image<'_>, names: &TypeNames<'_, '_>, row: u32) -> u32
    requires there { HasRow image.now 0x1D row }
    requires same { names.now.image ≡ image.now }
    requires can { CanMeasure image.now }
    requires values { (table row : ℕ) → ByNames image.now (λ map. HasValues image.now map table row) }
    ensures { ByNames image.now (λ map. IsSizeAt image.now map row result) }
{
    data_size(image, names, field_of(image, row))
}

/// The field of a row of FieldRVA.
#[tactic(auto, unfolding(metadata_tables::specs::Schema::schema))]
fn field_of(image: &Image<'_>, row: u32) -> u32
    requires { HasRow image.now 0x1D row }
    ensures { result ≡ data_field image.now row }
{
    image.tables().cell(0x1D, row, 1)
}
