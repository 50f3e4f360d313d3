ghost use Rattle.std.specs.Prelude.{◌≡◌, ◌≤◌, IfOk, length, slice_index, take};
ghost use Rattle.image_model.specs.Members.{data_of};
ghost use Rattle.image_model.specs.Reading.{IsGiven, IsContent};
ghost use Rattle.image_model.specs.Rows.{HasRow};
ghost use Rattle.image_model.specs.Terms.{FieldHas};
ghost use Rattle.image_source.specs.Names.{names_of};
ghost use Rattle.image_source.specs.Ready.{IsReady};
ghost use Rattle.type_terms.specs.declared.term.SigType.{SigType};

use heaps::one_content_at_an_index;
use il_base::{Bytes, NoMemory};
use image_source::Source;
use row_groups::owned_rows;
use row_parts::bytes_at;
use sig_codec::bytes_spell_one_signature;
use std::alloc::Global;

/// The data of a field, where it has some: as many bytes as its type has (II.16.3, II.22.18).
#[tactic(auto, unfolding(metadata_tables::specs::Schema::schema))]
pub(crate) fn content(
    alloc: Global,
    source: &Source<'_, '_>,
    row: u32,
) -> Result<Option<Bytes>, NoMemory>
    requires there { HasRow source.now.image.now 0x04 row }
    requires ready { IsReady source.now.image.now source.now.kept.now source.now.sizes.now }
    ensures { (of : SigType) → FieldHas source.now.image.now (names_of source.now.kept.now) row of → IfOk result (IsGiven (IsContent source.now.image.now of) (data_of source.now.image.now row)) }
{
    one_content_at_an_index();
    bytes_spell_one_signature();
    let rows = owned_rows(source.image, 0x1D, 1, u64::from(row));
    if rows.count == 0 {
        return Ok(None);
    }
    let rva = source.image.tables().cell(0x1D, rows.first as u32, 0);
    let size = size_at(source.sizes, rows.first as usize);
    let bytes = bytes_at(source.image, rva);
    let content = Bytes::from_slice(alloc, first_of(bytes, size))?;
    Ok(Some(content))
}

/// The number at a place, or 0 past the end.
fn size_at(sizes: &[u32], at: usize) -> usize
    ensures { result ≡ slice_index sizes.now at }
{
    match sizes.get(at) {
        Some(size) => *size as usize,
        None => 0,
    }
}

/// The first of some bytes.
fn first_of(bytes: &[u8], count: usize) -> &[u8]
    requires { count ≤ length bytes.now }
    ensures { result.now ≡ take count bytes.now }
{
    &bytes[..count]
}
