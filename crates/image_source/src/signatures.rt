ghost use Rattle.std.specs.Prelude.{◌≡◌, Some, IfOk};
ghost use Rattle.image_model.specs.Rows.{HasRow};
ghost use Rattle.image_model.specs.Terms.{FieldHas, MethodHas, PropertyHas};
ghost use Rattle.image_source.specs.Ready.{IsReady};
ghost use Rattle.image_source.specs.Names.{names_of};

use crate::Source;
use heaps::one_content_at_an_index;
use il_base::NoMemory;
use row_parts::blob_at;
use sig_codec::{decode_field, decode_method, decode_property};
use std::alloc::Global;
use type_terms::{MethodSig, SigType};

/// The type of a field (II.22.15, II.23.2.4).
#[tactic(auto, unfolding(metadata_tables::specs::Schema::schema))]
pub fn field_type(alloc: Global, source: &Source<'_, '_>, row: u32) -> Result<SigType, NoMemory>
    requires there { HasRow source.now.image.now 0x04 row }
    requires ready { IsReady source.now.image.now source.now.kept.now source.now.sizes.now }
    ensures { IfOk result (FieldHas source.now.image.now (names_of source.now.kept.now) row) }
{
    one_content_at_an_index();
    let bytes = blob_at(source.image, 0x04, row, 2);
    sure(decode_field(alloc, bytes, source.kept))
}

/// The signature of a method (II.22.26, II.23.2.1).
#[tactic(auto, unfolding(metadata_tables::specs::Schema::schema))]
pub fn method_signature(
    alloc: Global,
    source: &Source<'_, '_>,
    row: u32,
) -> Result<MethodSig, NoMemory>
    requires there { HasRow source.now.image.now 0x06 row }
    requires ready { IsReady source.now.image.now source.now.kept.now source.now.sizes.now }
    ensures { IfOk result (MethodHas source.now.image.now (names_of source.now.kept.now) row) }
{
    one_content_at_an_index();
    let bytes = blob_at(source.image, 0x06, row, 4);
    sure(decode_method(alloc, bytes, source.kept))
}

/// The signature of a property (II.22.34, II.23.2.5).
#[tactic(auto, unfolding(metadata_tables::specs::Schema::schema))]
pub fn property_signature(
    alloc: Global,
    source: &Source<'_, '_>,
    row: u32,
) -> Result<MethodSig, NoMemory>
    requires there { HasRow source.now.image.now 0x17 row }
    requires ready { IsReady source.now.image.now source.now.kept.now source.now.sizes.now }
    ensures { IfOk result (PropertyHas source.now.image.now (names_of source.now.kept.now) row) }
{
    one_content_at_an_index();
    let bytes = blob_at(source.image, 0x17, row, 2);
    sure(decode_property(alloc, bytes, source.kept))
}

/// What was found, where it is known that something is.
fn sure<T: Drop>(found: Result<Option<T>, NoMemory>) -> Result<T, NoMemory>
    requires { (x : T) × IfOk found (λ o. o ≡ Some x) }
    ensures { (x : T) → IfOk found (λ o. o ≡ Some x) → IfOk result (λ r. r ≡ x) }
{
    let value = found?;
    match value {
        Some(item) => Ok(item),
        None => unreachable!(),
    }
}
