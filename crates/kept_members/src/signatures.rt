ghost use Rattle.std.specs.Prelude.{◌≡◌, ◌<◌, List, IsTrue, IfOk, IfSome, IfNone, Ok, Some, length};
ghost use Rattle.image_model.specs.Rows.{HasRow};
ghost use Rattle.metadata_tables.specs.Schema.{columns_of};
ghost use Rattle.metadata_tables.specs.Stream.{column_of};
ghost use Rattle.row_demands.specs.Structured.{MeetStructure};
ghost use Rattle.row_parts.specs.Kinds.{is_blobs};
ghost use Rattle.sig_codec.specs.Signature.{IsMethod, IsField, IsInstantiation};
ghost use Rattle.type_terms.specs.declared.reference.MethodSig.{MethodSig};
ghost use Rattle.type_terms.specs.declared.term.SigType.{SigType};
ghost use Rattle.kept_members.specs.Members.{owners_of, BlobIs};

use heaps::one_content_at_an_index;
use il_base::NoMemory;
use image_streams::Image;
use kept_names::KeptNames;
use row_parts::blob_at;
use sig_codec::{decode_field, decode_instantiation, decode_method};
use std::alloc::Global;
use type_terms::{MethodSig, SigType, Types};

/// The method that the blob of a cell spells (II.23.2.1, II.23.2.2), or None where it spells none.
pub(crate) fn method_in(
    alloc: Global,
    image: &Image<'_>,
    known: &KeptNames,
    table: u8,
    row: u32,
    column: u8,
) -> Result<Option<MethodSig>, NoMemory>
    requires meets { MeetStructure image.now }
    requires there { HasRow image.now table row }
    requires column { column < length (columns_of table) }
    requires kind { IsTrue (is_blobs (column_of table column)) }
    ensures found { IfOk result (λ o. IfSome o (BlobIs image.now (IsMethod (owners_of known.now)) table row column)) }
    ensures none { IfOk result (λ o. IfNone o ((sig : MethodSig) → BlobIs image.now (IsMethod (owners_of known.now)) table row column sig → ⊥)) }
{
    one_content_at_an_index();
    let bytes = blob_at(image, table, row, column);
    decode_method(alloc, bytes, known)
}

/// The type of the field that the blob of a cell spells (II.23.2.4), or None where it spells none.
pub(crate) fn field_in(
    alloc: Global,
    image: &Image<'_>,
    known: &KeptNames,
    table: u8,
    row: u32,
    column: u8,
) -> Result<Option<SigType>, NoMemory>
    requires meets { MeetStructure image.now }
    requires there { HasRow image.now table row }
    requires column { column < length (columns_of table) }
    requires kind { IsTrue (is_blobs (column_of table column)) }
    ensures found { IfOk result (λ o. IfSome o (BlobIs image.now (IsField (owners_of known.now)) table row column)) }
    ensures none { IfOk result (λ o. IfNone o ((of : SigType) → BlobIs image.now (IsField (owners_of known.now)) table row column of → ⊥)) }
{
    one_content_at_an_index();
    let bytes = blob_at(image, table, row, column);
    decode_field(alloc, bytes, known)
}

/// The arguments that the blob of a cell spells (II.23.2.15), or None where it spells none.
pub(crate) fn arguments_in(
    alloc: Global,
    image: &Image<'_>,
    known: &KeptNames,
    table: u8,
    row: u32,
    column: u8,
) -> Result<Option<Types>, NoMemory>
    requires meets { MeetStructure image.now }
    requires there { HasRow image.now table row }
    requires column { column < length (columns_of table) }
    requires kind { IsTrue (is_blobs (column_of table column)) }
    ensures found { IfOk result (λ o. IfSome o (BlobIs image.now (IsInstantiation (owners_of known.now)) table row column)) }
    ensures none { IfOk result (λ o. IfNone o ((args : List SigType) → BlobIs image.now (IsInstantiation (owners_of known.now)) table row column args → ⊥)) }
{
    one_content_at_an_index();
    let bytes = blob_at(image, table, row, column);
    decode_instantiation(alloc, bytes, known)
}

/// What was found, where it is known that something is.
pub(crate) fn sure<T: Drop>(found: Result<Option<T>, NoMemory>) -> Result<T, NoMemory>
    requires { IfOk found (λ o. IfNone o ⊥) }
    ensures { IfOk result (λ item. found ≡ Ok (Some item)) }
{
    let value = found?;
    match value {
        Some(item) => Ok(item),
        None => unreachable!(),
    }
}
