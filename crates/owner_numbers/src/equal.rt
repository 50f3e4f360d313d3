ghost use Rattle.std.specs.Prelude.{◌≡◌, ◌↔◌, ℕ, List, IsTrue, Some, option_map};
ghost use Rattle.heaps.specs.LookUp.{blob_in};
ghost use Rattle.image_model.specs.Columns.{type_spec_signature};
ghost use Rattle.image_model.specs.Rows.{HasRow};
ghost use Rattle.image_model.specs.Streams.{blobs_of};
ghost use Rattle.owner_numbers.specs.Terms.{HaveOneTerm};
ghost use Rattle.owner_numbers.specs.Canon.{MayCompare};

use crate::by_classes::ByClasses;
use crate::levels::index_of;
use heaps::blob_at;
use image_streams::Image;
use row_twins::RowTest;
use signature_equality::same_type;

/// The question which row of TypeSpec has the term of another.
#[derive(Drop)]
pub(crate) struct Equal<'k, 'a> {
    pub(crate) known: ByClasses<'k, 'a>,
    pub(crate) row: u32,
}

impl<'k, 'a> RowTest for Equal<'k, 'a> {
    ghost use Rattle.owner_numbers.specs.Terms.{HaveOneTerm};
    ghost use Rattle.owner_numbers.specs.Canon.{MayCompare};

    ghost may = { λ it other. MayCompare it.known it.row other };

    ghost holds = { λ it other. HaveOneTerm it.known.image other it.row };

    fn holds_of(&self, row: u32) -> bool {
        are_equal(&self.known, row, self.row)
    }
}

/// Whether two rows of TypeSpec have one term.
fn are_equal(known: &ByClasses<'_, '_>, other: u32, row: u32) -> bool
    requires { MayCompare known.now row other }
    ensures { IsTrue result ↔ HaveOneTerm known.now.image other row }
{
    let a = blob_of(known.image, other);
    let b = blob_of(known.image, row);
    same_type(known, a, b)
}

/// The signature of a row of TypeSpec, which is there.
fn blob_of<'a>(image: &Image<'a>, row: u32) -> &'a [u8]
    requires { HasRow image.now 0x1B row }
    ensures { (bytes : List ℕ) → blob_in (blobs_of image.now) (type_spec_signature image.now row) ≡ Some bytes → result.now ≡ bytes }
{
    match blob_in(image, index_of(image, row)) {
        Some(blob) => blob,
        None => image.blobs(),
    }
}

/// The blob at an index, if one stands there.
fn blob_in<'a>(image: &Image<'a>, index: u32) -> Option<&'a [u8]>
    ensures { option_map (λ blob. blob.now) result ≡ blob_in (blobs_of image.now) index }
{
    match blob_at(image.blobs(), index) {
        Some(blob) => Some(blob),
        None => None,
    }
}
