ghost use Rattle.std.specs.Prelude.{◌≡◌, ◌<◌, ◌≤◌, ℕ, Option, Some};
ghost use Rattle.type_terms.specs.declared.name.TypeName.{TypeName};
ghost use Rattle.type_terms.specs.declared.term.Owner.{Owner};
ghost use Rattle.type_terms.specs.declared.term.Owner.TheVariants as owner;
ghost use Rattle.image_model.specs.Naming.{TellsOwners};
ghost use Rattle.image_model.specs.Rows.{HasRow};
ghost use Rattle.data_demands.specs.Measured.{CanMeasure, IsOneCalled, type_or_none, reference_number, token_number};

use heaps::one_content_at_an_index;
use image_streams::Image;
use type_names::TypeNames;

/// The row of the type of the image that a token of a type or a reference names (II.22.37, II.22.38), or 0 where it names none.
pub(crate) fn named_type(image: &Image<'_>, names: &TypeNames<'_, '_>, token: u32) -> u32
    requires same { names.now.image ≡ image.now }
    requires can { CanMeasure image.now }
    ensures there { 0 < result → HasRow image.now 0x02 result }
    ensures called { (owners : ℕ → Option Owner) (name : TypeName) → TellsOwners image.now owners → owners token ≡ Some (owner.Name name) → IsOneCalled image.now name result }
{
    one_content_at_an_index();
    names.tell_names();
    let types = image.tables().rows(0x02);
    type_or_none(types, token_number(image, names, token))
}

/// The number of the type or the reference that a token names, if it names one.
#[tactic(auto, unfolding(crate::specs::Measured::token_number))]
fn token_number(image: &Image<'_>, names: &TypeNames<'_, '_>, token: u32) -> Option<u32>
    requires { names.now.image ≡ image.now }
    ensures { result ≡ token_number image.now names.now.named token }
{
    let row = token % 0x0100_0000;
    if token / 0x0100_0000 == 0x02 {
        return Some(row);
    }
    if token / 0x0100_0000 == 0x01 {
        return reference_number(image, names, row);
    }
    None
}

/// The number of a reference, if it is there.
fn reference_number(image: &Image<'_>, names: &TypeNames<'_, '_>, row: u32) -> Option<u32>
    requires { names.now.image ≡ image.now }
    ensures { result ≡ reference_number image.now names.now.named row }
{
    if 0 < row && row <= image.tables().rows(0x01) {
        names.of_reference(row)
    } else {
        None
    }
}

/// A number that is one of so many types, or 0.
fn type_or_none(types: u32, number: Option<u32>) -> u32
    ensures is { result ≡ type_or_none types number }
    ensures within { result ≤ types }
{
    match number {
        Some(number) => { if number <= types { number } else { 0 } }
        None => 0,
    }
}
