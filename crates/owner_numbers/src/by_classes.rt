ghost use Rattle.std.specs.Prelude.{◌≡◌};
ghost use Rattle.owner_numbers.specs.Canon.{name_number, type_number, reference_number, spec_number, same_number, canon};

use image_streams::Image;
use signature_equality::Numbering;
use std::marker::Model;
use type_names::TypeNames;

/// Numbers of tokens by the numbers of types and references, and by a number for each row of TypeSpec; that of row 0 counts for
/// nothing.
#[derive(Drop)]
pub(crate) struct ByClasses<'k, 'a> {
    pub(crate) image: &'k Image<'a>,
    pub(crate) names: &'k TypeNames<'k, 'a>,
    pub(crate) classes: &'k [u32],
}

impl<'k, 'a> Model for ByClasses<'k, 'a> {
    ghost use Rattle.std.specs.Prelude.{◌≡◌};
    ghost use Rattle.owner_numbers.specs.Canon.{Classes};

    ghost Value = { Classes };

    ghost view = { λ it. record { image = it.image.now; named = it.names.now.named; classes = it.classes.now } };

    ghost invariant = { λ it. it.names.now.image ≡ it.image.now };
}

impl<'k, 'a> Numbering for ByClasses<'k, 'a> {
    ghost use Rattle.owner_numbers.specs.Canon.{canon};

    ghost canon = { λ it a b. canon it a b };

    fn is_same(&self, a: u32, b: u32) -> bool {
        same_number(
            name_number(self.image, self.names, a),
            name_number(self.image, self.names, b),
        ) || same_number(spec_number(self.classes, a), spec_number(self.classes, b))
    }
}

/// Whether two tokens have a number, and the same.
fn same_number(a: Option<u32>, b: Option<u32>) -> bool
    ensures { result ≡ same_number a b }
{
    match (a, b) {
        (Some(a), Some(b)) => a == b,
        _ => false,
    }
}

/// The number of what a token of TypeDef or TypeRef names (II.22.37, II.22.38); None for other tokens.
#[tactic(auto, unfolding(crate::specs::Canon::name_number))]
pub fn name_number(image: &Image<'_>, names: &TypeNames<'_, '_>, token: u32) -> Option<u32>
    requires { names.now.image ≡ image.now }
    ensures { result ≡ name_number image.now names.now.named token }
{
    let row = token % 0x0100_0000;
    if token / 0x0100_0000 == 0x02 {
        return type_number(image, names, row);
    }
    if token / 0x0100_0000 == 0x01 {
        return reference_number(image, names, row);
    }
    None
}

/// The number of a type, if it is there.
fn type_number(image: &Image<'_>, names: &TypeNames<'_, '_>, row: u32) -> Option<u32>
    requires { names.now.image ≡ image.now }
    ensures { result ≡ type_number image.now names.now.named row }
{
    if 0 < row && row <= image.tables().rows(0x02) {
        names.of_type(row)
    } else {
        None
    }
}

/// The number of a reference, if it is there.
fn reference_number(image: &Image<'_>, names: &TypeNames<'_, '_>, row: u32) -> Option<u32>
    requires { names.now.image ≡ image.now }
    ensures { result ≡ reference_number image.now names.now.named row }
{
    if 0 < row && row <= image.tables().rows(0x01) {
        names.of_reference(row)
    } else {
        None
    }
}

/// The number of a token of a TypeSpec.
#[tactic(auto, unfolding(crate::specs::Canon::spec_number))]
fn spec_number(classes: &[u32], token: u32) -> Option<u32>
    ensures { result ≡ spec_number classes.now token }
{
    if token / 0x0100_0000 != 0x1B {
        return None;
    }
    classes.get(token as usize % 0x0100_0000).copied()
}
