ghost use Rattle.std.specs.Prelude.{◌↔◌, IsTrue};
ghost use Rattle.std.specs.List.{All};
ghost use Rattle.body_outlines.specs.declared.outlined.TokenUse.{TokenUse};
ghost use Rattle.body_tokens.specs.Tokens.{AreKnown, IsUseKnown, IsTypeToken};

use crate::checks::{is_known, is_type};
use body_outlines::{BodyOutline, TokenUse};
use image_streams::Image;

/// Whether each token of a body, but that of its locals, names what is wanted.
pub(crate) fn are_known(image: &Image<'_>, told: &BodyOutline) -> bool
    ensures { IsTrue result ↔ AreKnown image.now told.now }
{
    are_operands_known(image, told.operands.as_slice()) && are_types(image, told.catches.as_slice())
}

/// Whether each operand that is a token names what its instruction wants.
fn are_operands_known(image: &Image<'_>, uses: &[TokenUse]) -> bool
    ensures { IsTrue result ↔ All (IsUseKnown image.now) uses.now }
{
    for one in uses {
        if !is_known(image, one.kind, one.token) {
            return false;
        }
    }
    true
}

/// Whether each token names a type.
fn are_types(image: &Image<'_>, tokens: &[u32]) -> bool
    ensures { IsTrue result ↔ All (IsTypeToken image.now) tokens.now }
{
    for token in tokens {
        if !is_type(image, *token) {
            return false;
        }
    }
    true
}
