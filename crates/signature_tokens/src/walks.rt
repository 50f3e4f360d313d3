ghost use Rattle.std.specs.Prelude.{◌≡◌};
ghost use Rattle.signature_tokens.specs.Collecting.{Gives, field_at, locals_at, returned_at, method_at, property_at};

use crate::stop::Stop;
use crate::types::{list_at, type_at, types_at};
use il_base::Numbers;
use sig_codec::byte_at;
use signature_facts::{counts_at, property_count_at};
use type_terms::MAX_DEPTH;

/// The tokens of a field are put into the list (ECMA-335 II.23.2.4).
#[tactic(auto, unfolding(crate::specs::Collecting::field_at))]
pub(crate) fn field_at<'a>(bytes: &'a [u8], into: &mut Numbers) -> Result<&'a [u8], Stop>
    ensures { Gives (λ rest. (into.new, rest.now)) result (field_at into.old bytes.now) }
{
    let (_, rest) = byte_at(bytes).ok_or(Stop::Unspelled)?;
    type_at(MAX_DEPTH, rest, into)
}

/// Those of locals, or of the arguments of a generic method (ECMA-335 II.23.2.6, II.23.2.15).
#[tactic(auto, unfolding(crate::specs::Collecting::locals_at))]
pub(crate) fn locals_at<'a>(bytes: &'a [u8], into: &mut Numbers) -> Result<&'a [u8], Stop>
    ensures { Gives (λ rest. (into.new, rest.now)) result (locals_at into.old bytes.now) }
{
    let (_, rest) = byte_at(bytes).ok_or(Stop::Unspelled)?;
    list_at(MAX_DEPTH, rest, into)
}

/// Those of a result and of so many parameters.
#[tactic(auto, unfolding(crate::specs::Collecting::returned_at))]
fn returned_at<'a>(count: u32, bytes: &'a [u8], into: &mut Numbers) -> Result<&'a [u8], Stop>
    ensures { Gives (λ rest. (into.new, rest.now)) result (returned_at count into.old bytes.now) }
{
    let rest = type_at(MAX_DEPTH, bytes, into)?;
    types_at(MAX_DEPTH, count, rest, into)
}

/// Those of a method (ECMA-335 II.23.2.1, II.23.2.2).
#[tactic(auto, unfolding(crate::specs::Collecting::method_at))]
pub(crate) fn method_at<'a>(bytes: &'a [u8], into: &mut Numbers) -> Result<&'a [u8], Stop>
    ensures { Gives (λ rest. (into.new, rest.now)) result (method_at into.old bytes.now) }
{
    let (_, count, rest) = counts_at(bytes).ok_or(Stop::Unspelled)?;
    returned_at(count, rest, into)
}

/// Those of a property (ECMA-335 II.23.2.5).
#[tactic(auto, unfolding(crate::specs::Collecting::property_at))]
pub(crate) fn property_at<'a>(bytes: &'a [u8], into: &mut Numbers) -> Result<&'a [u8], Stop>
    ensures { Gives (λ rest. (into.new, rest.now)) result (property_at into.old bytes.now) }
{
    let (count, rest) = property_count_at(bytes).ok_or(Stop::Unspelled)?;
    returned_at(count, rest, into)
}
