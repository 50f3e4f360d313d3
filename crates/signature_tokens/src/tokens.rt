ghost use Rattle.std.specs.Prelude.{◌≡◌, IfOk};
ghost use Rattle.std.specs.List.{flat_map};
ghost use Rattle.std.specs.Option.{option_map};
ghost use Rattle.sig_codec.specs.Reading.{whole_type, whole_field, whole_locals, whole_instantiation, whole_method, whole_property};
ghost use Rattle.image_model.specs.Tokens.{marked, type_tokens, sig_tokens};
ghost use Rattle.signature_tokens.specs.Collecting.{EndsAs};
ghost use Rattle.signature_tokens.specs.Tells.{Tells};

use crate::each_named::EachNamed;
use crate::stop::Stop;
use crate::{types, walks};
use il_base::{NoMemory, Numbers};
use signature_facts::{
    scan_field, scan_instantiation, scan_locals, scan_method, scan_property, scan_type,
};
use type_terms::MAX_DEPTH;

/// Puts the tokens of the type that all of `bytes` spell behind those of the list, in the order of their spelling, and
/// answers true; false, and the list as it was, exactly where they spell no type with each token known by a plain name
/// (ECMA-335 II.23.2.14).
pub fn type_tokens(bytes: &[u8], into: &mut Numbers) -> Result<bool, NoMemory>
    ensures { IfOk result (λ spelled. Tells into.old into.new spelled (option_map type_tokens (whole_type marked bytes.now))) }
{
    if scan_type(bytes, &EachNamed).is_none() {
        return Ok(false);
    }
    is_walked(types::type_at(MAX_DEPTH, bytes, into))
}

/// The same of a field (ECMA-335 II.23.2.4).
pub fn field_tokens(bytes: &[u8], into: &mut Numbers) -> Result<bool, NoMemory>
    ensures { IfOk result (λ spelled. Tells into.old into.new spelled (option_map type_tokens (whole_field marked bytes.now))) }
{
    if scan_field(bytes, &EachNamed).is_none() {
        return Ok(false);
    }
    is_walked(walks::field_at(bytes, into))
}

/// The same of a method (ECMA-335 II.23.2.1, II.23.2.2).
pub fn method_tokens(bytes: &[u8], into: &mut Numbers) -> Result<bool, NoMemory>
    ensures { IfOk result (λ spelled. Tells into.old into.new spelled (option_map sig_tokens (whole_method marked bytes.now))) }
{
    if scan_method(bytes, &EachNamed).is_none() {
        return Ok(false);
    }
    is_walked(walks::method_at(bytes, into))
}

/// The same of a property (ECMA-335 II.23.2.5).
pub fn property_tokens(bytes: &[u8], into: &mut Numbers) -> Result<bool, NoMemory>
    ensures { IfOk result (λ spelled. Tells into.old into.new spelled (option_map sig_tokens (whole_property marked bytes.now))) }
{
    if scan_property(bytes, &EachNamed).is_none() {
        return Ok(false);
    }
    is_walked(walks::property_at(bytes, into))
}

/// The same of locals (ECMA-335 II.23.2.6).
pub fn locals_tokens(bytes: &[u8], into: &mut Numbers) -> Result<bool, NoMemory>
    ensures { IfOk result (λ spelled. Tells into.old into.new spelled (option_map (λ ts. flat_map type_tokens ts) (whole_locals marked bytes.now))) }
{
    if scan_locals(bytes, &EachNamed).is_none() {
        return Ok(false);
    }
    is_walked(walks::locals_at(bytes, into))
}

/// The same of the arguments of a generic method (ECMA-335 II.23.2.15).
pub fn instantiation_tokens(bytes: &[u8], into: &mut Numbers) -> Result<bool, NoMemory>
    ensures { IfOk result (λ spelled. Tells into.old into.new spelled (option_map (λ ts. flat_map type_tokens ts) (whole_instantiation marked bytes.now))) }
{
    if scan_instantiation(bytes, &EachNamed).is_none() {
        return Ok(false);
    }
    is_walked(walks::locals_at(bytes, into))
}

/// Whether a walk came to its end.
fn is_walked(walked: Result<&[u8], Stop>) -> Result<bool, NoMemory>
    ensures { EndsAs walked.entry result }
{
    match walked {
        Ok(_) => Ok(true),
        Err(Stop::Unspelled) => Ok(false),
        Err(Stop::Memory) => Err(NoMemory),
    }
}
