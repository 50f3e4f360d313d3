ghost use Rattle.std.specs.Prelude.{◌≡◌, ◌≢◌, ◌↔◌, ◌-◌, ◌≤◌, ◌^◌, true, false, IsTrue, IfOk, MatchOption, length};
ghost use Rattle.body_outlines.specs.Outlines.{Outlines};
ghost use Rattle.body_outlines.specs.declared.outlined.BodyOutline.{BodyOutline};
ghost use Rattle.image_model.specs.Bodies.{body_of};
ghost use Rattle.image_model.specs.Columns.{method_rva};
ghost use Rattle.image_model.specs.Rows.{HasRow};
ghost use Rattle.method_states.specs.States.{AreStates, HasState, HasGoodBody};
ghost use Rattle.body_tokens.specs.Tokens.{AreKnown, KnownTo, AreAllKnown, IsFirstUnknown};

use crate::whole::are_known;
use body_codec::BodyFault;
use body_outlines::outline;
use il_base::NoMemory;
use image_streams::Image;
use method_states::BodyState;
use std::alloc::Global;

/// The first method with a token in its body that doesn't name what is wanted (I20), where the demands before hold; None exactly
/// where there is none. A body that a method above has too isn't looked at again.
pub fn first_unknown(
    alloc: Global,
    image: &Image<'_>,
    states: &[BodyState],
) -> Result<Option<u32>, NoMemory>
    requires small { length image.now ≤ 2 ^ 26 }
    requires states { AreStates image.now states.now }
    ensures { IfOk result (λ first. MatchOption first (AreAllKnown image.now) (IsFirstUnknown image.now)) }
{
    let count = image.tables().rows(0x06);
    for row in 0..count {
        let method = row + 1;
        let state = states[row as usize];
        if !is_met(alloc, image, method, state)? {
            return Ok(Some(method));
        }
    }
    Ok(None)
}

/// Whether a method meets the demand, where those above do.
fn is_met(alloc: Global, image: &Image<'_>, method: u32, state: BodyState) -> Result<bool, NoMemory>
    requires small { length image.now ≤ 2 ^ 26 }
    requires there { HasRow image.now 0x06 method }
    requires state { HasState image.now method state }
    ensures met { IfOk result (λ met. met ≡ true → KnownTo image.now (method - 1) → KnownTo image.now method) }
    ensures unmet { IfOk result (λ met. met ≡ false → KnownTo image.now (method - 1) → IsFirstUnknown image.now method) }
{
    let _tables = image.tables();
    if !is_good(state) {
        return Ok(true);
    }
    let known = has_known_tokens(alloc, image, method)?;
    Ok(known)
}

/// Whether a body is in order, and no method above has it.
fn is_good(state: BodyState) -> bool
    ensures { IsTrue result ↔ (state ≡ BodyState.Good) }
{
    matches!(state, BodyState::Good)
}

/// Whether each token of a method's body, but that of its locals, names what is wanted.
fn has_known_tokens(alloc: Global, image: &Image<'_>, method: u32) -> Result<bool, NoMemory>
    requires there { HasRow image.now 0x06 method }
    requires good { HasGoodBody image.now method }
    ensures { IfOk result (λ b. (o : BodyOutline) → Outlines (body_of image.now method) o → IsTrue b ↔ AreKnown image.now o) }
{
    let bytes = body_bytes(image, method);
    match outline(alloc, bytes) {
        Ok(told) => Ok(are_known(image, &told)),
        Err(fault) => known_by(fault),
    }
}

/// What can be read from the RVA of a method on.
fn body_bytes<'a>(image: &Image<'a>, method: u32) -> &'a [u8]
    requires { HasRow image.now 0x06 method }
    ensures { result.now ≡ body_of image.now method }
{
    match image.pe().at_rva(rva_of(image, method)) {
        Some(bytes) => bytes,
        None => &[],
    }
}

/// The RVA of a method.
fn rva_of(image: &Image<'_>, method: u32) -> u32
    requires { HasRow image.now 0x06 method }
    ensures { result ≡ method_rva image.now method }
{
    image.tables().cell(0x06, method, 0)
}

/// Whether tokens are known where there is no outline: a body in order has one, so memory is wanting.
fn known_by(fault: BodyFault) -> Result<bool, NoMemory>
    ensures { IfOk result (λ _. fault ≢ BodyFault.NoMemory) }
{
    match fault {
        BodyFault::NoMemory => Err(NoMemory),
        _ => Ok(false),
    }
}
