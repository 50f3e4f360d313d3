ghost use Rattle.std.specs.Prelude.{◌≡◌, ◌↔◌, ◌-◌, IsTrue, IfOk, OnOk};
ghost use Rattle.image_model.specs.Naming.{NamesText};
ghost use Rattle.image_model.specs.Rows.{HasRow, count_of};
ghost use Rattle.method_states.specs.States.{AreStates, HasState, HasGoodBody};
ghost use Rattle.kept_members.specs.Maps.{all_of, Adds};
ghost use Rattle.kept_texts.specs.Texts.{HasTextsOf, HasTextsTo, AreTextsKept};

use crate::operands::keep_operands;
use body_codec::BodyFault;
use body_outlines::outline;
use il_base::{NoMemory, Units};
use image_streams::Image;
use kept_names::Kept;
use method_states::BodyState;
use row_parts::bytes_at;
use std::alloc::Global;

/// The user strings that operands in the bodies of methods name, by their tokens, each once (ECMA-335 II.24.2.4, III.4.16). A body
/// that a method above has too isn't looked at again.
///
/// # Errors
///
/// There was no memory for them.
pub fn keep_texts(
    alloc: Global,
    image: &Image<'_>,
    states: &[BodyState],
) -> Result<Kept<Units>, NoMemory>
    requires { AreStates image.now states.now }
    ensures { IfOk result (λ it. AreTextsKept image.now (all_of it)) }
{
    let mut texts = Kept::new(alloc);
    keep_of_methods(alloc, image, states, &mut texts)?;
    Ok(texts)
}

/// Keeps those of each method.
fn keep_of_methods(
    alloc: Global,
    image: &Image<'_>,
    states: &[BodyState],
    texts: &mut Kept<Units>,
) -> Result<(), NoMemory>
    requires { AreStates image.now states.now }
    ensures adds { OnOk result (Adds (NamesText image.now) (all_of texts.old) (all_of texts.new)) }
    ensures has { OnOk result (HasTextsTo image.now (all_of texts.new) (count_of image.now 0x06)) }
{
    for row in 0..image.tables().rows(0x06) {
        keep_of_method(alloc, image, row + 1, states[row as usize], texts)?;
    }
    Ok(())
}

/// Keeps those of a method, where no method above has its body.
fn keep_of_method(
    alloc: Global,
    image: &Image<'_>,
    method: u32,
    state: BodyState,
    texts: &mut Kept<Units>,
) -> Result<(), NoMemory>
    requires there { HasRow image.now 0x06 method }
    requires state { HasState image.now method state }
    ensures adds { OnOk result (Adds (NamesText image.now) (all_of texts.old) (all_of texts.new)) }
    ensures has { OnOk result (HasTextsTo image.now (all_of texts.new) (method - 1) → HasTextsOf image.now (all_of texts.new) method) }
{
    if is_good(state) {
        return keep_of_body(alloc, image, method, texts);
    }
    Ok(())
}

/// Whether a body is in order, and no method above has it.
fn is_good(state: BodyState) -> bool
    ensures { IsTrue result ↔ (state ≡ BodyState.Good) }
{
    matches!(state, BodyState::Good)
}

/// Keeps those of a method whose body is in order.
#[tactic(auto, unfolding(metadata_tables::specs::Schema::schema))]
fn keep_of_body(
    alloc: Global,
    image: &Image<'_>,
    method: u32,
    texts: &mut Kept<Units>,
) -> Result<(), NoMemory>
    requires there { HasRow image.now 0x06 method }
    requires good { HasGoodBody image.now method }
    ensures adds { OnOk result (Adds (NamesText image.now) (all_of texts.old) (all_of texts.new)) }
    ensures has { OnOk result (HasTextsOf image.now (all_of texts.new) method) }
{
    let rva = image.tables().cell(0x06, method, 0);
    match outline(alloc, bytes_at(image, rva)) {
        Ok(told) => keep_operands(alloc, image, told.operands.as_slice(), texts),
        Err(fault) => match fault {
            BodyFault::NoMemory => Err(NoMemory),
            // The body is in order.
            _ => unreachable!(),
        },
    }
}
