ghost use Rattle.std.specs.Prelude.{◌≡◌, ◌↔◌, ◌-◌, ◌<◌, ◌≤◌, ◌%◌, ◌⊎◌, IsTrue, IfOk, OnOk, length};
ghost use Rattle.std.specs.Int.{bit_at};
ghost use Rattle.image_model.specs.Bodies.{HasCodeType};
ghost use Rattle.image_model.specs.Columns.{method_impl_flags, method_rva};
ghost use Rattle.image_model.specs.Rows.{count_of, HasRow};
ghost use Rattle.method_states.specs.States.{AreStates, AreStatesTo, AreNamedByBodies, AreNamedTo, AreSeen, HasState};

use crate::body_look::look;
use crate::{BodyState, RowMarks};
use hash_places::HashPlaces;
use il_base::NoMemory;
use il_lists::Items;
use image_streams::Image;
use std::alloc::Global;

/// What is said of the methods of an image by their bodies.
#[derive(Drop)]
pub struct MethodStates {
    /// For each row of MethodDef, in order.
    pub states: Items<BodyState>,
    /// The rows that bodies without a fault of I17 to I19 name by their locals, an operand or a catch.
    pub named: RowMarks,
}

/// What is said of each method of an image by the bytes of its body, and the rows that bodies name (ECMA-335 II.22.26, II.25.4).
/// The body at an RVA is looked at once.
pub fn look_at_bodies(alloc: Global, image: &Image<'_>) -> Result<MethodStates, NoMemory>
    ensures states { IfOk result (λ it. AreStates image.now it.states) }
    ensures named { IfOk result (λ it. AreNamedByBodies image.now it.named) }
{
    let count = image.tables().rows(0x06);
    let mut named = RowMarks::new(alloc, image)?;
    let states = states_of(alloc, image, count, &mut named)?;
    Ok(MethodStates { states, named })
}

/// What is said of the first so many methods, with the rows that their bodies name marked.
fn states_of(
    alloc: Global,
    image: &Image<'_>,
    count: u32,
    named: &mut RowMarks,
) -> Result<Items<BodyState>, NoMemory>
    requires count { count ≡ count_of image.now 0x06 }
    requires named { AreNamedTo image.now 0 named.old }
    ensures states { IfOk result (λ states. AreStatesTo image.now count states) }
    ensures named { OnOk result (AreNamedTo image.now count named.new) }
{
    let mut seen = HashPlaces::new(alloc);
    let mut states = Items::with_capacity(alloc, count as usize)?;
    for method in 0..count {
        let state = state_of(
            alloc,
            image,
            method + 1,
            states.as_slice(),
            &mut seen,
            named,
        )?;
        states.push(state)?;
    }
    Ok(states)
}

/// What is said of a method, by what is said of those above.
fn state_of(
    alloc: Global,
    image: &Image<'_>,
    method: u32,
    states: &[BodyState],
    seen: &mut HashPlaces,
    named: &mut RowMarks,
) -> Result<BodyState, NoMemory>
    requires there { HasRow image.now 0x06 method }
    requires states { AreStatesTo image.now (method - 1) states.now }
    requires seen { AreSeen image.now (method - 1) seen.old }
    requires named { AreNamedTo image.now (method - 1) named.old }
    ensures state { IfOk result (HasState image.now method) }
    ensures seen { OnOk result (AreSeen image.now method seen.new) }
    ensures named { OnOk result (AreNamedTo image.now method named.new) }
{
    if !has_code_type(image, method) {
        return Ok(BodyState::Header);
    }
    let rva = rva_of(image, method);
    if rva == 0 {
        return Ok(BodyState::Nothing);
    }
    if let Some(first) = seen.get(u64::from(rva)) {
        return Ok(states[first - 1].again());
    }
    seen.insert(u64::from(rva), method as usize)?;
    let state = look(alloc, image, rva, named)?;
    Ok(state)
}

/// The RVA of a method.
fn rva_of(image: &Image<'_>, method: u32) -> u32
    requires { HasRow image.now 0x06 method }
    ensures { result ≡ method_rva image.now method }
{
    image.tables().cell(0x06, method, 0)
}

/// Whether the code of a method is IL or the runtime's, and managed (ECMA-335 II.23.1.11).
fn has_code_type(image: &Image<'_>, method: u32) -> bool
    requires { HasRow image.now 0x06 method }
    ensures { IsTrue result ↔ HasCodeType image.now method }
{
    let flags = image.tables().cell(0x06, method, 1);
    (flags % 4 == 0 || flags % 4 == 3) && flags / 4 % 2 == 0
}
