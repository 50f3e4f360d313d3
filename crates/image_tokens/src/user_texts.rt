//! The texts that instructions load, as user strings and their tokens (ECMA-335 II.24.2.4, III.1.9,
//! III.4.16).
ghost use Rattle.std.specs.Prelude.{◌≡◌, ℕ, ◌+◌, ◌*◌, ◌^◌, ◌<◌, ◌≤◌, [], ◌∷◌, length, IfOk, OnOk};
ghost use Rattle.image_tokens.specs.Loaded.{AreUnits, Loads};
ghost use Rattle.image_tokens.specs.Members.{Leaves, HasLoaded};
ghost use Rattle.image_tokens.specs.References.{size, AreKnown};
ghost use Rattle.image_tokens.specs.Units.{bytes_of_units, HoldsUnits, KeepsUnits, IsLoadable};

use crate::heap_contents::bytes_of_units;
use crate::references::References;
use crate::tokens::{USER_STRING, token_of};
use heaps::{UserHeap, one_content_at_an_index};
use il_base::{NoMemory, Units};
use std::alloc::Global;

/// The index of a text, which the heap gets where it lacks it.
pub fn add_units(alloc: Global, user: &mut UserHeap, units: &Units) -> Result<u32, NoMemory>
    requires { length user.old.bytes + 2 * length units.now + 8 < 2 ^ 29 }
    ensures loads { OnOk result (Loads user.old user.new (units.now ∷ [])) }
    ensures holds { IfOk result (HoldsUnits user.new (bytes_of_units units.now)) }
    ensures same { (index : ℕ) → HoldsUnits user.old (bytes_of_units units.now) index → user.new ≡ user.old }
    ensures known { IfOk result (λ found. (index : ℕ) → HoldsUnits user.old (bytes_of_units units.now) index → found ≡ index) }
    ensures keeps { KeepsUnits user.old user.new }
{
    one_content_at_an_index();
    units_fit(units.as_slice());
    let bytes = bytes_of_units(alloc, units)?;
    user.add(bytes.as_slice())
}

/// Units are below 2^16. It does nothing when it is called.
fn units_fit(_units: &[u16])
    ensures { AreUnits _units.now }
{}

/// The token of a text that stands in the heap, which is given to it where it has none.
pub fn refer_loaded<'a>(
    alloc: Global,
    refs: &mut References<'a>,
    units: &'a Units,
) -> Result<u32, NoMemory>
    requires known { AreKnown refs.old }
    requires loadable { IsLoadable refs.old.heaps.user units.now }
    requires room { size refs.old ≤ 2 ^ 26 }
    ensures { IfOk result (Leaves (HasLoaded units.now) refs.old refs.new 0) }
{
    if let Some(token) = refs.known.texts.find(units) {
        return Ok(token);
    }
    units_fit(units.as_slice());
    let index = add_units(alloc, &mut refs.heaps.user, units)?;
    refs.known.texts.give(units, token_of(USER_STRING, index))
}
