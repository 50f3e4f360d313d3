//! Whether a slot is filled.
ghost use Rattle.std.specs.Prelude.{◌≡◌, ◌<◌, ◌↔◌, length, IsTrue, IfOk};
ghost use Rattle.assembly_tree.specs.declared.assembly.Assembly.{Assembly as Tree};
ghost use Rattle.type_hierarchy.specs.World.{hierarchy, type_at, Stays};
ghost use Rattle.class_model.specs.Filled.{IsFilled};
ghost use Rattle.class_notes.specs.Reading.{HasRead, IsOwnFilled};

use assembly_tree::Method;
use class_members::{Facts, filled_is_offered, held_is_found, is_offered, wants_of};
use il_lists::NoMemory;
use std::alloc::Global;
use type_order::types::World;
use type_order::{TypeKey, keys_keep_their_types, parent_key};

/// Whether the type of `at` itself offers what fills the slot of the interface.
pub fn is_own_filled(
    alloc: Global,
    w: &mut World,
    facts: &Facts,
    at: &TypeKey,
    face: &TypeKey,
    slot: &Method,
) -> Result<bool, NoMemory>
    requires at { at.now < length w.old.nodes }
    requires face { face.now < length w.old.nodes }
    ensures ok { (a : Tree) → HasRead a (hierarchy w.old) w.old.nodes facts.now (type_at w.old at.now) → IfOk result (λ r. IsTrue r ↔ IsOwnFilled a (hierarchy w.old) (type_at w.old at.now) (type_at w.old face.now) slot.now) }
    ensures stays { Stays w.old w.new }
{
    keys_keep_their_types();
    let mut wanted = wants_of(alloc, w, face, slot)?;
    let _ = w.pool().len();
    Ok(is_offered(facts, &mut wanted, at))
}

/// Whether the type of `at` has a method for the slot of the interface.
pub fn is_filled(
    alloc: Global,
    w: &mut World,
    facts: &Facts,
    at: &TypeKey,
    face: &TypeKey,
    slot: &Method,
) -> Result<bool, NoMemory>
    requires at { at.now < length w.old.nodes }
    requires face { face.now < length w.old.nodes }
    ensures ok { (a : Tree) → HasRead a (hierarchy w.old) w.old.nodes facts.now (type_at w.old at.now) → IfOk result (λ r. IsTrue r ↔ IsFilled a (hierarchy w.old) (type_at w.old at.now) (type_at w.old face.now) slot.now) }
    ensures stays { Stays w.old w.new }
{
    keys_keep_their_types();
    let mut wanted = wants_of(alloc, w, face, slot)?;
    let mut at = *at;
    'climb: for _ in 0..u64::MAX {
        let _ = w.pool().len();
        if is_offered(facts, &mut wanted, &at) {
            return Ok(true);
        }
        match parent_key(w, &at)? {
            Some(parent) => at = parent,
            None => return Ok(false),
        }
    }
    // No memory holds so many keys.
    Err(NoMemory)
}
