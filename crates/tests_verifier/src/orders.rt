//! Joins with their steps, and a type without a parent.

ghost use Rattle.std.specs.Prelude.{length, IfOk};
ghost use Rattle.type_hierarchy.specs.Meaning.{IsWithin};
ghost use Rattle.type_hierarchy.specs.World.{Stays};

use crate::worlds::{class, small_world, vector};
use assignability::types::World;
use assignability::{StackType, id_of, join, keys_keep_their_types, parent, stack_of};
use il_base::Steps;
use il_lists::NoMemory;
use std::alloc::Global;
use std::test::Fail;
use type_terms::{Prim, SigType};

/// Whether two stack types are references to one type.
fn is_reference_to(s: &StackType, t: &StackType) -> bool {
    match (s, t) {
        (StackType::Ref(a), StackType::Ref(b)) => id_of(a) == id_of(b),
        _ => false,
    }
}

/// Whether the first two types merge to the third, which is a reference, in one step.
fn merge(w: &mut World, a: &SigType, b: &SigType, to: &SigType) -> Result<bool, NoMemory> {
    keys_keep_their_types();
    let s = stack_of(w, a)?;
    let t = stack_of(w, b)?;
    let mut steps = Steps::new();
    let joined = join(w, &s, &t, &mut steps)?;
    let u = stack_of(w, to)?;
    Ok(is_reference_to(&joined, &u) && steps.count() == 1)
}

/// B and A merge to A.
fn base_holds(w: &mut World, alloc: Global) -> Result<bool, NoMemory> {
    let (a, b) = (class(alloc, "A")?, class(alloc, "B")?);
    merge(w, &b, &a, &a)
}

/// A and I merge to Object.
fn interface_holds(w: &mut World, alloc: Global) -> Result<bool, NoMemory> {
    let (a, i) = (class(alloc, "A")?, class(alloc, "I")?);
    merge(w, &a, &i, &SigType::Prim(Prim::Object))
}

/// A and int32[] merge to Object.
fn vector_holds(w: &mut World, alloc: Global) -> Result<bool, NoMemory> {
    let (a, ints) = (class(alloc, "A")?, vector(alloc, Prim::I4)?);
    merge(w, &a, &ints, &SigType::Prim(Prim::Object))
}

/// Whether Object has no parent.
fn object_holds(w: &mut World) -> Result<bool, NoMemory> {
    let mut steps = Steps::new();
    let object = stack_of(w, &SigType::Prim(Prim::Object))?;
    let above = parent(w, &object, &mut steps)?;
    Ok(above.is_none())
}

fn all_hold(w: &mut World, alloc: Global) -> Result<bool, NoMemory> {
    Ok(
        base_holds(w, alloc)?
            && interface_holds(w, alloc)?
            && vector_holds(w, alloc)?
            && object_holds(w)?,
    )
}

fn orders_hold(alloc: Global) -> Result<bool, NoMemory> {
    match small_world(alloc)? {
        Some(mut w) => all_hold(&mut w, alloc),
        None => Ok(false),
    }
}

#[test]
fn what_two_merge_to(rt: HostRuntime) -> Result<(), Fail> {
    assert!(rt; orders_hold(rt.alloc())?);
    Ok(())
}
