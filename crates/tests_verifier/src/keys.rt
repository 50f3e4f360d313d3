//! Keys and what they answer.

ghost use Rattle.std.specs.Prelude.{◌<◌, length, IfOk};
ghost use Rattle.type_hierarchy.specs.World.{Stays};

use crate::worlds::{class, small_world, vector};
use assignability::types::World;
use assignability::{
    StackType, TypeKey, boxed_of, element_of, id_of, interfaces_of, key_of, pointer_to, st_of,
    term_of,
};
use il_lists::{Items, NoMemory};
use std::alloc::Global;
use std::test::Fail;
use type_terms::{Prim, Scope, SigType};

/// The key of a type without arguments.
fn plain_key(w: &mut World, alloc: Global, t: &SigType) -> Result<TypeKey, NoMemory>
    ensures key { IfOk result (λ k. k < length w.new.nodes) }
    ensures stays { Stays w.old w.new }
{
    key_of(w, t, &Items::new(alloc), &Items::new(alloc))
}

/// Whether it is a boxed value of the key's type.
fn is_boxed(s: &StackType, k: &TypeKey) -> bool {
    match s {
        StackType::Boxed(of) => id_of(of) == id_of(k),
        _ => false,
    }
}

/// Whether it is a pointer to the key's type.
fn points_to(s: &StackType, k: &TypeKey) -> bool {
    match s {
        StackType::Ptr(of) => id_of(of) == id_of(k),
        _ => false,
    }
}

/// A boxed int32.
fn box_holds(w: &mut World, alloc: Global) -> Result<bool, NoMemory> {
    let int = plain_key(w, alloc, &SigType::Prim(Prim::I4))?;
    let boxed = boxed_of(w, &int)?;
    Ok(is_boxed(&boxed, &int))
}

/// A pointer to int8 for uint8.
fn pointer_holds(w: &mut World, alloc: Global) -> Result<bool, NoMemory> {
    let byte = plain_key(w, alloc, &SigType::Prim(Prim::U1))?;
    let pointer = pointer_to(w, &byte)?;
    let signed = plain_key(w, alloc, &SigType::Prim(Prim::I1))?;
    Ok(points_to(&pointer, &signed))
}

/// The element of int32[] is int32, and int32 has none.
fn element_holds(w: &mut World, alloc: Global) -> Result<bool, NoMemory> {
    let ints = plain_key(w, alloc, &vector(alloc, Prim::I4)?)?;
    let s = st_of(w, &ints)?;
    let of_vector = element_of(w, &s)?;
    let int = plain_key(w, alloc, &SigType::Prim(Prim::I4))?;
    let of_number = element_of(w, &StackType::I4)?;
    Ok(matches!(of_vector, Some(k) if id_of(&k) == id_of(&int)) && of_number.is_none())
}

/// int32[] twice has one id, and the second time adds nothing.
fn twice_holds(w: &mut World, alloc: Global) -> Result<bool, NoMemory> {
    let ints = vector(alloc, Prim::I4)?;
    let first = plain_key(w, alloc, &ints)?;
    let before = w.pool().len();
    let second = plain_key(w, alloc, &ints)?;
    Ok(id_of(&first) == id_of(&second) && w.pool().len() == before)
}

/// Whether it is the class of that name in the assembly itself.
fn is_class_here(t: &SigType, name: &str) -> bool {
    match t {
        SigType::Class(of) => {
            matches!(of.scope, Scope::Here)
                && of.path.len() == 1
                && of.path.at(0).space.is_empty()
                && of.path.at(0).name.as_bytes() == name.as_bytes()
        }
        _ => false,
    }
}

/// Whether the key's type is the class of that name in the assembly itself.
fn names_class(w: &World, alloc: Global, k: &TypeKey, name: &str) -> Result<bool, NoMemory>
    requires { k.now < length w.now.nodes }
{
    let t = term_of(alloc, w, k)?;
    Ok(is_class_here(&t, name))
}

/// A has the one interface I.
fn interfaces_hold(w: &mut World, alloc: Global) -> Result<bool, NoMemory> {
    let key = plain_key(w, alloc, &class(alloc, "A")?)?;
    let found = interfaces_of(w, &key)?;
    let interface = plain_key(w, alloc, &class(alloc, "I")?)?;
    let is_one = match found.as_slice() {
        [one] => id_of(one) == id_of(&interface),
        _ => false,
    };
    Ok(is_one && names_class(w, alloc, &interface, "I")?)
}

fn all_hold(w: &mut World, alloc: Global) -> Result<bool, NoMemory> {
    Ok(
        box_holds(w, alloc)?
            && pointer_holds(w, alloc)?
            && element_holds(w, alloc)?
            && twice_holds(w, alloc)?
            && interfaces_hold(w, alloc)?,
    )
}

fn keys_hold(alloc: Global) -> Result<bool, NoMemory> {
    match small_world(alloc)? {
        Some(mut w) => all_hold(&mut w, alloc),
        None => Ok(false),
    }
}

#[test]
fn keys_of_types(rt: HostRuntime) -> Result<(), Fail> {
    assert!(rt; keys_hold(rt.alloc())?);
    Ok(())
}
