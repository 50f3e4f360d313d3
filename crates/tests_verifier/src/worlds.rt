//! A world of three types, and names of types in it.

ghost use Rattle.std.specs.Prelude.{IsTrue};
ghost use Rattle.assembly_tree.specs.WellFormed.{is_well_formed};

use assembly_tree::{Assembly, weight};
use assignability::types::World;
use assignability::{WorldFault, world};
use il_lists::{Boxed, Items, NoMemory, Text};
use source_assembly::{ReadFault, assembly_of};
use std::alloc::Global;
use type_terms::{Path, Prim, Scope, SigType, TypeId, TypeName};

/// Class A implements I, and B extends A.
static SMALL: &str = ".assembly extern mscorlib { } .assembly Small { }\n\
.class interface public abstract I { } .class public A implements I { } .class public B extends A { }";

/// The world of these classes, or None where there is none.
pub fn small_world(alloc: Global) -> Result<Option<Box<World>>, NoMemory> {
    match assembly_of(alloc, SMALL.as_bytes()) {
        Ok(a) => world_of(alloc, &a),
        Err(ReadFault::NoMemory) => Err(NoMemory),
        Err(ReadFault::Faulty(_)) => Ok(None),
    }
}

fn world_of(alloc: Global, a: &Assembly) -> Result<Option<Box<World>>, NoMemory>
    requires { IsTrue (is_well_formed a.now) }
{
    if weight(a) > 0x400_0000 {
        return Ok(None);
    }
    match world(alloc, a, &Items::new(alloc)) {
        Ok(w) => Ok(Some(Box::new(alloc, w)?)),
        Err(WorldFault::NoMemory) => Err(NoMemory),
        Err(WorldFault::Cyclic { .. }) => Ok(None),
    }
}

/// The class of that name in the assembly itself.
pub fn class(alloc: Global, name: &str) -> Result<SigType, NoMemory> {
    let space = Text::new(alloc, "")?;
    let name = Text::new(alloc, name)?;
    let path = Path::new(alloc, TypeId { space, name })?;
    Ok(SigType::Class(TypeName {
        scope: Scope::Here,
        path,
    }))
}

/// A list of a primitive type, as `int32[]`.
pub fn vector(alloc: Global, of: Prim) -> Result<SigType, NoMemory> {
    Ok(SigType::SzArray(Boxed::new(alloc, SigType::Prim(of))?))
}
