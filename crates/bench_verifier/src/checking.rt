//! A source, read and checked as far as a stage.

ghost use Rattle.std.specs.Prelude.{◌≡◌, IfOk};
ghost use Rattle.type_hierarchy.specs.Scopes.{Sources};
ghost use Rattle.type_order.specs.Worlds.{IsFit, IsWorldSince};

use crate::fault::Fault;
use all_bodies::check_all;
use assembly_tree::{Assembly, weight};
use assignability::{world, worlds_go_on};
use il_base::Items;
use source_assembly::assembly_of;
use std::fs;
use type_order::types::World;

/// How far a source is checked.
#[derive(Debug, Clone, Copy, PartialEq, Eq, Drop)]
pub enum Stage {
    /// To the assembly that it denotes.
    Assembly,
    /// To the world of its types.
    World,
    /// To the failures of all bodies.
    Bodies,
}

impl Stage {
    /// The stage with this number, from 1 to 3.
    pub fn numbered(word: &str) -> Option<Stage> {
        match word {
            "1" => Some(Stage::Assembly),
            "2" => Some(Stage::World),
            "3" => Some(Stage::Bodies),
            _ => None,
        }
    }
}

/// How many bytes a source may have.
const LONGEST: usize = 0x800_0000;

/// How much an assembly of a world may weigh.
const HEAVIEST: u64 = 0x400_0000;

/// The assembly that a file's source denotes.
fn read_assembly(rt: &HostRuntime, name: &str) -> Result<Assembly, Fault>
    ensures { IfOk result IsFit }
{
    let Ok(source) = fs::read_to_string(rt, name) else {
        return Err(Fault::Unread);
    };
    if source.len() > LONGEST {
        return Err(Fault::Faulty);
    }
    let assembly = assembly_of(rt.alloc(), source.as_bytes())?;
    if weight(&assembly) > HEAVIEST {
        return Err(Fault::Faulty);
    }
    Ok(assembly)
}

/// Reads the source in a file and checks it as far as a stage. Prints the number of failures, where bodies are checked.
///
/// # Errors
///
/// The file can't be read, its source has a fault or is too large, a type is its own ancestor, the number couldn't be written, or
/// there was no memory.
pub fn check_named(rt: &HostRuntime, name: &str, stage: Stage) -> Result<(), Fault> {
    let image = read_assembly(rt, name)?;
    if stage == Stage::Assembly {
        return Ok(());
    }
    check_assembly(rt, &image, stage)
}

/// Makes the world of an assembly, and checks its bodies where that is asked for.
fn check_assembly(rt: &HostRuntime, image: &Assembly, stage: Stage) -> Result<(), Fault>
    requires { IsFit image.now }
{
    worlds_go_on();
    let references = Items::new(rt.alloc());
    match world(rt.alloc(), image, &references) {
        Ok(mut w) => check_world(rt, image, &mut w, stage),
        Err(fault) => Err(Fault::from(fault)),
    }
}

/// Checks the bodies of an image by its world where that is asked for, and prints the number of failures.
fn check_world(rt: &HostRuntime, image: &Assembly, w: &mut World, stage: Stage) -> Result<(), Fault>
    ghost sources: { Sources }
    requires image { sources.image ≡ image.now }
    requires world { IsWorldSince sources w.old }
{
    if stage == Stage::World {
        return Ok(());
    }
    let report = check_all(rt.alloc(), image, w)?;
    rt.println(report.len())?;
    Ok(())
}
