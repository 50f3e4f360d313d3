//! Sources read from files.

ghost use Rattle.std.specs.Prelude.{◌≤◌, length, IfOk};
ghost use Rattle.std.specs.List.{All};
ghost use Rattle.type_order.specs.Worlds.{IsFit};

use crate::fault::Fault;
use crate::repeats::written_out;
use assembly_tree::{Assembly, weight};
use assignability::Assemblies;
use il_base::Items;
use source_assembly::assembly_of;
use std::fs;

/// How many bytes a source may have, with all lines written out.
const LONGEST: usize = 0x800_0000;

/// How much an assembly of a world may weigh.
const HEAVIEST: u64 = 0x400_0000;

/// An image and the assemblies that it refers to.
#[derive(Drop)]
pub struct Linked {
    pub image: Assembly,
    pub references: Assemblies,
}

/// What `FILE` or `FILE+LIBRARY` names.
///
/// # Errors
///
/// A file can't be read, its source has a fault, it or its assembly is too large, or there was no memory.
pub fn read_linked(rt: &HostRuntime, names: &str) -> Result<Linked, Fault>
    ensures image { IfOk result (λ linked. IsFit linked.image) }
    ensures references { IfOk result (λ linked. All IsFit linked.references) }
    ensures few { IfOk result (λ linked. length linked.references ≤ 8) }
{
    let mut references = Items::new(rt.alloc());
    match names.split_once('+') {
        Some((name, library)) => {
            let image = read_assembly(rt, name)?;
            references.push(read_assembly(rt, library)?)?;
            Ok(Linked { image, references })
        }
        None => {
            let image = read_assembly(rt, names)?;
            Ok(Linked { image, references })
        }
    }
}

/// The assembly that a file's source denotes.
fn read_assembly(rt: &HostRuntime, name: &str) -> Result<Assembly, Fault>
    ensures { IfOk result IsFit }
{
    let source = read_source(rt, name)?;
    if source.len() > LONGEST {
        return Err(Fault::Large);
    }
    let assembly = assembly_of(rt.alloc(), source.as_bytes())?;
    if weight(&assembly) > HEAVIEST {
        return Err(Fault::Large);
    }
    Ok(assembly)
}

fn read_source(rt: &HostRuntime, name: &str) -> Result<String, Fault> {
    match fs::read_to_string(rt, name) {
        Ok(text) => Ok(written_out(rt.alloc(), text.as_str())?),
        Err(_) => Err(Fault::Unread),
    }
}
