//! What is printed for a word.

ghost use Rattle.std.specs.Prelude.{◌≤◌, length};
ghost use Rattle.std.specs.List.{All};
ghost use Rattle.type_order.specs.Worlds.{IsFit};

use crate::checks::{show_counts, show_methods};
use crate::fault::Fault;
use crate::most::Most;
use crate::reading::{Linked, read_linked};
use assignability::{WorldFault, world, worlds_go_on};
use type_terms::TypeName;

/// Prints a word, and what the checker says of the methods of the source that it names, or behind `all:` of the whole source.
///
/// # Errors
///
/// The word doesn't fit, a source couldn't be read or has a fault, the answers couldn't be written, or there was no memory.
pub fn answer(rt: &HostRuntime, word: &str) -> Result<(), Fault> {
    rt.println(word)?;
    if let Some(names) = word.strip_prefix("all:") {
        let linked = read_linked(rt, names)?;
        return show_whole(rt, &linked);
    }
    let (names, most) = match word.split_once("<=") {
        Some((names, most)) => (names, Most::of_text(most).ok_or(Fault::Word)?),
        None => (word, Most::ANY),
    };
    let linked = read_linked(rt, names)?;
    show_world(rt, &linked, most)
}

/// Prints the answers for an image and its references.
fn show_world(rt: &HostRuntime, linked: &Linked, most: Most) -> Result<(), Fault>
    requires image { IsFit linked.now.image }
    requires references { All IsFit linked.now.references }
    requires few { length linked.now.references ≤ 8 }
{
    worlds_go_on();
    match world(rt.alloc(), &linked.image, &linked.references) {
        Ok(mut w) => show_methods(rt, linked, &mut w, most),
        Err(WorldFault::Cyclic { assembly, at }) => show_ring(rt, assembly, &at),
        Err(WorldFault::NoMemory) => Err(Fault::NoMemory),
    }
}

/// Prints how much an image declares, and the number of failures in all its bodies.
fn show_whole(rt: &HostRuntime, linked: &Linked) -> Result<(), Fault>
    requires image { IsFit linked.now.image }
    requires references { All IsFit linked.now.references }
    requires few { length linked.now.references ≤ 8 }
{
    worlds_go_on();
    match world(rt.alloc(), &linked.image, &linked.references) {
        Ok(mut w) => show_counts(rt, linked, &mut w),
        Err(WorldFault::Cyclic { assembly, at }) => show_ring(rt, assembly, &at),
        Err(WorldFault::NoMemory) => Err(Fault::NoMemory),
    }
}

/// Prints the type that is its own ancestor, and whether a reference declares it.
fn show_ring(rt: &HostRuntime, assembly: u32, at: &TypeName) -> Result<(), Fault> {
    let place = if assembly == 0 {
        ""
    } else {
        ", in the reference"
    };
    print!(rt; "  its own ancestor{place}:")?;
    for id in at.path.as_slice() {
        print!(rt; " {}", id.name.as_str())?;
    }
    rt.println("")?;
    Ok(())
}
