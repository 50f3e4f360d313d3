//! The methods of the class `T`, checked one after the other.

ghost use Rattle.std.specs.Prelude.{◌≡◌};
ghost use Rattle.type_hierarchy.specs.Scopes.{sources, Sources};
ghost use Rattle.type_order.specs.Worlds.{IsFit, IsWorldSince};

use crate::fault::Fault;
use crate::most::Most;
use crate::reading::Linked;
use all_bodies::{check_all, count};
use assembly_tree::{Assembly, Method, MethodPath, TypeDef};
use assignability::keys_keep_their_types;
use body_verifier::{Failure, check_method, has_body};
use il_base::{Items, Steps};
use type_order::types::World;

/// Prints each method of the class `T` with its failures.
///
/// # Errors
///
/// The answers couldn't be written, or there was no memory.
pub fn show_methods(
    rt: &HostRuntime,
    linked: &Linked,
    w: &mut World,
    most: Most,
) -> Result<(), Fault>
    requires { IsWorldSince (sources linked.now.image linked.now.references) w.old }
{
    let Some((place, class)) = tested(&linked.image) else {
        return Ok(());
    };
    let mut method = 0u32;
    for of in class.methods.as_slice() {
        let types = Items::from_slice(rt.alloc(), &[place])?;
        let at = MethodPath { types, method };
        show_method(rt, linked, w, &at, of, most)?;
        method = method.saturating_add(1);
    }
    Ok(())
}

/// The class `T` of an assembly, and its place among the types there.
fn tested(image: &Assembly) -> Option<(u32, &TypeDef)> {
    let mut place = 0u32;
    for class in image.types.as_slice() {
        if class.id.space.is_empty() && class.id.name.as_str() == "T" {
            return Some((place, class));
        }
        place = place.saturating_add(1);
    }
    None
}

/// Prints a method, if it has a body, with its failures.
fn show_method(
    rt: &HostRuntime,
    linked: &Linked,
    w: &mut World,
    at: &MethodPath,
    method: &Method,
    most: Most,
) -> Result<(), Fault>
    ghost of: { Sources }
    requires of { of ≡ sources linked.now.image linked.now.references }
    requires world { IsWorldSince of w.old }
    ensures world { IsWorldSince of w.new }
{
    let image = &linked.image;
    if !has_body(image, at) {
        return Ok(());
    }
    keys_keep_their_types();
    let before = w.pool().len();
    let mut steps = Steps::new();
    let report = check_method(rt.alloc(), image, w, at, &mut steps)?;
    let added = w.pool().len().saturating_sub(before);
    let is_more = steps.count() > most.joins || added > most.types;
    show_report(rt, method.name.as_str(), report.as_slice(), is_more)
}

/// Prints a method with its failures, and whether its check took more than it may.
fn show_report(
    rt: &HostRuntime,
    name: &str,
    report: &[Failure],
    is_more: bool,
) -> Result<(), Fault> {
    print!(rt; "  {name}")?;
    let mut mark = ":";
    for failure in report {
        print!(rt; "{mark} {}:V{}", failure.offset, failure.rule)?;
        mark = "";
    }
    if is_more {
        print!(rt; " takes more")?;
    }
    rt.println("")?;
    Ok(())
}

/// Prints how much the image declares, and the number of failures in all its bodies.
///
/// # Errors
///
/// The answer couldn't be written, or there was no memory.
pub fn show_counts(rt: &HostRuntime, linked: &Linked, w: &mut World) -> Result<(), Fault>
    ghost sources: { Sources }
    requires fit { IsFit linked.now.image }
    requires image { sources.image ≡ linked.now.image }
    requires world { IsWorldSince sources w.old }
{
    let image = &linked.image;
    let counts = count(image);
    let report = check_all(rt.alloc(), image, w)?;
    print!(rt;
        "  classes {}, methods {}, ",
        counts.classes, counts.methods
    )?;
    print!(rt;
        "instructions {}, failures {}",
        counts.instructions,
        report.len()
    )?;
    rt.println("")?;
    Ok(())
}
