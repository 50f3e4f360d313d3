//! The tables whose rows have accessors, each with those of its rows (ECMA-335 II.22.28).
ghost use Rattle.std.specs.Prelude.{◌≡◌, ◌↔◌, ◌+◌, ◌^◌, ◌<◌, ◌++◌, [], length, map, sum_by, IsTrue, IfOk, OnOk};
ghost use Rattle.image_members.specs.DeclaredMembers.{methods_count, class_methods};
ghost use Rattle.image_members.specs.Lists.{access_of, event_access, property_access, access_from, accessor_lists};
ghost use Rattle.image_members.specs.Places.{lent};
ghost use Rattle.image_rows.specs.SemanticsRows.{methods_of, with_methods};

use crate::semantics_rows::{Access, Accessing};
use assembly_tree::{Accessors, Assembly};
use il_base::{Items, NoMemory};
use image_members::carrying::Carries;
use image_members::classes::Class;
use image_members::order::Ordered;
use image_tokens::tokens::{EVENT, PROPERTY};
use std::alloc::Global;

/// The events and the properties, with the accessors of each; the methods that follow those of `<Module>` are
/// those of these types, in order.
pub fn accessor_tables<'a>(
    alloc: Global,
    a: &Assembly,
    classes: &[Class<'a>],
) -> Result<Items<Accessing<'a>>, NoMemory>
    requires { methods_count a.now classes.now < 2 ^ 24 }
    ensures { IfOk result (λ tables. map with_methods tables ≡ accessor_lists a.now classes.now) }
{
    let first = a.methods.len() as u32 + 1;
    let mut tables = Items::new(alloc);
    let events = accesses_of_events(alloc, first, classes)?;
    tables.push(Accessing {
        table: EVENT,
        of: events,
    })?;
    let properties = accesses_of_properties(alloc, first, classes)?;
    tables.push(Accessing {
        table: PROPERTY,
        of: properties,
    })?;
    Ok(tables)
}

/// Whether nothing is declared that has accessors.
pub fn have_no_accessors(ordered: &Ordered) -> bool
    ensures { IsTrue result ↔ (lent ordered.now.events ≡ []) × (lent ordered.now.properties ≡ []) }
{
    ordered.events.is_empty() && ordered.properties.is_empty()
}

/// The accessors of each event of types whose methods follow one another from this row on.
fn accesses_of_events<'a>(
    alloc: Global,
    first: u32,
    classes: &[Class<'a>],
) -> Result<Items<Access<'a>>, NoMemory>
    requires { first + sum_by (λ c. length (class_methods c)) classes.now < 2 ^ 25 }
    ensures { IfOk result (λ all. map methods_of all ≡ access_from event_access first classes.now) }
{
    let mut all = Items::new(alloc);
    let mut row = first;
    for class in classes {
        let methods = class.of.methods.len();
        add_accesses(&mut all, row, class.of.events.as_slice())?;
        row += methods as u32;
    }
    Ok(all)
}

/// The accessors of each property of types whose methods follow one another from this row on.
fn accesses_of_properties<'a>(
    alloc: Global,
    first: u32,
    classes: &[Class<'a>],
) -> Result<Items<Access<'a>>, NoMemory>
    requires { first + sum_by (λ c. length (class_methods c)) classes.now < 2 ^ 25 }
    ensures { IfOk result (λ all. map methods_of all ≡ access_from property_access first classes.now) }
{
    let mut all = Items::new(alloc);
    let mut row = first;
    for class in classes {
        let methods = class.of.methods.len();
        add_accesses(&mut all, row, class.of.properties.as_slice())?;
        row += methods as u32;
    }
    Ok(all)
}

/// Adds the accessors of each event or property of a type whose first method has this row.
fn add_accesses<'a, T: Carries<Accessors>>(
    all: &mut Items<Access<'a>>,
    first: u32,
    carriers: &'a [T],
) -> Result<(), NoMemory>
    ensures { OnOk result (map methods_of all.new ≡ map methods_of all.old ++ map (λ x. access_of first (T.value_of x)) carriers.now) }
{
    for carrier in carriers {
        let of = carrier.carried();
        all.push(Access { first, of })?;
    }
    Ok(())
}
