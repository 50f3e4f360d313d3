//! Heaps and declared rows before anything is referred to (ECMA-335 II.22.15, II.22.26, II.22.37).
ghost use Rattle.std.specs.Prelude.{◌≡◌, ◌^◌, ◌<◌, ◌≤◌, true, length, sum_by, IfOk, OnOk};
ghost use Rattle.assembly_tree.specs.Weight.{weight_of};
ghost use Rattle.assembly_tree.specs.WellFormed.{is_well_formed};
ghost use Rattle.image_rows.specs.CanFill.{AreDeclarableTypes};
ghost use Rattle.image_members.specs.Classes.{AreClasses};
ghost use Rattle.image_members.specs.Declaring.{class_size};
ghost use Rattle.image_members.specs.Ordered.{IsOrdered};
ghost use Rattle.image_writer.specs.Beginning.{DeclaresTypes, HasBegun, DeclaresAll};

use assembly_tree::Assembly;
use heaps::{BlobHeap, StringHeap, UserHeap};
use il_base::NoMemory;
use image_members::classes::Class;
use image_members::declared_members::declare_members;
use image_members::declaring::declare_types;
use image_members::order::Ordered;
use image_tokens::heap_contents::Heaps;
use image_tokens::known::Known;
use image_tokens::references::{Declared, References, Referred};
use image_tokens::row_list::RowList;
use laws_tree_weights::laws::{rows_are_few, weight_is_enough};
use laws_writable_trees::laws::formed_can_fill;
use laws_writable_trees::ranges::methods_in_range;
use std::alloc::Global;

/// What is declared, with the rows of types alone; `externs` assemblies are named, and the texts that are loaded stand
/// in the heap of user strings.
pub(crate) fn begin_types<'a>(
    alloc: Global,
    classes: &[Class<'a>],
    externs: u32,
    user: UserHeap,
) -> Result<Box<References<'a>>, NoMemory>
    requires types { AreDeclarableTypes classes.now }
    requires few { length classes.now < 2 ^ 23 }
    requires room { sum_by class_size classes.now ≤ 2 ^ 26 }
    ensures { IfOk result (λ b. DeclaresTypes classes.now externs user b.value) }
{
    let mut strings = StringHeap::new(alloc)?;
    let types = declare_types(alloc, &mut strings, classes)?;
    let blobs = BlobHeap::new(alloc)?;
    let refs = References {
        heaps: Heaps {
            strings,
            blobs,
            user,
        },
        declared: Declared {
            types,
            fields: RowList::new(alloc),
            methods: RowList::new(alloc),
            externs,
        },
        referred: Referred::new(alloc),
        known: Known::new(alloc),
    };
    let boxed = Box::new(alloc, refs)?;
    Ok(boxed)
}

/// Adds the rows of fields and methods, where types alone have rows.
pub(crate) fn declare_all<'a>(
    alloc: Global,
    refs: &mut References<'a>,
    a: &'a Assembly,
    classes: &[Class<'a>],
    ordered: &Ordered<'a>,
) -> Result<(), NoMemory>
    requires formed { is_well_formed a.now ≡ true }
    requires weight { weight_of a.now ≤ 2 ^ 26 }
    requires classes { AreClasses 0 2 a.now.types classes.now }
    requires ordered { IsOrdered a.now classes.now ordered.now }
    requires begun { HasBegun a.now classes.now refs.old }
    ensures { OnOk result (DeclaresAll a.now classes.now refs.new) }
{
    formed_can_fill();
    rows_are_few();
    weight_is_enough();
    methods_in_range(ordered.methods.as_slice());
    declare_members(alloc, refs, a, classes)?;
    Ok(())
}
