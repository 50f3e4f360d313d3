//! The image of an assembly, whose types are declared (ECMA-335 II.22 to II.25).
ghost use Rattle.std.specs.Prelude.{◌≡◌, ◌^◌, ◌≤◌, true, length, IfOk};
ghost use Rattle.assembly_tree.specs.Room.{texts};
ghost use Rattle.assembly_tree.specs.Weight.{weight_of};
ghost use Rattle.assembly_tree.specs.WellFormed.{is_well_formed};
ghost use Rattle.image_tables.specs.OwnedPart.{IsNothing};
ghost use Rattle.image_model.specs.Faults.{Reads};
ghost use Rattle.image_model.specs.Tidy.{IsTidy};
ghost use Rattle.laws_image_reading.specs.parts.Ranges.{AreInRange};
ghost use Rattle.image_tokens.specs.Loaded.{AreLoaded};
ghost use Rattle.image_members.specs.Classes.{AreClasses};
ghost use Rattle.image_rows.specs.Filled.{entry_token};
ghost use Rattle.image_members.specs.Ordered.{IsOrdered};
ghost use Rattle.image_writer.specs.Beginning.{HasBegun, DeclaresAll};

use crate::beginning::{begin_types, declare_all};
use crate::contents::fill_all;
use crate::laying_out::lay_out_filled;
use assembly_tree::Assembly;
use heaps::UserHeap;
use il_base::{Bytes, NoMemory};
use image_members::classes::{Class, classes_of};
use image_members::order::{Ordered, in_order};
use image_rows::entry::entry_of;
use image_tables::owned_part::Nothing;
use image_tokens::references::References;
use laws_image_reading::ranges::{
    fields_in_range, params_in_range, properties_in_range, versions_in_range,
};
use laws_tree_weights::laws::{rows_are_few, weight_is_enough};
use laws_writable_trees::laws::types_are_declarable;
use metadata_tables::Rows;
use pe_layout::Kind;
use std::alloc::Global;

/// The image of an assembly whose loaded texts stand in the heap.
pub(crate) fn write_loaded<'a>(
    alloc: Global,
    a: &'a Assembly,
    none: &'a Nothing,
    user: UserHeap,
    id: &[u8; 16],
    kind: Kind,
) -> Result<Bytes, NoMemory>
    requires formed { is_well_formed a.now ≡ true }
    requires weight { weight_of a.now ≤ 2 ^ 26 }
    requires none { IsNothing none.now }
    requires loaded { AreLoaded user (texts a.now) }
    requires room { length user.bytes ≤ 2 ^ 24 }
    ensures reads { IfOk result (λ image. Reads image a.now) }
    ensures tidy { IfOk result (λ image. IsTidy image kind id.now) }
    ensures small { IfOk result (λ image. length image ≤ weight_of a.now) }
{
    let classes = classes_of(alloc, a)?;
    write_classes(alloc, a, classes.as_slice(), none, user, id, kind)
}

/// The same of an assembly whose types are `classes`.
fn write_classes<'a>(
    alloc: Global,
    a: &'a Assembly,
    classes: &[Class<'a>],
    none: &'a Nothing,
    user: UserHeap,
    id: &[u8; 16],
    kind: Kind,
) -> Result<Bytes, NoMemory>
    requires formed { is_well_formed a.now ≡ true }
    requires weight { weight_of a.now ≤ 2 ^ 26 }
    requires classes { AreClasses 0 2 a.now.types classes.now }
    requires none { IsNothing none.now }
    requires loaded { AreLoaded user (texts a.now) }
    requires room { length user.bytes ≤ 2 ^ 24 }
    ensures reads { IfOk result (λ image. Reads image a.now) }
    ensures tidy { IfOk result (λ image. IsTidy image kind id.now) }
    ensures small { IfOk result (λ image. length image ≤ weight_of a.now) }
{
    types_are_declarable();
    rows_are_few();
    weight_is_enough();
    let mut refs = begin_types(alloc, classes, a.externs.len() as u32, user)?;
    finish(alloc, &mut refs, a, classes, none, id, kind)
}

/// The same where types have rows, and nothing else has.
fn finish<'a>(
    alloc: Global,
    refs: &mut References<'a>,
    a: &'a Assembly,
    classes: &[Class<'a>],
    none: &'a Nothing,
    id: &[u8; 16],
    kind: Kind,
) -> Result<Bytes, NoMemory>
    requires formed { is_well_formed a.now ≡ true }
    requires weight { weight_of a.now ≤ 2 ^ 26 }
    requires classes { AreClasses 0 2 a.now.types classes.now }
    requires none { IsNothing none.now }
    requires begun { HasBegun a.now classes.now refs.old }
    ensures reads { IfOk result (λ image. Reads image a.now) }
    ensures tidy { IfOk result (λ image. IsTidy image kind id.now) }
    ensures small { IfOk result (λ image. length image ≤ weight_of a.now) }
{
    let ordered = in_order(alloc, a, classes)?;
    declare_all(alloc, refs, a, classes, &ordered)?;
    finish_declared(alloc, refs, a, classes, &ordered, none, id, kind)
}

/// The same where types, fields and methods have rows.
fn finish_declared<'a>(
    alloc: Global,
    refs: &mut References<'a>,
    a: &'a Assembly,
    classes: &[Class<'a>],
    ordered: &Ordered<'a>,
    none: &'a Nothing,
    id: &[u8; 16],
    kind: Kind,
) -> Result<Bytes, NoMemory>
    requires formed { is_well_formed a.now ≡ true }
    requires weight { weight_of a.now ≤ 2 ^ 26 }
    requires classes { AreClasses 0 2 a.now.types classes.now }
    requires ordered { IsOrdered a.now classes.now ordered.now }
    requires none { IsNothing none.now }
    requires declared { DeclaresAll a.now classes.now refs.old }
    ensures reads { IfOk result (λ image. Reads image a.now) }
    ensures tidy { IfOk result (λ image. IsTidy image kind id.now) }
    ensures small { IfOk result (λ image. length image ≤ weight_of a.now) }
{
    let entry = entry_in(a, classes, ordered);
    numbers_in_range(a, classes, ordered);
    let mut rows = Rows::new(alloc);
    let mut code = Bytes::new(alloc);
    fill_all(alloc, refs, &mut rows, &mut code, a, classes, ordered, none)?;
    lay_out_filled(alloc, a, classes, refs, &rows, code, entry, id, kind)
}

/// The token of the entry point, or 0.
fn entry_in<'a>(_a: &Assembly, _classes: &[Class<'a>], ordered: &Ordered<'a>) -> u32
    requires weight { weight_of _a.now ≤ 2 ^ 26 }
    requires classes { AreClasses 0 2 _a.now.types _classes.now }
    requires ordered { IsOrdered _a.now _classes.now ordered.now }
    ensures { result ≡ entry_token _a.now _classes.now }
{
    rows_are_few();
    entry_of(ordered.methods.as_slice())
}

/// The numbers of constants are in the ranges of their fields, and versions have four. Nothing is changed.
fn numbers_in_range<'a>(a: &Assembly, _classes: &[Class<'a>], ordered: &Ordered<'a>)
    requires ordered { IsOrdered a.now _classes.now ordered.now }
    ensures { AreInRange a.now _classes.now }
{
    versions_in_range(a);
    fields_in_range(ordered.fields.as_slice());
    params_in_range(ordered.params.as_slice());
    properties_in_range(ordered.properties.as_slice());
}
