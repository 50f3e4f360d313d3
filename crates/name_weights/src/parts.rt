ghost use Rattle.std.specs.Prelude.{◌≡◌};
ghost use Rattle.assembly_tree.specs.Weight.{id_weight};
ghost use Rattle.heaps.specs.Content.{HasText};
ghost use Rattle.image_model.specs.Rows.{HasRow};
ghost use Rattle.signature_facts.specs.Facts.{capped};
ghost use Rattle.type_names.specs.Forest.{ref_node};
ghost use Rattle.type_names.specs.Numbers.{IsNode};
ghost use Rattle.type_terms.specs.declared.name.TypeId.{TypeId};
ghost use Rattle.name_weights.specs.Weights.{IsPart, led_to, scope_outer};

use image_streams::Image;
use metadata_tables::{Coded, unpack_coded};
use row_groups::Outers;
use std::marker::Model;
use text_lengths::TextLengths;
use type_names::TypeNames;

/// What the weights of names are found by.
#[derive(Drop)]
pub(crate) struct Given<'g, 'a> {
    pub(crate) image: &'g Image<'a>,
    pub(crate) outers: &'g Outers<'g, 'a>,
    pub(crate) names: &'g TypeNames<'g, 'a>,
    pub(crate) lengths: &'g TextLengths<'a>,
}

impl<'g, 'a> Model for Given<'g, 'a> {
    ghost use Rattle.std.specs.Prelude.{◌≡◌, ◌^◌, ◌≤◌, length};
    ghost use Rattle.image_model.specs.Streams.{strings_of};
    ghost use Rattle.row_demands.specs.Structured.{MeetStructure};
    ghost use Rattle.type_names.specs.Numbers.{TypeNumbers};

    ghost Value = { TypeNumbers };

    ghost view = { λ it. record { image = it.image.now; named = it.names.now.named } };

    ghost invariant = { λ it. (it.outers.now ≡ it.image.now) × (it.names.now.image ≡ it.image.now) × (it.lengths.now ≡ strings_of it.image.now) × MeetStructure it.image.now × (length it.image.now ≤ 2 ^ 26) };
}

/// What a name is made of: the name of the node that encloses it, or none at node 0, and a last text.
#[derive(Clone, Copy)]
pub(crate) struct Part {
    /// The node that encloses it.
    pub(crate) outer: usize,
    /// What its last text weighs.
    pub(crate) own: u32,
}

/// What the name of a node is made of.
pub(crate) fn part_of(given: &Given<'_, '_>, k: usize) -> Part
    requires { IsNode given.now.image k }
    ensures { IsPart given.now.image k result }
{
    let types = given.image.tables().rows(0x02) as usize;
    if k <= types {
        type_part(given, k as u32)
    } else {
        reference_part(given, (k - types) as u32)
    }
}

/// What the name of a type is made of (II.22.32, II.22.37).
#[tactic(auto, unfolding(metadata_tables::specs::Schema::schema))]
fn type_part(given: &Given<'_, '_>, row: u32) -> Part
    requires { HasRow given.now.image 0x02 row }
    ensures { IsPart given.now.image row result }
{
    let tables = given.image.tables();
    let name = tables.cell(0x02, row, 1);
    let space = tables.cell(0x02, row, 2);
    Part {
        outer: given.outers.of(row) as usize,
        own: own_weight(given.lengths, space, name),
    }
}

/// What the name of a reference is made of (II.22.38).
#[tactic(auto, unfolding(metadata_tables::specs::Schema::schema))]
fn reference_part(given: &Given<'_, '_>, row: u32) -> Part
    requires { HasRow given.now.image 0x01 row }
    ensures { IsPart given.now.image (ref_node given.now.image row) result }
{
    let tables = given.image.tables();
    let scope = tables.cell(0x01, row, 0);
    let name = tables.cell(0x01, row, 1);
    let space = tables.cell(0x01, row, 2);
    Part {
        outer: scope_outer(given.image, scope),
        own: own_weight(given.lengths, space, name),
    }
}

/// The node of the reference to which a scope leads; 0 where it leads to the module or an assembly.
fn scope_outer(image: &Image<'_>, scope: u32) -> usize
    ensures { result ≡ scope_outer image.now scope }
{
    match unpack_coded(Coded::ResolutionScope, scope) {
        Some((table, row)) => led_to(image, table, row),
        None => 0,
    }
}

/// The node of a row to which a scope leads, where it is a reference.
fn led_to(image: &Image<'_>, table: u8, row: u32) -> usize
    ensures { result ≡ led_to image.now table row }
{
    if table == 0x01 {
        image.tables().rows(0x02) as usize + row as usize
    } else {
        0
    }
}

/// What a name in a path weighs by its texts: 32, and the bytes of both.
fn own_weight(lengths: &TextLengths<'_>, space: u32, name: u32) -> u32
    ensures { (id : TypeId) → HasText lengths.now space id.space → HasText lengths.now name id.name → result ≡ capped (id_weight id) }
{
    let space = lengths.length_at(space);
    let name = lengths.length_at(name);
    space.saturating_add(name).saturating_add(32)
}
