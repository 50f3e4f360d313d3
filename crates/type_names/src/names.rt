ghost use Rattle.std.specs.Prelude.{◌≡◌, ◌-◌, ◌≤◌, ◌<◌, ◌^◌, IfOk, IsTrue, ◌↔◌, length};
ghost use Rattle.image_model.specs.Rows.{HasRow};
ghost use Rattle.image_model.specs.Structure.{HasScope};
ghost use Rattle.name_numbers.specs.Names.{named_at, depth_at};
ghost use Rattle.row_demands.specs.Structured.{MeetStructure};
ghost use Rattle.type_names.specs.Forest.{AreForest, ref_node};
ghost use Rattle.type_names.specs.Numbers.{TellNames, LeadsBy, number_of, number_in, length_of};

use crate::nodes::nodes_of;
use il_base::NoMemory;
use image_streams::Image;
use name_numbers::{Named, Node, TextHashes, numbered};
use row_groups::Outers;
use std::alloc::Global;
use std::marker::Model;

/// The numbers of an image's types and references: two have one number exactly where they name one type.
#[derive(Drop)]
pub struct TypeNames<'i, 'a> {
    image: &'i Image<'a>,
    named: Vec<Named>,
}

impl<'i, 'a> Model for TypeNames<'i, 'a> {
    ghost use Rattle.type_names.specs.Numbers.{TypeNumbers, TellNames};

    ghost Value = { TypeNumbers };

    ghost view = { λ it. record { image = it.image.now; named = it.named.items } };

    ghost invariant = { λ it. TellNames it.image.now it.named.items };
}

impl<'i, 'a> TypeNames<'i, 'a> {
    /// The numbers of an image's types and references.
    pub fn new(
        alloc: Global,
        image: &'i Image<'a>,
        outers: &Outers<'_, '_>,
    ) -> Result<TypeNames<'i, 'a>, NoMemory>
        requires small { length image.now ≤ 2 ^ 26 }
        requires same { outers.now ≡ image.now }
        requires meets { MeetStructure image.now }
        ensures { IfOk result (λ it. it.image ≡ image.now) }
    {
        let named = named_of(alloc, image, outers)?;
        Ok(TypeNames { image, named })
    }

    /// The number of a type, by its row; None where its path has more than 100 names, or no end.
    pub fn of_type(&self, row: u32) -> Option<u32>
        requires { HasRow self.now.image 0x02 row }
        ensures { result ≡ number_of self.now.named row }
    {
        number_in(named_at(&self.named, row as usize))
    }

    /// The number of a reference, by its row; None where its path has more than 100 names, or no end.
    pub fn of_reference(&self, row: u32) -> Option<u32>
        requires { HasRow self.now.image 0x01 row }
        ensures { result ≡ number_of self.now.named (ref_node self.now.image row) }
    {
        let types = self.image.tables().rows(0x02) as usize;
        number_in(named_at(&self.named, types + row as usize))
    }

    /// How many names the path of a type has, by its row; 0 where it has no number.
    pub fn length_of_type(&self, row: u32) -> u8
        requires { HasRow self.now.image 0x02 row }
        ensures { result ≡ length_of self.now.named row }
    {
        length_in(named_at(&self.named, row as usize))
    }

    /// How many names the path of a reference has, by its row; 0 where it has no number.
    pub fn length_of_reference(&self, row: u32) -> u8
        requires { HasRow self.now.image 0x01 row }
        ensures { result ≡ length_of self.now.named (ref_node self.now.image row) }
    {
        let types = self.image.tables().rows(0x02) as usize;
        length_in(named_at(&self.named, types + row as usize))
    }

    /// Whether a reference leads along its scopes to an assembly, or to the module and a type that is there (II.22.38).
    pub fn has_scope(&self, row: u32) -> bool
        requires { HasRow self.now.image 0x01 row }
        ensures { IsTrue result ↔ HasScope self.now.image row }
    {
        has_scope(self.image, &self.named, row)
    }

    /// Whether a type has a path of at most 100 names.
    pub fn has_path(&self, row: u32) -> bool
        requires { HasRow self.now.image 0x02 row }
        ensures { IsTrue result ↔ (0 < depth_at self.now.named row) }
    {
        let named = named_at(&self.named, row as usize);
        named.depth > 0
    }

    /// A law: what the numbers tell.
    pub fn tell_names(&self)
        ensures { TellNames self.now.image self.now.named }
    {
        let _image = self.image;
    }
}

/// The number of a node.
fn named_at(named: &[Named], k: usize) -> Named
    requires { k < length named.now }
    ensures { result ≡ named_at named.now k }
{
    named[k]
}

/// The same, by the numbers of an image's nodes.
fn has_scope(image: &Image<'_>, named: &[Named], row: u32) -> bool
    requires there { HasRow image.now 0x01 row }
    requires tells { TellNames image.now named.now }
    ensures { IsTrue result ↔ HasScope image.now row }
{
    let types = image.tables().rows(0x02);
    let name = named_at(named, types as usize + row as usize);
    leads(name, types)
}

/// Whether a name leads out of the module, or has the number of one of so many types.
fn leads(named: Named, types: u32) -> bool
    ensures { IsTrue result ↔ LeadsBy types named }
{
    named.depth > 0 && (named.root > 0 || named.number <= types)
}

/// The number of a node that has one.
fn number_in(named: Named) -> Option<u32>
    ensures { result ≡ number_in named }
{
    if named.depth == 0 {
        None
    } else {
        Some(named.number)
    }
}

/// How many names the path of a node has.
fn length_in(named: Named) -> u8
    ensures { result ≡ named.depth - 1 }
{
    named.depth.saturating_sub(1)
}

/// The numbers of an image's types and references, each by its node.
fn named_of(
    alloc: Global,
    image: &Image<'_>,
    outers: &Outers<'_, '_>,
) -> Result<Vec<Named>, NoMemory>
    requires small { length image.now ≤ 2 ^ 26 }
    requires same { outers.now ≡ image.now }
    requires meets { MeetStructure image.now }
    ensures { IfOk result (λ named. TellNames image.now named.items) }
{
    let nodes = nodes_of(alloc, image, outers)?;
    numbered_nodes(alloc, image, nodes.as_slice())
}

/// The numbers of nodes.
fn numbered_nodes(alloc: Global, image: &Image<'_>, nodes: &[Node]) -> Result<Vec<Named>, NoMemory>
    requires small { length image.now ≤ 2 ^ 26 }
    requires meets { MeetStructure image.now }
    requires forest { AreForest image.now nodes.now }
    ensures { IfOk result (λ named. TellNames image.now named.items) }
{
    let tables = image.tables();
    let middle = tables.rows(0x02) as usize + 1;
    let last = middle + tables.rows(0x01) as usize;
    let texts = TextHashes::new(alloc, image.strings())?;
    let named = numbered(alloc, &texts, nodes, middle, last)?;
    Ok(named)
}
