//! Custom attributes (ECMA-335 II.21, II.22.10).

ghost use Rattle.std.specs.Prelude.{◌≡◌, ◌<◌, ◌^◌, IfOk, List, length};
ghost use Rattle.std.specs.List.{AllByRecursion};
ghost use Rattle.lower_manifest.specs.Customs.{HoldsMethod, IsCustom, value_in};
ghost use Rattle.source_flags.specs.InRange.{AllInRange};
ghost use Rattle.source_model.specs.Forest.{Forest, Part, preorder};
ghost use Rattle.source_model.specs.Manifests.{attribute, attributes};
ghost use Rattle.source_model.specs.Nodes.{Around};
ghost use Rattle.source_model.specs.Source.{Source};
ghost use Rattle.source_nodes.specs.Pieces.{ArePieces, AreParts};
ghost use Rattle.source_syntax.specs.Places.{IsAt};
ghost use Rattle.source_nodes.specs.Readers.{Reads};
ghost use Rattle.source_nodes.specs.Walk.{IsForest};

use assembly_tree::{Attribute, Attributes};
use il_base::{Bytes, Items, NoMemory};
use ilasm_grammar::TreeNode;
use ilasm_grammar::productions::{EQ_BYTES_OPT_SOME, METHOD_REF};
use source_nodes::pieces::{Piece, nodes_of};
use source_nodes::reader::Reader;
use source_nodes::walk::{has, leaf_at, the};
use source_syntax::place::Place;
use std::alloc::Global;

/// The attributes that these declarations are, in order.
pub fn attributes(
    alloc: Global,
    place: &Place,
    nodes: &[TreeNode],
    found: &[Piece],
) -> Result<Attributes, NoMemory>
    requires parts { AreParts nodes.now found.now }
    requires few { length nodes.now < 2 ^ 32 }
    ensures { (s : Source) (a : Around) → IsAt place.now s a → (ps : List Part) → ArePieces nodes.now found.now ps → AllByRecursion (IsCustom s) ps →
        IfOk result (λ all. all ≡ attributes s a ps) }
{
    let mut all = Items::new(alloc);
    for piece in found {
        let one = attribute(alloc, place, nodes_of(nodes, *piece))?;
        all.push(one)?;
    }
    Ok(all)
}

// The attribute that stands in a declaration.
fn attribute(alloc: Global, place: &Place, nodes: &[TreeNode]) -> Result<Attribute, NoMemory>
    requires forest { IsForest nodes.now }
    requires few { length nodes.now < 2 ^ 32 }
    ensures { (s : Source) (a : Around) → IsAt place.now s a → (f : Forest) → preorder f ≡ nodes.now → HoldsMethod s f →
        IfOk result (λ one. one ≡ attribute s a f) }
{
    let constructor = place.method_ref(alloc, the(nodes, METHOD_REF))?;
    let value = value_in(alloc, &place.reader, nodes)?;
    Ok(Attribute { constructor, value })
}

// The bytes of an attribute's value.
fn value_in(alloc: Global, reader: &Reader, nodes: &[TreeNode]) -> Result<Bytes, NoMemory>
    requires { IsForest nodes.now }
    ensures { (s : Source) (f : Forest) → Reads reader.now s → preorder f ≡ nodes.now → AllInRange s f → IfOk result (λ value. value ≡ value_in s f) }
{
    if has(nodes, EQ_BYTES_OPT_SOME) {
        reader.equals_bytes(alloc, leaf_at(the(nodes, EQ_BYTES_OPT_SOME), 0))
    } else {
        Ok(Bytes::new(alloc))
    }
}
