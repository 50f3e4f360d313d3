//! The methods among the members of a class, or among the declarations outside of any (ECMA-335 II.10.2, II.15).

ghost use Rattle.std.specs.Prelude.{◌≡◌, ◌++◌, ◌<◌, ◌^◌, ◌∷◌, [], IfOk, List, length, map};
ghost use Rattle.std.specs.List.{AllByRecursion};
ghost use Rattle.lower_methods.specs.SoundMethods.{IsWholePart};
ghost use Rattle.source_model.specs.Forest.{Forest, Part, preorder};
ghost use Rattle.source_model.specs.Members.{is_method_part, methods};
ghost use Rattle.source_model.specs.Nodes.{Around};
ghost use Rattle.source_model.specs.Source.{Source};
ghost use Rattle.source_nodes.specs.Pieces.{ArePieces, AreParts};
ghost use Rattle.source_syntax.specs.Places.{IsAt};
ghost use Rattle.source_nodes.specs.Walk.{IsForest};

use crate::whole_methods::push_method;
use assembly_tree::Methods;
use il_base::{Items, NoMemory};
use ilasm_grammar::TreeNode;
use ilasm_grammar::productions::{DECL_METHOD, MEMBER_METHOD, METHOD};
use source_nodes::pieces::{Piece, nodes_of};
use source_nodes::walk::the;
use source_syntax::place::Place;
use std::alloc::Global;

/// The methods among these members or declarations, in order, from a place outside of all methods.
pub fn methods(
    alloc: Global,
    place: &Place,
    nodes: &[TreeNode],
    found: &[Piece],
) -> Result<Methods, NoMemory>
    requires parts { AreParts nodes.now found.now }
    requires few { length nodes.now < 2 ^ 32 }
    ensures { (s : Source) (a : Around) → IsAt place.now s a → (ps : List Part) → ArePieces nodes.now found.now ps → AllByRecursion (IsWholePart s) ps →
        IfOk result (λ all. all ≡ methods s a ps) }
{
    let mut all = Items::new(alloc);
    for piece in found {
        let below = nodes_of(nodes, *piece);
        add_method(&mut all, alloc, place, piece.production, below)?;
    }
    Ok(all)
}

// Adds the method that a member or a declaration is, where it is one.
fn add_method(
    all: &mut Methods,
    alloc: Global,
    place: &Place,
    production: u16,
    below: &[TreeNode],
) -> Result<(), NoMemory>
    requires forest { IsForest below.now }
    requires few { length below.now < 2 ^ 32 }
    ensures { (s : Source) (a : Around) → IsAt place.now s a → (p : Part) → production ≡ p.production → preorder p.below ≡ below.now → IsWholePart s p →
        IfOk result (λ _. all.new ≡ all.old ++ methods s a (p ∷ [])) }
{
    if is_method(production) {
        push_method(all, alloc, place, the(below, METHOD))
    } else {
        Ok(())
    }
}

// Whether a member or a declaration is a method.
fn is_method(production: u16) -> bool
    ensures { (p : Part) → production ≡ p.production → result ≡ is_method_part p }
{
    production == DECL_METHOD || production == MEMBER_METHOD
}
