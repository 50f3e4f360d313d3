//! The locals of a method (ECMA-335 II.15.4.1.3, II.23.2.6).

ghost use Rattle.std.specs.Prelude.{◌≡◌, ◌∷◌, [], IfOk};
ghost use Rattle.ilasm_grammar.specs.declared.productions.TheConstants.{LOCAL};
ghost use Rattle.source_model.specs.Forest.{Forest, parts};
ghost use Rattle.source_model.specs.Nodes.{Around};
ghost use Rattle.source_model.specs.Source.{Source};
ghost use Rattle.source_model.specs.Variables.{local_types};
ghost use Rattle.source_flags.specs.InRange.{AllInRange};
ghost use Rattle.source_nodes.specs.Pieces.{ArePieces, AreParts};
ghost use Rattle.source_syntax.specs.Places.{IsAt};

use il_base::{Items, NoMemory};
use ilasm_grammar::TreeNode;
use source_nodes::pieces::{Piece, nodes_of};
use source_syntax::place::Place;
use std::alloc::Global;
use type_terms::Types;

/// The types of the locals of a method in order, from the nodes below its production and the productions of its locals.
pub fn local_types(
    alloc: Global,
    place: &Place,
    nodes: &[TreeNode],
    found: &[Piece],
) -> Result<Types, NoMemory>
    requires { AreParts nodes.now found.now }
    ensures { (s : Source) (a : Around) (f : Forest) → IsAt place.now s a → AllInRange s f → ArePieces nodes.now found.now (parts (LOCAL ∷ []) f) →
        IfOk result (λ all. all ≡ local_types s a f) }
{
    let mut all = Items::new(alloc);
    for piece in found {
        let of = place.first_type(alloc, nodes_of(nodes, *piece))?;
        all.push(of)?;
    }
    Ok(all)
}
