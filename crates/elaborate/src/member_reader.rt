//! What reads the members of classes, and what is declared outside of any (ECMA-335 II.10.2).

use assembly_tree::{Fields, Generics, Methods};
use il_base::NoMemory;
use ilasm_grammar::TreeNode;
use source_nodes::pieces::Piece;
use source_syntax::place::Place;
use std::alloc::Global;

/// Reads fields, methods and generic parameters, from the members of a class or from the declarations outside of any.
pub trait MemberReader {
    ghost use Rattle.std.specs.Prelude.{◌≡◌, ◌<◌, ◌^◌, IfOk, List, length};
    ghost use Rattle.std.specs.List.{AllByRecursion};
    ghost use Rattle.elaborate.specs.WholeParts.{IsWholePart};
    ghost use Rattle.param_lines.specs.Ranged.{IsRanged};
    ghost use Rattle.source_flags.specs.InRange.{AllInRange};
    ghost use Rattle.source_model.specs.Forest.{Forest, Part, preorder};
    ghost use Rattle.source_model.specs.Items.{runs};
    ghost use Rattle.source_model.specs.Members.{fields, methods};
    ghost use Rattle.source_model.specs.Nodes.{Around};
    ghost use Rattle.source_model.specs.Parameters.{generics};
    ghost use Rattle.source_model.specs.Source.{Source};
    ghost use Rattle.source_nodes.specs.Pieces.{ArePieces, AreParts};
    ghost use Rattle.source_syntax.specs.Places.{IsAt};
    ghost use Rattle.source_nodes.specs.Walk.{IsForest};

    /// It knows what it needs of a source.
    ghost knows: { Self → Source → Type 0 };

    /// The fields among these members or declarations, in order.
    fn fields(
        &self,
        alloc: Global,
        place: &Place,
        nodes: &[TreeNode],
        found: &[Piece],
    ) -> Result<Fields, NoMemory>
        requires parts { AreParts nodes.now found.now }
        requires few { length nodes.now < 2 ^ 32 }
        ensures { (s : Source) (a : Around) → knows self.now s → IsAt place.now s a → (ps : List Part) → ArePieces nodes.now found.now ps →
            AllByRecursion (IsRanged s) ps → IfOk result (λ all. all ≡ fields s a ps) };

    /// The methods among them, in order.
    fn methods(
        &self,
        alloc: Global,
        place: &Place,
        nodes: &[TreeNode],
        found: &[Piece],
    ) -> Result<Methods, NoMemory>
        requires parts { AreParts nodes.now found.now }
        requires few { length nodes.now < 2 ^ 32 }
        ensures { (s : Source) (a : Around) → knows self.now s → IsAt place.now s a → (ps : List Part) → ArePieces nodes.now found.now ps →
            AllByRecursion (IsWholePart s) ps → IfOk result (λ all. all ≡ methods s a ps) };

    /// The generic parameters of a class, with what its members say of them.
    fn generics(
        &self,
        alloc: Global,
        place: &Place,
        nodes: &[TreeNode],
        found: &[Piece],
    ) -> Result<Generics, NoMemory>
        requires forest { IsForest nodes.now }
        requires parts { AreParts nodes.now found.now }
        requires few { length nodes.now < 2 ^ 32 }
        ensures { (s : Source) (a : Around) → knows self.now s → IsAt place.now s a → (ps : List Part) → preorder a.class ≡ nodes.now → AllInRange s a.class →
            ArePieces nodes.now found.now ps → AllByRecursion (IsRanged s) ps → IfOk result (λ all. all ≡ generics s a a.class (runs ps)) };
}
