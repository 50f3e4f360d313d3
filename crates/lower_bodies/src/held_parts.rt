//! The locals, the bound and the clauses of a method, which are looked for only where the method holds some (ECMA-335 II.15.4.1).

ghost use Rattle.std.specs.Prelude.{◌≡◌, ◌∷◌, [], IfOk};
ghost use Rattle.ilasm_grammar.specs.declared.productions.TheConstants.{LOCAL};
ghost use Rattle.source_model.specs.Bodies.{bound};
ghost use Rattle.source_model.specs.BodyNumbers.{bounds_out_of_range};
ghost use Rattle.source_model.specs.Clauses.{clauses};
ghost use Rattle.source_model.specs.Forest.{Forest, parts, preorder};
ghost use Rattle.source_model.specs.Nodes.{Around};
ghost use Rattle.source_model.specs.Source.{Source};
ghost use Rattle.source_flags.specs.InRange.{AllInRange};
ghost use Rattle.source_nodes.specs.Derived.{HasBodies};
ghost use Rattle.source_nodes.specs.Pieces.{ArePieces, AreParts};
ghost use Rattle.source_nodes.specs.Readers.{Reads};
ghost use Rattle.source_nodes.specs.Walk.{IsForest};
ghost use Rattle.lower_bodies.specs.BodyPlaces.{IsWithin};
ghost use Rattle.lower_bodies.specs.HeldItems.{IsHeld};

use crate::body_places::BodyPlace;
use crate::clauses::clauses;
use crate::held::Held;
use assembly_tree::Clauses;
use il_base::{Items, NoMemory};
use ilasm_grammar::TreeNode;
use ilasm_grammar::productions::LOCAL;
use lower_manifest::bounds::bound;
use source_flags::gathering::Kind;
use source_flags::outside::{Shut, parts_outside};
use source_nodes::pieces::Piece;
use source_nodes::reader::Reader;
use std::alloc::Global;

/// The productions of a method's locals.
pub fn locals_in(alloc: Global, nodes: &[TreeNode], held: Held) -> Result<Items<Piece>, NoMemory>
    requires { IsForest nodes.now }
    ensures pieces { IfOk result (λ found. AreParts nodes.now found) }
    ensures locals { (s : Source) (f : Forest) → preorder f ≡ nodes.now → HasBodies s f → IsHeld held f →
        IfOk result (λ found. ArePieces nodes.now found (parts (LOCAL ∷ []) f)) }
{
    if held.local {
        let found = parts_outside(alloc, nodes, Shut::Instructions, Kind::One(LOCAL))?;
        Ok(found)
    } else {
        Ok(Items::new(alloc))
    }
}

/// What the last `.maxstack` of a method says, or 8.
pub fn bound_of(
    alloc: Global,
    reader: &Reader,
    nodes: &[TreeNode],
    held: Held,
) -> Result<u16, NoMemory>
    requires { IsForest nodes.now }
    ensures { (s : Source) (f : Forest) → Reads reader.now s → preorder f ≡ nodes.now → HasBodies s f → bounds_out_of_range s f ≡ [] → IsHeld held f →
        IfOk result (λ n. n ≡ bound s f) }
{
    if held.bound {
        bound(alloc, reader, nodes)
    } else {
        Ok(8)
    }
}

/// The exception clauses of a method.
pub fn clauses_of(
    alloc: Global,
    at: &BodyPlace,
    nodes: &[TreeNode],
    held: Held,
) -> Result<Clauses, NoMemory>
    requires { IsForest nodes.now }
    ensures { (s : Source) (a : Around) (f : Forest) → IsWithin at.now s a f → preorder f ≡ nodes.now → AllInRange s f → IsHeld held f →
        IfOk result (λ all. all ≡ clauses s a f) }
{
    if held.clause {
        clauses(alloc, at, nodes)
    } else {
        Ok(Items::new(alloc))
    }
}
