ghost use Rattle.std.specs.Prelude.{ℕ, ◌≤◌, List, length};
ghost use Rattle.std.specs.List.{All};
ghost use Rattle.type_terms.specs.declared.term.SigType.{SigType};
ghost use Rattle.assembly_tree.specs.declared.assembly.Assembly.{Assembly};
ghost use Rattle.type_hierarchy.specs.Hierarchy.{Hierarchy};
ghost use Rattle.type_hierarchy.specs.Scopes.{sources, Sources};
ghost use Rattle.type_order.specs.Staying.{KeepsKeys};
ghost use Rattle.type_order.specs.Worlds.{IsFit, IsWorldOf, IsWorldSince};
ghost use Rattle.type_hierarchy.specs.World.{Content, Stays};
ghost use Rattle.type_hierarchy.specs.Laws.{IsGrounded, IsReflexive, IsTransitive, IsOrder, JoinLaws};

/// A value of a type may stand where that type is wanted, save for Bad; and what may stand for a second
/// type that may stand for a third may stand for the third (ECMA-335 I.8.7.3). It does nothing when it is
/// called.
#[tactic(auto, using(crate::proofs::Assigning::reflexive, crate::proofs::Assigning::transitive))]
pub fn assignable_is_a_preorder()
    ensures reflexive { (w : Hierarchy) → IsReflexive w }
    ensures transitive { (w : Hierarchy) (height : SigType → ℕ) → IsGrounded w height → IsTransitive w }
{}

/// The order of stack types is one; two types have at most one join, whose order and grouping don't
/// matter; a type is its own join, and is assignable to its join with another unless that is Bad
/// (ECMA-335 III.1.8.1.3). It does nothing when it is called.
#[tactic(auto, using(crate::proofs::Ordering::order, crate::proofs::Ordering::joins))]
pub fn joins_are_least_upper_bounds()
    ensures order { (w : Hierarchy) (height : SigType → ℕ) → IsGrounded w height → IsOrder w }
    ensures joins { (w : Hierarchy) (height : SigType → ℕ) → IsGrounded w height → JoinLaws w }
{}

/// As a world goes on, each key that it gave keeps its type, and each stack type its meaning. It does
/// nothing when it is called.
#[tactic(auto, using(crate::proofs::StayLemmas::keeps_keys, crate::proofs::StayLemmas::stays_on))]
pub fn keys_keep_their_types()
    ensures keys { (old new : Content) → Stays old new → KeepsKeys old new }
    ensures onward { (a b c : Content) → Stays a b → Stays b c → Stays a c }
{}

/// A world that was made of fit assemblies is one of them since, whatever it is asked. It does nothing when it is called.
#[tactic(auto, using(crate::proofs::StayLemmas::since_made, crate::proofs::StayLemmas::since_on))]
pub fn worlds_go_on()
    ensures made { (image : Assembly) (references : List Assembly) (w : Content) → IsFit image → All IsFit references → length references ≤ 8 → IsWorldOf (sources image references) w → IsWorldSince (sources image references) w }
    ensures onward { (s : Sources) (old new : Content) → IsWorldSince s old → Stays old new → IsWorldSince s new }
{}
