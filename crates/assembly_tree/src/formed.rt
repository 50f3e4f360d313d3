ghost use Rattle.std.specs.Prelude.{◌≡◌};
ghost use Rattle.assembly_tree.specs.WellFormed.{is_well_formed};

mod attributes;
mod bodies;
mod branches;
mod clauses;
mod formed_parts;
mod laws;
mod lists;
mod manifest;
mod members;
mod methods;
mod names;
mod operands;
mod references;
mod sameness;
mod signatures;
mod terms;
mod types;

use crate::Assembly;
use formed_parts::Formed;
pub use laws::conditions_are_named;
use manifest::are_globals;
use types::{are_classes, is_one_entry};

/// Whether the tree is one that a source can denote and an image can hold: each condition on its parts holds, as the
/// definition `is_well_formed` lists them. Takes no memory.
///
/// The time is linear but for three questions of equality, which are asked pair by pair since no order or map of what
/// they compare can be had without memory: types that stand side by side, the members of one kind of one type, and each
/// name in a path against the types where it leads. So it grows with the square of the largest of these numbers.
#[tactic(auto, unfolding(crate::specs::WellFormed::is_well_formed))]
pub fn well_formed(a: &Assembly) -> bool
    ensures { result ≡ is_well_formed a.now }
{
    a.manifest.is_formed(a)
        && a.externs.is_formed(a)
        && are_classes(a)
        && are_globals(a)
        && is_one_entry(a)
}
