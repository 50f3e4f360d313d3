//! The attributes of properties and events, which stand among their items (ECMA-335 II.17, II.18, II.21).

ghost use Rattle.std.specs.Prelude.{◌≡◌, ◌<◌, ◌^◌, ◌∷◌, [], IfOk, length, true};
ghost use Rattle.lower_members.specs.ItemCustoms.{item_customs};
ghost use Rattle.source_flags.specs.InRange.{AllInRange};
ghost use Rattle.source_model.specs.Forest.{Forest, is_among, parts, preorder};
ghost use Rattle.source_model.specs.Manifests.{attributes};
ghost use Rattle.source_model.specs.Nodes.{Around};
ghost use Rattle.source_model.specs.Source.{Source};
ghost use Rattle.source_syntax.specs.Places.{IsAt};
ghost use Rattle.source_nodes.specs.Walk.{IsForest};

use assembly_tree::Attributes;
use il_base::NoMemory;
use ilasm_grammar::TreeNode;
use lower_manifest::attributes::attributes;
use source_flags::gathering::{Kind, parts_of};
use source_syntax::place::Place;
use std::alloc::Global;

/// The attributes among the items with this production, in order, from what stands below the property or the event.
pub fn attributes_in(
    alloc: Global,
    place: &Place,
    nodes: &[TreeNode],
    production: u16,
) -> Result<Attributes, NoMemory>
    requires forest { IsForest nodes.now }
    requires few { length nodes.now < 2 ^ 32 }
    ensures { (s : Source) (a : Around) → IsAt place.now s a → (f : Forest) → preorder f ≡ nodes.now → AllInRange s f → is_among item_customs production ≡ true →
        IfOk result (λ all. all ≡ attributes s a (parts (production ∷ []) f)) }
{
    let found = parts_of(alloc, nodes, Kind::One(production))?;
    attributes(alloc, place, nodes, found.as_slice())
}
