//! The most values that the stack of a method is to hold (ECMA-335 II.25.4.2).

ghost use Rattle.std.specs.Prelude.{◌≡◌, [], IfOk};
ghost use Rattle.source_model.specs.Bodies.{bound};
ghost use Rattle.source_model.specs.BodyNumbers.{bounds_out_of_range};
ghost use Rattle.source_model.specs.Forest.{Forest, preorder};
ghost use Rattle.source_model.specs.Source.{Source};
ghost use Rattle.source_nodes.specs.Derived.{HasBodies};
ghost use Rattle.source_nodes.specs.Readers.{Reads};
ghost use Rattle.source_nodes.specs.Walk.{IsForest};

use il_base::NoMemory;
use ilasm_grammar::TreeNode;
use ilasm_grammar::productions::ITEM_MAXSTACK;
use source_flags::gathering::Kind;
use source_flags::naturals::natural_16;
use source_flags::outside::{Shut, last_outside};
use source_nodes::reader::Reader;
use source_nodes::walk::leaf_at;
use std::alloc::Global;

/// What the last `.maxstack` of a method says, or 8, from what stands below the method's production.
pub fn bound(alloc: Global, reader: &Reader, nodes: &[TreeNode]) -> Result<u16, NoMemory>
    requires { IsForest nodes.now }
    ensures { (s : Source) (f : Forest) → Reads reader.now s → preorder f ≡ nodes.now → HasBodies s f → bounds_out_of_range s f ≡ [] → IfOk result (λ n. n ≡ bound s f) }
{
    let said = last_outside(alloc, nodes, Shut::Instructions, Kind::One(ITEM_MAXSTACK))?;
    match said {
        Some(line) => Ok(natural_16(reader, leaf_at(line.below, 1))),
        None => Ok(8),
    }
}
