//! The class above a value's type.
ghost use Rattle.std.specs.Prelude.{◌≡◌, ◌+◌, ◌<◌, ◌^◌, length, IfOk};
ghost use Rattle.type_hierarchy.specs.Meaning.{meant, IsWithin, MeansOption};
ghost use Rattle.type_order.specs.Starts.{stack_parent};
ghost use Rattle.type_hierarchy.specs.World.{hierarchy, Stays};

use crate::joining::parent_of;
use crate::types::World;
use il_base::Steps;
use il_lists::NoMemory;
use type_hierarchy::stack_type::StackType;

/// A reference to the parent of the type of a reference or boxed value (ECMA-335 I.8.9.9): None exactly for
/// Object, boxed or not, and for what is neither.
///
/// It ticks once. The key is one that this world gave. NoMemory where there is no memory.
pub fn parent(
    w: &mut World,
    t: &StackType,
    steps: &mut Steps,
) -> Result<Option<StackType>, NoMemory>
    requires t { IsWithin (length w.old.nodes) t.now }
    requires steps { steps.old < 2 ^ 127 }
    ensures ok { IfOk result (λ r. MeansOption w.new.nodes r (stack_parent (hierarchy w.old) (meant w.old.nodes t.now))) }
    ensures stays { Stays w.old w.new }
    ensures steps { steps.new ≡ steps.old + 1 }
{
    steps.tick();
    parent_of(w.alloc, &w.tables, &mut w.pool, &mut w.found, t)
}
