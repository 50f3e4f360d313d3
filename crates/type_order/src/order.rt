//! The order of stack types: which may stand for which, and what two merge to.
ghost use Rattle.std.specs.Prelude.{◌≡◌, ◌+◌, ◌<◌, ◌^◌, ◌↔◌, length, IsTrue, IfOk};
ghost use Rattle.type_order.specs.Joining.{JoinsAs};
ghost use Rattle.type_hierarchy.specs.Meaning.{meant, IsWithin};
ghost use Rattle.type_hierarchy.specs.Relations.{Assignable};
ghost use Rattle.type_hierarchy.specs.World.{hierarchy, Stays};

use crate::fits::is_assignable;
use crate::joining::join_of;
use crate::types::World;
use il_base::Steps;
use il_lists::NoMemory;
use type_hierarchy::stack_type::StackType;

/// Whether a value of type `s` may stand where `t` is wanted (ECMA-335 I.8.7.3, III.1.8.1.2.3): where both
/// are one type other than Bad; from null to a reference or boxed type; from a reference or boxed value to
/// Object, and to what its parents and interfaces lead to; and between arrays of one rank whose elements
/// are reference types of which the first may stand for the second, or types that reduce to one.
///
/// The keys are ones that this world gave. The answer NoMemory, where there is no memory, leaves the world
/// as it was but for types that its pool may have got; every key keeps its type.
pub fn assignable(w: &mut World, s: &StackType, t: &StackType) -> Result<bool, NoMemory>
    requires s { IsWithin (length w.old.nodes) s.now }
    requires t { IsWithin (length w.old.nodes) t.now }
    ensures ok { IfOk result (λ r. IsTrue r ↔ Assignable (hierarchy w.old) (meant w.old.nodes s.now) (meant w.old.nodes t.now)) }
    ensures stays { Stays w.old w.new }
{
    is_assignable(w.alloc, &w.tables, &mut w.pool, &mut w.found, s, t)
}

/// What a value of either type counts as where two paths meet (ECMA-335 III.1.8.1.3): the least type that
/// both are below, in the order in which null stands below each reference and boxed type, each of those
/// below its parents, and Bad above everything.
///
/// It ticks once. The keys are ones that this world gave. NoMemory where there is no memory.
pub fn join(
    w: &mut World,
    s: &StackType,
    t: &StackType,
    steps: &mut Steps,
) -> Result<StackType, NoMemory>
    requires s { IsWithin (length w.old.nodes) s.now }
    requires t { IsWithin (length w.old.nodes) t.now }
    requires steps { steps.old < 2 ^ 127 }
    ensures ok { IfOk result (λ j. JoinsAs (hierarchy w.old) w.old.nodes s.now t.now w.new.nodes j) }
    ensures stays { Stays w.old w.new }
    ensures steps { steps.new ≡ steps.old + 1 }
{
    steps.tick();
    join_of(w.alloc, &w.tables, &mut w.pool, &mut w.found, s, t)
}
