ghost use Rattle.std.specs.Prelude.{◌≡◌, IsTrue, IfOk, OnOk};
ghost use Rattle.assembly_tree.specs.Room.{room};
ghost use Rattle.assembly_tree.specs.Weight.{weight_of};
ghost use Rattle.assembly_tree.specs.WellFormed.{is_well_formed};
ghost use Rattle.il_shrink.specs.ShrunkAll.{IsShrunkAll};

use crate::methods::shrink_methods;
use crate::types::shrink_types;
use assembly_tree::Assembly;
use il_lists::{Copies, NoMemory};
use std::alloc::Global;

/// Shrinks each body of the assembly.
fn shrink_bodies(alloc: Global, a: &mut Assembly) -> Result<(), NoMemory>
    ensures { OnOk result (IsShrunkAll a.old a.new) }
{
    shrink_methods(alloc, &mut a.methods)?;
    shrink_types(alloc, &mut a.types)
}

/// Makes a branch of the assembly's bodies short wherever it is in any choice of forms in which each short branch of the body
/// reaches its target (III.3). Where there was no memory, the assembly may have lost methods and types.
pub fn shrink_in_place(alloc: Global, a: &mut Assembly) -> Result<(), NoMemory>
    requires { IsTrue (is_well_formed a.old) }
    ensures shrunk { OnOk result (IsShrunkAll a.old a.new) }
    ensures formed { OnOk result (IsTrue (is_well_formed a.new)) }
    ensures weight { OnOk result (weight_of a.new ≡ weight_of a.old) }
    ensures room { OnOk result (room a.new ≡ room a.old) }
{
    shrink_bodies(alloc, a)
}

/// A copy of the assembly in whose bodies a branch is short wherever it is in any choice of forms in which each short branch
/// of the body reaches its target (III.3).
pub fn shrink_all(alloc: Global, a: &Assembly) -> Result<Assembly, NoMemory>
    requires { IsTrue (is_well_formed a.now) }
    ensures shrunk { IfOk result (IsShrunkAll a.now) }
    ensures formed { IfOk result (λ c. IsTrue (is_well_formed c)) }
    ensures weight { IfOk result (λ c. weight_of c ≡ weight_of a.now) }
    ensures room { IfOk result (λ c. room c ≡ room a.now) }
{
    let mut shrunk = a.copy(alloc)?;
    shrink_in_place(alloc, &mut shrunk)?;
    Ok(shrunk)
}
