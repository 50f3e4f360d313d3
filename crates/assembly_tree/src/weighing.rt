ghost use Rattle.std.specs.Prelude.{◌≡◌, ◌^◌, ◌*◌, ◌-◌, ◌≤◌, ◌≢◌, [], true, false, min, length};
ghost use Rattle.assembly_tree.specs.Room.{texts};
ghost use Rattle.assembly_tree.specs.Weight.{weight_of};

mod bodies;
mod members;
mod terms;
mod texts;
mod types;
mod weighs;

use crate::Assembly;
use types::charge_assembly;
pub(crate) use weighs::charge_each;

/// The greatest weight that `weight` tells.
pub const MAX_WEIGHT: u64 = 1 << 63;

/// What an assembly weighs.
#[derive(Clone, Copy)]
pub struct Weighed {
    /// Its weight; 2^63 where it is that or more.
    pub weight: u64,
    /// Whether instructions load texts.
    pub loads: bool,
}

/// The weight of an assembly, a bound for the bytes of its image; 2^63 where it is that or more. Each use of a name, a
/// term or a text counts by itself. Takes no memory.
pub fn weight(a: &Assembly) -> u64
    ensures { result ≡ min (weight_of a.now) (2 ^ 63) }
{
    weigh(a).weight
}

/// What an assembly weighs, as `weight` answers it, and whether one of its instructions loads a text, by one walk. Takes
/// no memory.
pub fn weigh(a: &Assembly) -> Weighed
    ensures weight { result.weight ≡ min (weight_of a.now) (2 ^ 63) }
    ensures loads { result.loads ≡ false → texts a.now ≡ [] }
    ensures loads_some { result.loads ≡ true → texts a.now ≢ [] }
{
    let mut loads = false;
    let left = charge_assembly(a, MAX_WEIGHT, &mut loads);
    Weighed {
        weight: MAX_WEIGHT - left,
        loads,
    }
}
