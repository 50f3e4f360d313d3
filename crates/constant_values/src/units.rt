ghost use Rattle.std.specs.Prelude.{◌≡◌, IfOk};
ghost use Rattle.image_model.specs.Units.{units_of};

use il_base::{Items, NoMemory, Units};
use std::alloc::Global;

/// The UTF-16 units of some bytes, the low byte of each first, or None where a byte is left over (II.24.2.4).
#[tactic(auto, using(crate::proofs::UnitSteps::unit_next))]
pub fn units_of(alloc: Global, bytes: &[u8]) -> Result<Option<Units>, NoMemory>
    ensures { IfOk result (λ units. units ≡ units_of bytes.now) }
{
    let mut units = Items::with_capacity(alloc, bytes.len() / 2)?;
    let mut rest = bytes;
    while let [low, high, more @ ..] = rest {
        units.push(u16::from(*low) + 256 * u16::from(*high))?;
        rest = more;
    }
    if rest.is_empty() {
        Ok(Some(units))
    } else {
        Ok(None)
    }
}
