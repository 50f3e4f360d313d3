ghost use Rattle.std.specs.Prelude.{◌≡◌, IfOk, OnOk};
ghost use Rattle.kept_owners.specs.Kept.{AreWanted, Goes, HasFew, IsDone};
ghost use Rattle.row_demands.specs.Structured.{MeetStructure};

use crate::rounds::{note, round};
use il_base::{Items, NoMemory, Numbers};
use image_streams::Image;
use image_used::Used;
use kept_names::KeptNames;
use std::alloc::Global;

/// Keeps the types of the rows of TypeSpec that are in use, in rounds: a round that keeps none is the last. A type is at most 100 deep, and
/// one that it names is less deep, so that there are about as many rounds at most.
pub(crate) fn keep_specs(
    alloc: Global,
    image: &Image<'_>,
    used: &Used<'_, '_>,
    kept: &mut KeptNames,
) -> Result<(), NoMemory>
    requires same { used.now ≡ image.now }
    requires meets { MeetStructure image.now }
    ensures goes { OnOk result (Goes image.now kept.old kept.new) }
    ensures done { OnOk result (IsDone image.now kept.new) }
    ensures few { HasFew image.now 0x1B }
{
    let mut left = used_specs(alloc, image, used)?;
    'rounds: loop {
        let now = round(alloc, image, left.as_slice(), kept)?;
        if now.len() == left.len() {
            break 'rounds;
        }
        left = now;
    }
    Ok(())
}

/// The rows of TypeSpec that are in use, in their order.
fn used_specs(alloc: Global, image: &Image<'_>, used: &Used<'_, '_>) -> Result<Numbers, NoMemory>
    requires { used.now ≡ image.now }
    ensures wanted { IfOk result (AreWanted image.now) }
    ensures few { HasFew image.now 0x1B }
{
    let mut rows = Items::new(alloc);
    for row in 0..image.tables().rows(0x1B) {
        let is_used = used.is_used(0x1B, row + 1);
        note(&mut rows, row + 1, is_used)?;
    }
    Ok(rows)
}
