ghost use Rattle.std.specs.Prelude.{◌≡◌, ◌+◌, ◌-◌, ◌≤◌, ◌<◌, IfOk, IsTrue, false, length, min};
ghost use Rattle.section_map.specs.Steps.{AreRising, IsNext, Tell, lesser, value_of};

use crate::step::{Step, first_before};
use il_lists::{Items, NoMemory};
use std::alloc::Global;

/// The steps that tell of each address the lesser of what two lists of steps tell.
pub(crate) fn merged(alloc: Global, left: &[Step], right: &[Step]) -> Result<Items<Step>, NoMemory>
    requires left { AreRising left.now }
    requires right { AreRising right.now }
    ensures { IfOk result (λ steps. Tell steps (λ address. min (value_of left.now address) (value_of right.now address))) }
{
    let mut steps = Items::new(alloc);
    let mut i = 0;
    let mut j = 0;
    while i < left.len() || j < right.len() {
        if is_left(left, i, right, j) {
            steps.push(lesser(left, i, right, j))?;
            i += 1;
        } else {
            steps.push(lesser(right, j, left, i))?;
            j += 1;
        }
    }
    Ok(steps)
}

/// Whether the next of the steps that are left of two lists is one of the left list.
fn is_left(left: &[Step], i: usize, right: &[Step], j: usize) -> bool
    requires { 0 < (length left.now - i) + (length right.now - j) }
    ensures left { IsTrue result → IsNext left.now i right.now j }
    ensures right { result ≡ false → IsNext right.now j left.now i }
{
    if j >= right.len() {
        return true;
    }
    if i >= left.len() {
        return false;
    }
    left[i].from <= right[j].from
}

/// The next step, which is one of the first list: from its address on the lesser is told of its section and of the section that the
/// last step of the other list tells.
fn lesser(one: &[Step], k: usize, other: &[Step], m: usize) -> Step
    requires one { k < length one.now }
    requires other { m ≤ length other.now }
    ensures { result ≡ lesser one.now k other.now m }
{
    let next = one[k];
    Step {
        from: next.from,
        first: next.first.min(first_before(other, m)),
    }
}
