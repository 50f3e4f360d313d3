ghost use Rattle.std.specs.Prelude.{◌≡◌, IsTrue, IfOk, OnOk};
ghost use Rattle.assembly_tree.specs.Weight.{body_weight};
ghost use Rattle.assembly_tree.specs.WellFormedBodies.{has_body_form, short_branches_reach};
ghost use Rattle.il_shrink.specs.Shrunk.{IsShrunkCode, IsShrunk};
ghost use Rattle.il_shrink.specs.ShrunkAll.{IsShrunkBody};

use crate::forms::{choose, first_forms};
use assembly_tree::{Body, Code};
use branch_forms::shorten;
use il_lists::{Copies, NoMemory};
use std::alloc::Global;

/// Gives the code as many short branches as can be.
fn shrink_code(alloc: Global, code: &mut Code) -> Result<(), NoMemory>
    ensures { OnOk result (IsShrunkCode code.old code.new) }
{
    let mut forms = first_forms(alloc, code.as_slice())?;
    shorten(forms.as_mut_slice());
    choose(alloc, code, forms.as_slice())
}

/// Gives the body as many short branches as can be.
fn shrink_body(alloc: Global, b: &mut Body) -> Result<(), NoMemory>
    ensures { OnOk result (IsShrunk b.old b.new) }
{
    shrink_code(alloc, &mut b.code)
}

/// The same where there may be no body.
pub fn shrink_option(alloc: Global, b: &mut Option<Body>) -> Result<(), NoMemory>
    ensures { OnOk result (IsShrunkBody b.old b.new) }
{
    match b {
        None => Ok(()),
        Some(b) => shrink_body(alloc, b),
    }
}

/// A copy of the body in which a branch is short wherever it is in any choice of forms in which each short branch reaches
/// its target (III.3). It asks nothing of the body, whose own short branches needn't reach.
pub fn shrink(alloc: Global, b: &Body) -> Result<Body, NoMemory>
    ensures shrunk { IfOk result (IsShrunk b.now) }
    ensures form { IfOk result (λ c. has_body_form c ≡ has_body_form b.now) }
    ensures reach { IfOk result (λ c. IsTrue (short_branches_reach c.code)) }
    ensures weight { IfOk result (λ c. body_weight c ≡ body_weight b.now) }
{
    let mut shrunk = b.copy(alloc)?;
    shrink_body(alloc, &mut shrunk)?;
    Ok(shrunk)
}
