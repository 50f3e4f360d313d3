ghost use Rattle.std.specs.Prelude.{◌≡◌, ◌+◌, ◌≤◌, ◌<◌, nat_le, length, sum_by, MatchOption};
ghost use Rattle.branch_forms.specs.Forms.{width, offset, is_near, Reaches, IsFar};

use crate::Form;

/// Whether the instructions have at most `room` bytes. Looks at no more of them than that.
fn fits_in(forms: &[Form], room: u64) -> bool
    requires { room < 1000 }
    ensures { result ≡ nat_le (sum_by width forms.now) room }
{
    let mut left = room + 1;
    let mut rest = forms;
    while let [form, more @ ..] = rest {
        left = left.saturating_sub(form.width());
        if left == 0 {
            return false;
        }
        rest = more;
    }
    true
}

/// Whether a displacement in one byte leads from the offset of instruction `from` to that of `to`.
fn is_near(forms: &[Form], from: usize, to: usize) -> bool
    requires { from ≤ length forms.now }
    ensures { result ≡ is_near (offset forms.now from) (offset forms.now to) }
{
    let to = to.min(forms.len());
    if to < from {
        fits_in(&forms[to..from], 0x80)
    } else {
        fits_in(&forms[from..to], 0x7F)
    }
}

/// The target of the branch at `k`, if it is a short one that doesn't reach it.
pub fn far_target(forms: &[Form], k: usize) -> Option<u32>
    requires { k < length forms.now }
    ensures { MatchOption result (Reaches forms.now k) (IsFar forms.now k) }
{
    match forms[k] {
        Form::Short(to) => {
            if is_near(forms, k + 1, to as usize) {
                None
            } else {
                Some(to)
            }
        }
        Form::Fixed(_) | Form::Long(_) => None,
    }
}
