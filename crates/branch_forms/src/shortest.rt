ghost use Rattle.std.specs.Prelude.{◌≡◌, map, IsTrue};
ghost use Rattle.std.specs.List.{list_all};
ghost use Rattle.branch_forms.specs.Forms.{has_bytes, shortened, IsShortest};

use crate::Form;
use crate::reach::far_target;

/// Makes long the branches that can't be short, and no others: what is short in any choice in which each short branch
/// reaches its target stays short. Begins with all branches short.
///
/// A branch that doesn't reach its target gets long, and since that moves others away from theirs, the sweep goes on at
/// the first that it may have moved: a short branch has at most 127 instructions between itself and its target, so those
/// further back are as near as before. The work is linear in the number of instructions.
pub fn shorten(forms: &mut [Form])
    requires bytes { IsTrue (list_all has_bytes forms.old) }
    requires short { map shortened forms.old ≡ forms.old }
    ensures { IsShortest forms.old forms.new }
{
    for k in 0..forms.len() {
        if let Some(to) = far_target(forms, k) {
            forms[k] = Form::Long(to);
        }
    }
    let mut next = 0;
    while next < forms.len() {
        if let Some(to) = far_target(forms, next) {
            forms[next] = Form::Long(to);
            next = next.saturating_sub(127);
        } else {
            next += 1;
        }
    }
}
