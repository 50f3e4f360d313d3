ghost use Rattle.std.specs.Prelude.{◌≡◌, Bool};
ghost use Rattle.std.specs.List.{list_all};
ghost use Rattle.assembly_tree.specs.WellFormedNames.{option_all};
ghost use Rattle.assembly_tree.specs.declared.assembly.Assembly.{Assembly};

use crate::Assembly;
use il_lists::Items;

/// Parts of an assembly that have conditions to meet.
pub trait Formed {
    /// The conditions, in the assembly that the part belongs to.
    ghost formed: { Assembly → Self → Bool };

    /// Whether the part meets its conditions in `a`.
    fn is_formed(&self, a: &Assembly) -> bool
        ensures { result ≡ formed a.now self.now };
}

impl<T: Formed> Formed for Items<T> {
    ghost formed = { λ a items. list_all (T.formed a) items };

    fn is_formed(&self, a: &Assembly) -> bool {
        let mut rest = self.as_slice();
        while let [item, more @ ..] = rest {
            if !item.is_formed(a) {
                return false;
            }
            rest = more;
        }
        true
    }
}

impl<T: Formed> Formed for Option<T> {
    ghost formed = { λ a part. option_all (T.formed a) part };

    fn is_formed(&self, a: &Assembly) -> bool {
        match self {
            None => true,
            Some(part) => part.is_formed(a),
        }
    }
}
