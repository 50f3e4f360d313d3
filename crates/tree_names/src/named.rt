//! Names of types, looked at one by one in a walk over a tree.
ghost use Rattle.std.specs.Prelude.{◌≡◌, OnOk, List};
ghost use Rattle.std.specs.List.{flat_map};
ghost use Rattle.type_terms.specs.declared.name.TypeName.{TypeName};
ghost use Rattle.tree_names.specs.Looking.{seen_all};
ghost use Rattle.tree_names.specs.Named.{optional};

mod bodies;
mod members;
mod terms;
mod types;

use il_lists::{Items, NoMemory};
use type_terms::TypeName;
pub use types::show_declarations;

/// What looks at names one by one.
pub trait Looks {
    /// What it is once it has looked at one more name.
    ghost seen: { Self → TypeName → Self };

    /// Looks at a name.
    fn look(&mut self, name: &TypeName) -> Result<(), NoMemory>
        ensures { OnOk result (self.new ≡ seen self.old name.now) };
}

/// Parts of a tree that have names of types in them.
pub trait Named {
    /// These names, in order and as often as they stand there.
    ghost names: { Self → List TypeName };

    /// Shows each of them, in order, to what looks at names.
    fn show<L: Looks>(&self, to: &mut L) -> Result<(), NoMemory>
        ensures { OnOk result (to.new ≡ seen_all L.seen to.old (names self.now)) };
}

impl<T: Named> Named for Items<T> {
    ghost names = { flat_map T.names };

    #[tactic(auto, using(crate::proofs::Seeing::both_seen, crate::proofs::Seeing::none_seen))]
    fn show<L: Looks>(&self, to: &mut L) -> Result<(), NoMemory> {
        for item in self.as_slice() {
            item.show(to)?;
        }
        Ok(())
    }
}

impl<T: Named> Named for Option<T> {
    ghost names = { optional T.names };

    #[tactic(auto, using(crate::proofs::Seeing::both_seen, crate::proofs::Seeing::none_seen))]
    fn show<L: Looks>(&self, to: &mut L) -> Result<(), NoMemory> {
        match self {
            None => Ok(()),
            Some(item) => item.show(to),
        }
    }
}
