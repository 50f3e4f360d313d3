ghost use Rattle.std.specs.Prelude.{◌≡◌};
ghost use Rattle.type_hierarchy.specs.Gathered.{scope_by};

use il_lists::{Copies, Items, NoMemory};
use std::alloc::Global;
use type_terms::Scope;

/// What the scopes in an assembly mean in its world.
#[derive(Drop)]
pub struct Meanings {
    /// What the assembly itself is.
    pub own: Scope,
    /// What each of its externs is.
    pub externs: Items<Scope>,
}

impl Meanings {
    /// What a scope means; one that has no extern means itself.
    pub fn of(&self, scope: Scope) -> Scope
        ensures { result ≡ scope_by self.now scope }
    {
        match scope {
            Scope::Here => self.own,
            Scope::Extern(number) => match self.externs.get(number as usize) {
                Some(meant) => *meant,
                None => scope,
            },
        }
    }
}

impl Copies for Meanings {
    fn copy(&self, alloc: Global) -> Result<Meanings, NoMemory> {
        let externs = Items::from_slice(alloc, self.externs.as_slice())?;
        Ok(Meanings {
            own: self.own,
            externs,
        })
    }
}
