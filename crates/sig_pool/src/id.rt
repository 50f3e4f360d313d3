ghost use Rattle.std.specs.Prelude.{◌≡◌, IfOk};

use il_lists::{Copies, Items, NoMemory};
use std::alloc::Global;
use std::marker::Model;

/// The place of a node in its pool. Contracts see it as that number.
#[derive(Debug, Clone, Copy, PartialEq, Eq, Drop)]
pub struct SigId(usize);

impl Model for SigId {
    ghost use Rattle.std.specs.Prelude.{ℕ};

    ghost Value = { ℕ };

    ghost view = { λ s. s.0 };

    ghost inverse = { λ n. record { 0 = n } };
}

impl SigId {
    /// The id of the node at `place`.
    pub(crate) fn new(place: usize) -> SigId
        ensures { result ≡ place }
    {
        SigId(place)
    }

    /// The place of the node.
    pub fn place(self) -> usize
        ensures { result ≡ self }
    {
        self.0
    }
}

impl Copies for SigId {
    fn copy(&self, _alloc: Global) -> Result<SigId, NoMemory> {
        Ok(*self)
    }
}

/// A list of ids.
pub type SigIds = Items<SigId>;
