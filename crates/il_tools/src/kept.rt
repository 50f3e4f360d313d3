//! What a run leaves to its caller.
use assembly_tree::Assembly;

/// The tree that a run made of a source, where it made one. To give its memory back takes a part of the run's time, which a
/// program that ends then can leave to the end of its process.
#[derive(Drop)]
pub struct KeptTree {
    assembly: Option<Assembly>,
}

impl KeptTree {
    /// No tree.
    pub fn new() -> KeptTree {
        KeptTree { assembly: None }
    }

    /// Keeps this tree.
    pub(crate) fn keep(&mut self, assembly: Assembly) {
        self.assembly = Some(assembly);
    }
}
