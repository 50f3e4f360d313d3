//! The demands on rows that are asked before any name or signature is looked at: indexes (I8), entries of heaps (I9), the
//! rows that must be there (I10), runs (I11) and order (I12) (II.22).
#![tactic(auto)]

mod entries;
mod entry;
mod first;
mod firsts;
mod indexes;
mod manifest;
mod module_type;
mod order;
mod owners;
mod run_checks;
mod runs;
mod standing;

pub use entries::Entries;
pub use entry::has_entry;
pub use first::first_unmet;
pub use indexes::Indexes;
pub use manifest::Manifest;
pub use order::Order;
pub use runs::Runs;
