//! Which methods of interfaces the classes of an assembly lack (ECMA-335 II.12.2): the classes, the slots, when one is filled, and
//! the report of an assembly, of which there is one. `class_check` makes it.
#![tactic(auto)]

mod laws;
mod report;
mod row;

pub use laws::one_report;
pub use report::{ClassReport, Slot, Slots};
pub use row::Row;
