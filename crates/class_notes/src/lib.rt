//! For each type on the way up from a class whether it is checked, and for which slots of its interfaces it has no method
//! (ECMA-335 II.12.2). What is found of a type is kept, so that no way up is gone twice.
#![tactic(auto)]

mod climbing;
mod filling;
mod fresh;
mod known;
mod making;
mod note;
mod opening;
mod reading;

pub use climbing::{find_note, note_of};
pub use note::{Note, Notes, Open, Opens};
pub use opening::is_slot;
