//! What the columns, runs and lists of a laid-out image are, by the tree that it was made from: laws, each as the contract of a
//! function (ECMA-335 II.22).
#![tactic(auto)]

mod bodies_laws;
mod distinct;
mod in_code_laws;
mod laws;
mod names_laws;
mod namings_laws;
mod references_laws;
mod tidiness_laws;
mod tidy_laws;

pub use bodies_laws::{bodies_are_read, loaded_are_tidy, tokens_are_given};
pub use distinct::references_are_distinct;
pub use in_code_laws::{bodies_may_be_followed, more_may_follow, named_is_given};
pub use laws::{
    code_is_read, constants_are_read, enclosers_are_read, entry_is_read, items_are_read,
    manifest_is_read, owned_are_read, parts_are_read, rows_are_read, runs_are_read,
    types_are_nested,
};
pub use names_laws::{
    laid_out_is_written, locals_are_read, members_are_owned, owners_are_read, parents_are_read,
    paths_are_read, types_are_one,
};
pub use namings_laws::{fields_are_read, methods_are_read, namings_are_read, texts_are_read};
pub use references_laws::{references_are_tidy, signatures_are_in_bounds};
pub use tidiness_laws::{
    contents_stand_once, entries_are_short, fields_are_written, indexes_are_in_use, rows_stand_once,
};
pub use tidy_laws::{images_are_tidy, signatures_are_short};
