//! A laid-out image of a well-formed assembly reads as the assembly: laws, each as the contract of a function (ECMA-335 II.22 to
//! II.25).
#![tactic(auto)]

mod cells_laws;
mod demands_laws;
mod kinds_laws;
mod laws;
mod members_laws;
mod order_laws;
mod parts_laws;
pub mod ranges;

pub use cells_laws::{entries_hold, indexes_hold, tables_open};
pub use demands_laws::bodies_meet_demands;
pub use kinds_laws::{
    accessors_are_own, attributes_are_known, bases_are_right, headers_are_known, none_stands_twice,
};
pub use laws::{demands_hold, images_are_read};
pub use members_laws::{signatures_hold, values_hold};
pub use order_laws::{manifest_holds, order_holds, runs_hold, scopes_hold};
pub use parts_laws::{
    assemblies_are_read, attributes_are_named, events_are_named, fields_are_named,
    generics_are_named, manifests_are_named, methods_are_named, properties_are_named,
    rows_are_known, types_are_named,
};
