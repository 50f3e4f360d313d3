//! The demands on types and members of an image that are asked once its names are known (II.22): bases (I22) and accessors (I23);
//! and those parts of the demands on values (I16) and attributes (I21) that ask nothing of signatures.
#![tactic(auto)]

mod accessors;
mod bases;
mod constants;
mod generics;
mod kinds;
mod layouts;
mod standing;
mod values;

pub use accessors::{Accessors, event_type, property_type};
pub use bases::Bases;
pub use constants::{field_has_constants, param_has_constants, property_has_constants};
pub use generics::{method_has_generics, type_has_generics};
pub use kinds::{event_has_kinds, overrides_in_class, property_has_kinds};
pub use layouts::{has_layout, has_one_data, has_one_offset};
pub use values::{
    event_has_values, has_attributed_parent, override_has_values, param_has_values,
    property_has_values, type_has_values,
};
