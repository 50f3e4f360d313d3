//! Flags, constants, attributes, data, generic parameters, fields, properties and events as a listing spells them (ECMA-335 II.10.1.7,
//! II.16, II.17, II.18, II.21, II.23.1).
#![tactic(auto)]

mod accessors;
mod constants;
mod fields;
mod flags;
mod generics;
mod properties;
mod tables;
mod values;

pub use constants::write_constant_opt;
pub use fields::{data_behind, write_fields};
pub use flags::{
    write_assembly_flags, write_flags_number, write_implementation_flags, write_method_flags,
    write_parameter_flags, write_type_flags,
};
pub use generics::{write_owners, write_typar_lines, write_typars};
pub use properties::{write_event, write_property};
pub use values::{
    close_braces, open_braces, write_attributes, write_data_line, write_number_in_brackets,
};
