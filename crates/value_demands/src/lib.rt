//! Parts of the demand on values (I16) that ask signatures: the generic parameters and params of a method (II.22.20, II.22.33), and the
//! arguments of a row of MethodSpec (II.22.29).
#![tactic(auto)]

mod counts;
mod instances;
mod methods;
mod params;
mod used_rows;

pub use instances::instance_has_values;
pub use methods::method_has_values;
pub use used_rows::UsedRows;
