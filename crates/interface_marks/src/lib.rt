//! Which rows of InterfaceImpl name a type that no earlier row of the same class names, so that equal interfaces of a type count once
//! (ECMA-335 II.22.23).
#![tactic(auto)]

mod marks;

pub use marks::mark_interfaces;
