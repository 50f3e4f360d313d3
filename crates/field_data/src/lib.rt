//! What stands at the end of a field's signature decides the size of its data (II.16.3): a primitive type has its width, a value type
//! that of its layout, and no other type has a size.
#![tactic(auto)]

mod fields;
mod kinds;
mod layouts;

pub use fields::data_kind;
pub use kinds::DataKind;
pub use layouts::class_size;
