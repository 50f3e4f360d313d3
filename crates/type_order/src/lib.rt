//! Which type may stand where another is wanted, and what two types merge to (ECMA-335 I.8.7, III.1.8), and what is asked of a
//! world of types. `assignability` makes a world of an image and its references.
#![tactic(auto)]

mod above;
mod ancestry;
mod arrays;
mod common;
mod fields;
mod fits;
mod found;
mod interfaces;
mod joining;
mod keys;
mod laws;
mod led;
mod order;
mod own;
mod owners;
mod queue;
mod stack;
mod stacks;
mod standing;
mod terms;
pub mod types;
mod written;

pub use ancestry::parent;
pub use fields::{fields_meant, type_named};
pub use keys::{
    boxed_of, core_scope, element_of, interfaces_of, is_value, parent_key, pointer_to, st_of,
    term_of,
};
pub use laws::{
    assignable_is_a_preorder, joins_are_least_upper_bounds, keys_keep_their_types, worlds_go_on,
};
pub use order::{assignable, join};
pub use own::{OwnKeys, own_keys};
pub use owners::{
    arguments_of, core_value, is_reference_key, owner_key, primitive_key, type_key, vector_of,
};
pub use type_hierarchy::stack_type::{StackType, TypeKey, TypeKeys, id_of};
pub use written::{key_of, stack_of};
