//! Worlds of an image and its references, and which type may stand where another is wanted in one (ECMA-335 I.8.7, III.1.8).
//! What is asked of a world stands in `type_order`.
#![tactic(auto)]

mod building;

pub use building::{WorldFault, world};
pub use type_order::{
    StackType, TypeKey, TypeKeys, arguments_of, assignable, assignable_is_a_preorder, boxed_of,
    core_scope, core_value, element_of, fields_meant, id_of, interfaces_of, is_reference_key,
    is_value, join, joins_are_least_upper_bounds, key_of, keys_keep_their_types, owner_key, parent,
    parent_key, pointer_to, primitive_key, st_of, stack_of, term_of, type_key, type_named, types,
    vector_of, worlds_go_on,
};
pub use type_tables::members::Assemblies;
