use crate::{Attributes, Events, Fields, Generics, Methods, Properties};
use il_lists::{Items, Numbers};
use type_terms::{Owner, Owners, TypeId};

/// A type that the assembly declares (II.10, II.22.37).
#[derive(Drop)]
pub struct TypeDef {
    pub id: TypeId,
    /// II.23.1.15.
    pub flags: u32,
    pub layout: Option<Layout>,
    pub generics: Generics,
    /// The base type; none for an interface and for the top-level `System.Object`.
    pub extends: Option<Owner>,
    /// The implemented interfaces, strictly rising by `compare_owners`.
    pub implements: Owners,
    pub fields: Fields,
    pub methods: Methods,
    pub properties: Properties,
    pub events: Events,
    pub nested: TypeDefs,
    pub attributes: Attributes,
}

/// Types in source order.
pub type TypeDefs = Items<TypeDef>;

/// The packing size and the class size of a type, in bytes (II.10.7, II.22.8).
#[derive(Clone, Copy, PartialEq, Eq, Debug)]
pub struct Layout {
    pub pack: u16,
    pub size: u32,
}

/// A method's place: `types` leads from a top-level type inwards by places in the lists of types, and
/// is empty for `<Module>`; `method` is the place in that type's methods.
#[derive(Drop)]
pub struct MethodPath {
    pub types: Numbers,
    pub method: u32,
}
