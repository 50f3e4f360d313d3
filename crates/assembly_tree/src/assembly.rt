use crate::{Attributes, Fields, Methods, TypeDefs};
use il_lists::{Bytes, Items, Text};

/// An assembly of one module (II.6). `fields` and `methods` are those of the type `<Module>`.
#[derive(Drop)]
pub struct Assembly {
    pub manifest: Manifest,
    pub externs: Externs,
    pub fields: Fields,
    pub methods: Methods,
    pub types: TypeDefs,
}

/// What the assembly and its module say of themselves (II.6.2, II.22.2, II.22.30), and the numbers of the
/// image's headers that a source can set (II.25.2.3).
#[derive(Drop)]
pub struct Manifest {
    /// The assembly's name.
    pub name: Text,
    /// Major, minor, build and revision number.
    pub version: [u16; 4],
    /// The flags of the Assembly row (II.23.1.2).
    pub flags: u32,
    /// The public key; empty where there is none.
    pub key: Bytes,
    pub culture: Text,
    /// The identifier of the hash algorithm (II.23.1.1).
    pub hash: u32,
    /// The module's name.
    pub module: Text,
    pub image_base: u32,
    pub file_alignment: u32,
    pub stack_reserve: u32,
    pub subsystem: u16,
    /// The flags of the CLI header (II.25.3.3.1), without bit 8.
    pub cor_flags: u32,
    /// The assembly's attributes.
    pub attributes: Attributes,
    pub module_attributes: Attributes,
}

/// An assembly that this one names (II.6.3, II.22.5).
#[derive(Drop)]
pub struct ExternAssembly {
    pub name: Text,
    /// Major, minor, build and revision number.
    pub version: [u16; 4],
    pub flags: u32,
    /// The public key where flag 1 is set, else the key's token.
    pub key: Bytes,
    pub culture: Text,
    pub hash: Bytes,
}

/// Externs in source order; a `Scope::Extern` is a place in this list.
pub type Externs = Items<ExternAssembly>;
