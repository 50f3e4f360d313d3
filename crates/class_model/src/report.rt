use il_lists::Items;
use type_terms::{MethodRef, TypeName};

/// A method of an interface for which a class has none (ECMA-335 II.12.2).
#[derive(Drop)]
pub struct Slot {
    /// The class.
    pub of: TypeName,
    /// The method. Its owner is the interface, by its name or as an instantiation with normalised arguments; its signature is
    /// as it is declared.
    pub method: MethodRef,
}

/// Slots: the classes in preorder, of a class the interfaces in the order of terms, and their methods in order.
pub type Slots = Items<Slot>;

/// What the classes of an assembly lack.
#[derive(Drop)]
pub struct ClassReport {
    pub missing: Slots,
    /// The number of classes that were checked.
    pub checked: u32,
    /// The number of classes with an ancestor that isn't known, which weren't.
    pub skipped: u32,
}
