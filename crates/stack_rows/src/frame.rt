use type_order::{TypeKey, TypeKeys};

/// The types that a body's arguments and locals and its method's result have (ECMA-335 II.15.4).
#[derive(Drop)]
pub struct CodeFrame {
    /// The object of an instance method is argument 0.
    pub arguments: TypeKeys,
    pub locals: TypeKeys,
    pub returns: TypeKey,
}
