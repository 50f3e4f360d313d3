use crate::{Owner, SigType, Types};
use il_lists::Text;

/// The signature of a method or a property (ECMA-335 II.23.2.1, II.23.2.2, II.23.2.5).
#[derive(Drop)]
pub struct MethodSig {
    /// `instance`
    pub has_this: bool,
    /// `explicit`
    pub explicit_this: bool,
    /// `vararg`
    pub vararg: bool,
    /// The number of generic parameters.
    pub generic: u32,
    pub ret: SigType,
    pub params: Types,
    /// The number of parameters before the sentinel `...`, where there is one.
    pub sentinel: Option<u32>,
}

/// A method as an instruction or a row names it (ECMA-335 II.22.25, II.22.29).
#[derive(Drop)]
pub struct MethodRef {
    pub owner: Owner,
    pub name: Text,
    pub sig: MethodSig,
    /// The arguments of a generic method's instantiation, where there are any.
    pub args: Option<Types>,
}

/// A field as an instruction names it (ECMA-335 II.22.25).
#[derive(Drop)]
pub struct FieldRef {
    pub owner: Owner,
    pub name: Text,
    pub of: SigType,
}
