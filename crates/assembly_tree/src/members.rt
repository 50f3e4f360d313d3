use crate::Body;
use il_lists::{Bytes, Items, Text, Units};
use type_terms::{MethodRef, MethodRefs, MethodSig, Owner, Owners, Prim, SigType};

/// A generic parameter of a type or a method (II.10.1.7, II.22.20), with the types that bound it.
#[derive(Drop)]
pub struct Generic {
    pub name: Text,
    /// II.23.1.7.
    pub flags: u16,
    pub bounds: Owners,
    pub attributes: Attributes,
}

/// A field (II.16, II.22.15).
#[derive(Drop)]
pub struct Field {
    pub name: Text,
    /// II.23.1.5, without HasDefault and HasFieldRVA.
    pub flags: u16,
    pub of: SigType,
    pub constant: Option<Constant>,
    /// The place in an instance of a type with explicit layout, in bytes (II.10.7).
    pub offset: Option<u32>,
    /// The initial bytes of a static field that is mapped to data (II.16.3).
    pub content: Option<Bytes>,
    pub attributes: Attributes,
}

/// A method (II.15, II.22.26).
#[derive(Drop)]
pub struct Method {
    pub name: Text,
    /// II.23.1.10.
    pub flags: u16,
    /// II.23.1.11.
    pub impl_flags: u16,
    pub sig: MethodSig,
    pub generics: Generics,
    pub params: Params,
    /// The methods that this one is given as the body of (II.10.3.2).
    pub overrides: MethodRefs,
    /// Whether the program starts here.
    pub entry: bool,
    pub body: Option<Body>,
    pub attributes: Attributes,
}

/// What is said of a parameter beside its type (II.15.4.1, II.22.33); number 0 is the return value.
#[derive(Drop)]
pub struct Param {
    pub number: u16,
    /// II.23.1.13, without HasDefault.
    pub flags: u16,
    /// Empty where it has none.
    pub name: Text,
    pub constant: Option<Constant>,
    pub attributes: Attributes,
}

/// A property (II.17, II.22.34).
#[derive(Drop)]
pub struct Property {
    pub name: Text,
    /// II.23.1.14, without HasDefault.
    pub flags: u16,
    pub sig: MethodSig,
    pub constant: Option<Constant>,
    pub accessors: Accessors,
    pub attributes: Attributes,
}

/// An event (II.18, II.22.13).
#[derive(Drop)]
pub struct Event {
    pub name: Text,
    /// II.23.1.4.
    pub flags: u16,
    pub of: Owner,
    pub accessors: Accessors,
    pub attributes: Attributes,
}

/// A method of the same type, by its place there, and what it does for its property or event
/// (II.23.1.12).
#[derive(Clone, Copy, PartialEq, Eq, Debug)]
pub struct Accessor {
    pub kind: u16,
    pub method: u32,
}

/// A custom attribute (II.21, II.22.10): its constructor and the bytes of its value.
#[derive(Drop)]
pub struct Attribute {
    pub constructor: MethodRef,
    pub value: Bytes,
}

/// A constant of a field, parameter or property (II.16.2, II.22.9). Real numbers are bit patterns.
#[derive(Drop)]
pub enum Constant {
    Bool(bool),
    Char(u16),
    Int { of: Prim, value: i128 },
    Real4(u32),
    Real8(u64),
    Str(Units),
    Null,
}

/// Accessors in row order.
pub type Accessors = Items<Accessor>;

/// Attributes of one owner in row order.
pub type Attributes = Items<Attribute>;

/// The events of a type.
pub type Events = Items<Event>;

/// The fields of a type.
pub type Fields = Items<Field>;

/// The generic parameters of a type or method, by number.
pub type Generics = Items<Generic>;

/// The methods of a type.
pub type Methods = Items<Method>;

/// The parameters of a method of which more is said than a type, strictly rising by number.
pub type Params = Items<Param>;

/// The properties of a type.
pub type Properties = Items<Property>;
