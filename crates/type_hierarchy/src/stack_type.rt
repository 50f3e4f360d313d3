ghost use Rattle.std.specs.Prelude.{◌≡◌};

use il_lists::Items;
use sig_pool::SigId;
use std::marker::Model;

/// A normalised type, by its id in the pool of the world that gave it. Contracts see it as that number.
#[derive(Debug, Clone, Copy, PartialEq, Eq, Drop)]
pub struct TypeKey(SigId);

impl Model for TypeKey {
    ghost use Rattle.std.specs.Prelude.{ℕ};

    ghost Value = { ℕ };

    ghost view = { λ k. k.0 };

    ghost inverse = { λ n. record { 0 = n } };
}

impl TypeKey {
    /// The key of the type with that id.
    pub fn new(id: SigId) -> TypeKey
        ensures { result ≡ id }
    {
        TypeKey(id)
    }

    /// The id of the type.
    pub fn id(self) -> SigId
        ensures { result ≡ self }
    {
        self.0
    }
}

/// The id of the key's type in the pool of the world that gave it.
pub fn id_of(k: &TypeKey) -> SigId
    ensures { result ≡ k.now }
{
    k.id()
}

/// A list of keys.
pub type TypeKeys = Items<TypeKey>;

/// The type of a value on the evaluation stack (ECMA-335 III.1.1, I.12.3.2.1).
#[derive(Debug, Clone, Copy, Drop)]
pub enum StackType {
    /// int32
    I4,
    /// int64
    I8,
    /// native int, and unmanaged pointers
    N,
    /// F, the floating-point type
    F,
    /// The type of ldnull.
    Null,
    /// A reference to an object of a reference type.
    Ref(TypeKey),
    /// A boxed value of a type that is no reference type.
    Boxed(TypeKey),
    /// A value of a value type or of a generic variable's type.
    Val(TypeKey),
    /// A managed pointer to a type.
    Ptr(TypeKey),
    /// What is none of these.
    Bad,
}
