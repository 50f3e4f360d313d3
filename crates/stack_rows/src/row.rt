use il_lists::Items;
use type_order::{StackType, TypeKey};

/// What an instruction asks of one operand (ECMA-335 III.1.5, III.3, III.4).
#[derive(Clone, Copy, Drop)]
pub enum Demand {
    /// Nothing: where the variable is missing that would say what.
    Nothing,
    /// Every kind but Bad.
    Any,
    Number,
    /// A number but float.
    Integer,
    Index,
    /// An object reference.
    Object,
    /// What is tested for null, zero or false.
    Condition,
    /// What may be one of a pair.
    Comparable,
    Exactly(StackType),
    OneOf(StackType, StackType),
    /// What is assignable to that type.
    To(StackType),
    /// A managed pointer to a reference type.
    ObjectPointer,
    /// Null or a vector.
    Vector,
    /// Null or a vector of elements with that verification type.
    VectorOf(TypeKey),
    /// Null or a vector of a reference type.
    ObjectVector,
}

/// How two operands go together (ECMA-335 III.1.5).
#[derive(Clone, Copy, Drop)]
pub enum Pairing {
    Numeric,
    /// Numeric operations on integers.
    Integral,
    /// Comparisons for being equal.
    Equality,
    /// The other comparisons.
    Ordering,
}

/// What is asked of operands together.
#[derive(Clone, Copy, Drop)]
pub enum Together {
    Apart,
    /// The two are a pair.
    Paired(Pairing),
    /// The second is assignable to what the first points to.
    Stored,
}

/// What an instruction pushes.
#[derive(Clone, Copy, Drop)]
pub enum Pushed {
    /// That type, whatever the operands are.
    Always(StackType),
    /// The first operand.
    Same,
    /// The first operand where it is a number.
    SameNumber,
    SameInteger,
    /// An object of the reference type that the first operand points to.
    Pointed,
    /// An element of the first operand, a vector of a reference type, and null where that is null.
    Fetched,
    /// The outcome of a numeric operation on the two operands.
    Computed(Pairing),
}

/// The operands and results of an instruction (ECMA-335 III.3, III.4). What was pushed first stands first.
#[derive(Drop)]
pub struct Row {
    pub operands: Items<Demand>,
    pub together: Together,
    pub pushed: Items<Pushed>,
    /// Whether the stack is empty afterwards.
    pub empties: bool,
}
