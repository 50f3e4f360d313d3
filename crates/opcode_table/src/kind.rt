/// What follows the bytes of an opcode in a body, by the form in which it is spelled (III.1.9, VI.C.2).
#[derive(Debug, Clone, Copy, PartialEq, Eq, Drop)]
pub enum OperandKind {
    /// No operand.
    Nothing,
    /// The number of an argument or a local, in one byte.
    Var8,
    /// The number of an argument or a local, in two bytes.
    Var16,
    /// A signed number in one byte.
    Num8,
    /// A signed number in four bytes.
    Num32,
    /// A signed number in eight bytes.
    Num64,
    /// An unsigned number in one byte.
    Byte,
    /// A real number in four bytes.
    Real4,
    /// A real number in eight bytes.
    Real8,
    /// The displacement of a branch, in one byte.
    Branch8,
    /// The displacement of a branch, in four bytes.
    Branch32,
    /// A count of four bytes, and as many displacements of four bytes.
    Switch,
    /// The token of a method.
    Method,
    /// The token of a field.
    Field,
    /// The token of a type.
    Of,
    /// The token of a user string.
    Text,
    /// The token of a method, a field or a type, as of `ldtoken`.
    Token,
}
