use il_lists::{Items, Numbers};
use opcode_table::OperandKind;

/// A token that is the operand of an instruction (ECMA-335 III.1.9).
#[derive(Clone, Copy)]
pub struct TokenUse {
    /// What the instruction wants: a method, a field, a type, a user string, or for `ldtoken` one of the first three.
    pub kind: OperandKind,
    /// The token.
    pub token: u32,
}

/// The tokens that are operands, in the order of the instructions.
pub type TokenUses = Items<TokenUse>;

/// What a body says by itself (ECMA-335 II.25.4).
#[derive(Drop)]
pub struct BodyOutline {
    /// The token of its locals, or 0.
    pub locals: u32,
    /// The tokens of its operands.
    pub operands: TokenUses,
    /// The tokens of its catches, in the order of the clauses.
    pub catches: Numbers,
    /// How many instructions it has.
    pub instructions: u32,
    /// How many targets its switches have together.
    pub targets: u32,
    /// How many exception clauses it has.
    pub clauses: u32,
}
