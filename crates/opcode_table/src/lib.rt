//! The opcodes of the instruction set (Partition III).
#![tactic(auto)]

mod bytes;
mod kind;
mod lookup;
mod mnemonic;
mod op;
mod sizes;
mod table;

pub use bytes::op_of_bytes;
pub use kind::OperandKind;
pub use lookup::candidate;
pub use mnemonic::op_of_word;
pub use op::Op;
pub use sizes::{opcode_size, operand_size};
pub use table::{bytes_of, kind_of, word_of};
