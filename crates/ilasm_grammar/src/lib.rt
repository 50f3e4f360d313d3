//! The grammar of assembler sources as a production table, and the predictive parser over it: it
//! answers the one derivation of a list of tokens, or the first token that no source goes on with.
#![tactic(auto)]

mod cells;
mod choices;
mod counts;
mod fault;
mod laws;
mod leftmost;
pub mod nonterminals;
mod outcome;
mod parser;
mod places;
pub mod productions;
pub mod rules;
mod stack;
mod symbol;
mod table;
pub mod terminals;
mod tree;

pub use fault::{LEFT_OUT, SyntaxFault};
pub use laws::{branch_opens, one_derivation, one_fault, table_facts};
pub use parser::{parse, parse_spans};
pub use symbol::Symbol;
pub use tree::{Tree, TreeNode};
