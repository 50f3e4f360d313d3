//! The opcodes that mnemonics name (ECMA-335 III.1.2, VI.C.2).

ghost use Rattle.std.specs.Prelude.{◌≡◌, ℕ, List, find, bytes_eq, IfSome};
ghost use Rattle.il_lexer.specs.Spelled.{IsWord};
ghost use Rattle.opcode_table.specs.Opcodes.{names};
ghost use Rattle.source_model.specs.Forest.{Part, preorder};
ghost use Rattle.source_model.specs.Instructions.{op_of, op_or_nop};
ghost use Rattle.source_model.specs.Source.{Source, spelling};
ghost use Rattle.source_nodes.specs.Readers.{Reads};
ghost use Rattle.source_nodes.specs.Walk.{IsForest};

use crate::reader::Reader;
use crate::walk::first_token;
use crate::word_ops::WORD_OPS;
use il_lexer::{the_longest_spelling_is_taken, tokens_are_spellings};
use ilasm_grammar::TreeNode;
use opcode_table::{Op, op_of_word};
use std::str;

/// The opcode that the mnemonic of an instruction names, from the nodes below its production; `nop` where it names none.
pub fn op_of(reader: &Reader, below: &[TreeNode]) -> Op
    requires { IsForest below.now }
    ensures { (s : Source) (p : Part) → Reads reader.now s → preorder p.below ≡ below.now → result ≡ op_of s p }
{
    op_at(reader, first_token(below))
}

// The opcode that a token names; `nop` where it names none.
fn op_at(reader: &Reader, token: u32) -> Op
    ensures { (s : Source) → Reads reader.now s → result ≡ op_or_nop (find (λ row. bytes_eq row.0 (spelling s token)) names) }
{
    the_longest_spelling_is_taken();
    tokens_are_spellings();
    let Some(number) = reader.word_at(token) else {
        return op_named(reader.spelling(token));
    };
    match op_numbered(number) {
        Some(op) => op,
        None => op_named(reader.spelling(token)),
    }
}

// The opcode that the word with a number names; None where there is no such word.
fn op_numbered(number: u16) -> Option<Op>
    ensures { IfSome result (λ op. (word : List ℕ) → IsWord number word → op ≡ op_or_nop (find (λ row. bytes_eq row.0 word) names)) }
{
    match WORD_OPS.get(number as usize) {
        Some(op) => Some(*op),
        None => None,
    }
}

// The opcode that a word names; `nop` where it names none.
fn op_named(word: &[u8]) -> Op
    ensures { result ≡ op_or_nop (find (λ row. bytes_eq row.0 word.now) names) }
{
    match str::from_utf8(word) {
        Ok(word) => match op_of_word(word) {
            Some(op) => op,
            None => Op::Nop,
        },
        Err(_) => Op::Nop,
    }
}
