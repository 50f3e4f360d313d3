//! Tokens and derivations of sources.

use crate::fault::Fault;
use crate::values::{bytes_of, two};
use il_base::{Bytes, Pos};
use il_lexer::types::{LexFault, TokenKind, Tokens};
use il_lexer::{end_place, tokens, word_text};
use ilasm_grammar::productions::SOURCE;
use ilasm_grammar::{SyntaxFault, Tree, TreeNode, parse};
use std::alloc::Global;

/// The longest source of a line.
const LONGEST: usize = 100_000;

/// The first token of the source that `first TEXT` or `first_of BYTES` has, or its lexical fault; whether the source that `parse TEXT`
/// or `parse_of BYTES` has is derived, or its fault; or where the source of `end_of BYTES` ends.
pub fn push_answer(alloc: Global, out: &mut String, line: &str) -> Result<(), Fault> {
    match two(line)? {
        ("first", text) => push_first(alloc, out, text.as_bytes()),
        ("first_of", bytes) => push_first(alloc, out, bytes_of(alloc, bytes)?.as_slice()),
        ("parse", text) => push_parsed(alloc, out, text.as_bytes()),
        ("parse_of", bytes) => push_parsed(alloc, out, bytes_of(alloc, bytes)?.as_slice()),
        ("end_of", bytes) => push_end(out, &bytes_of(alloc, bytes)?),
        _ => Err(Fault::Meaningless),
    }
}

fn push_end(out: &mut String, source: &Bytes) -> Result<(), Fault> {
    if source.len() > LONGEST {
        return Err(Fault::Meaningless);
    }
    let end = end_place(source.as_slice());
    write!(out, "{}:{}", end.line, end.col)?;
    Ok(())
}

/// The tokens, or None where the source has a lexical fault, which is added.
fn lexed(alloc: Global, out: &mut String, source: &[u8]) -> Result<Option<Tokens>, Fault> {
    if source.len() > LONGEST {
        return Err(Fault::Meaningless);
    }
    match tokens(alloc, source) {
        Ok(tokens) => Ok(Some(tokens)),
        Err(LexFault::Bad { pos, rule }) => {
            push_fault(out, "L", rule, pos)?;
            Ok(None)
        }
        Err(LexFault::NoMemory) => Err(Fault::NoMemory),
    }
}

fn push_fault(out: &mut String, class: &str, rule: u8, pos: Pos) -> Result<(), Fault> {
    write!(out, "{class}{rule} at {}:{}", pos.line, pos.col)?;
    Ok(())
}

fn push_first(alloc: Global, out: &mut String, source: &[u8]) -> Result<(), Fault> {
    let Some(tokens) = lexed(alloc, out, source)? else {
        return Ok(());
    };
    let Some(first) = tokens.get(0) else {
        out.push_str("no token")?;
        return Ok(());
    };
    let (start, end) = (first.start, first.end);
    match first.kind {
        TokenKind::Word(number) if number < 401 => {
            let word = word_text(number);
            write!(out, "the word {word}, {start} to {end}")?;
        }
        kind => write!(out, "{kind:?}, {start} to {end}")?,
    }
    Ok(())
}

fn push_parsed(alloc: Global, out: &mut String, source: &[u8]) -> Result<(), Fault> {
    match lexed(alloc, out, source)? {
        Some(tokens) => push_derived(alloc, out, source, &tokens),
        None => Ok(()),
    }
}

fn push_derived(
    alloc: Global,
    out: &mut String,
    source: &[u8],
    tokens: &Tokens,
) -> Result<(), Fault> {
    if source.len() > LONGEST || tokens.len() > LONGEST {
        return Err(Fault::Meaningless);
    }
    match parse(alloc, tokens, end_place(source)) {
        Ok(tree) => out.push_str(if is_whole(&tree) { "ok" } else { "not whole" })?,
        Err(SyntaxFault::Bad { pos, rule }) => push_fault(out, "S", rule, pos)?,
        Err(SyntaxFault::NoMemory) => return Err(Fault::NoMemory),
    }
    Ok(())
}

/// Whether the first node is the start, above all others.
fn is_whole(tree: &Tree) -> bool {
    match tree.get(0) {
        Some(TreeNode::Branch { production, nodes }) => {
            *production == SOURCE && *nodes as usize + 1 == tree.len()
        }
        _ => false,
    }
}
