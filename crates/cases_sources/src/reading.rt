//! A source, read from its bytes on: the assembly that it denotes, or its first fault.

ghost use Rattle.std.specs.Prelude.{◌≤◌, ◌^◌, length};
ghost use Rattle.il_lexer.specs.Lexing.{IsAccepted, all_placed};

use crate::fault::VectorFault;
use assembly_tree::Assembly;
use elaborate::{NameFault, elaborate};
use il_base::Pos;
use il_lexer::types::Spans;
use il_lexer::{LexFault, lexes_in_one_way, spans, tokens};
use ilasm_grammar::{SyntaxFault, parse_spans};
use source_model::NameClass;
use std::alloc::Global;
use std::fmt;

/// How many bytes a source may have.
pub const LIMIT: usize = 0x800_0000;

/// What is printed of a source that breaks no rule.
#[derive(Debug, Clone, Copy, PartialEq, Eq, Drop)]
pub enum Shown {
    /// That it has a derivation, whatever rules on declarations, names and bounds it breaks.
    Derivation,
    /// That it breaks none.
    Rule,
    /// Of the assembly, the manifest and the externs.
    Manifest,
    /// Of the assembly, the members outside of classes, and the classes.
    Contents,
}

impl Shown {
    /// What is shown behind a word.
    pub fn of_word(word: &str) -> Option<Shown> {
        match word {
            "-derivation" => Some(Shown::Derivation),
            "-rule" => Some(Shown::Rule),
            "-manifest" => Some(Shown::Manifest),
            "-contents" => Some(Shown::Contents),
            _ => None,
        }
    }
}

/// A rule that a source breaks.
#[derive(Debug, Clone, Copy, PartialEq, Eq, Drop)]
pub struct Broken {
    /// The letter of the rule's class.
    pub class: char,
    /// The rule's number in its class, from 1.
    pub rule: u8,
    /// Where the token at fault stands.
    pub pos: Pos,
}

impl fmt::Display for Broken {
    fn fmt<W: fmt::Write>(&self, f: &mut fmt::Formatter<W>) -> fmt::Result {
        let Broken { class, rule, pos } = *self;
        let Pos { line, col } = pos;
        write!(f, "{class}{rule} {line}:{col}")
    }
}

/// What a source says.
#[derive(Drop)]
pub enum Reading {
    /// It has a derivation.
    Derived,
    /// It denotes this assembly.
    Assembly(Assembly),
    /// It breaks this rule.
    Broken(Broken),
}

/// Reads a source, as far as what is to be shown of it needs.
///
/// # Errors
///
/// The source is longer than it may be, or there was no memory.
pub fn read(alloc: Global, source: &[u8], shown: Shown) -> Result<Reading, VectorFault> {
    if source.len() > LIMIT {
        return Err(VectorFault::Unread);
    }
    match spans(alloc, source) {
        Ok(spans) => read_spans(alloc, source, &spans, shown),
        Err(LexFault::Bad { pos, rule }) => Ok(breaks('L', rule, pos)),
        Err(LexFault::NoMemory) => Err(VectorFault::NoMemory),
    }
}

// Reads a source from the spans of its tokens on: its derivation by them, as the assembler does, and the assembly by the tokens
// with their places, so that both kinds of calls are tried.
fn read_spans(
    alloc: Global,
    source: &[u8],
    spans: &Spans,
    shown: Shown,
) -> Result<Reading, VectorFault>
    requires short { length source.now ≤ 2 ^ 27 }
    requires accepted { IsAccepted source.now (all_placed source.now spans.now) }
{
    let tree = match parse_spans(alloc, source, spans) {
        Ok(tree) => tree,
        Err(SyntaxFault::Bad { pos, rule }) => return Ok(breaks('S', rule, pos)),
        Err(SyntaxFault::NoMemory) => return Err(VectorFault::NoMemory),
    };
    if shown == Shown::Derivation {
        return Ok(Reading::Derived);
    }
    lexes_in_one_way();
    let Ok(tokens) = tokens(alloc, source) else {
        return Err(VectorFault::NoMemory);
    };
    match elaborate(alloc, source, &tokens, &tree) {
        Ok(assembly) => Ok(Reading::Assembly(assembly)),
        Err(NameFault::Bad { pos, class, rule }) => Ok(breaks(letter(class), rule, pos)),
        Err(NameFault::NoMemory) => Err(VectorFault::NoMemory),
    }
}

fn breaks(class: char, rule: u8, pos: Pos) -> Reading {
    Reading::Broken(Broken { class, rule, pos })
}

fn letter(class: NameClass) -> char {
    match class {
        NameClass::D => 'D',
        NameClass::N => 'N',
        NameClass::B => 'B',
    }
}
