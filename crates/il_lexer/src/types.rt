//! Tokens, their kinds, and the faults of a source that doesn't lex.

ghost use Rattle.std.specs.Prelude.{◌≡◌};

use il_base::{Items, NoMemory, Pos};
use thiserror::Error;

/// What a token is (II.5.2 to II.5.4).
#[derive(Debug, Clone, Copy, PartialEq, Eq, Drop)]
pub enum TokenKind {
    /// A name: identifiers and quoted parts joined by dots.
    Name,
    /// A name in brackets, without gaps.
    Scope,
    /// An integer, decimal or hexadecimal.
    Int,
    /// A string in double quotes.
    QString,
    /// `=` and bytes in parentheses.
    EqBytes,
    /// `bytearray` and bytes in parentheses.
    ByteArray,
    /// Four or eight bytes in parentheses.
    RealBytes,
    /// A hash word. All of them are left out of the language.
    Hash,
    /// A directive that is neither in the grammar nor left out by name.
    Unused,
    /// A reserved word, a directive, a bracket word or a mark, by its number in `WORDS`.
    Word(u16),
}

/// A kind of token and the number of its bytes.
#[derive(Debug, Clone, Copy, PartialEq, Eq, Drop)]
pub struct Lexeme {
    pub kind: TokenKind,
    pub length: usize,
}

/// A token of a source: its kind, the bytes from `start` up to `end`, and the place of its first byte.
#[derive(Debug, Clone, Copy, PartialEq, Eq, Drop)]
pub struct Token {
    pub kind: TokenKind,
    pub start: u32,
    pub end: u32,
    pub pos: Pos,
}

/// The tokens of a source, in its order.
pub type Tokens = Items<Token>;

/// A token without the place of its first byte: its kind, and the bytes from `start` up to `end`.
#[derive(Debug, Clone, Copy, PartialEq, Eq, Drop)]
pub struct Span {
    pub kind: TokenKind,
    pub start: u32,
    pub end: u32,
}

/// The spans of a source's tokens, in its order.
pub type Spans = Items<Span>;

/// Why a source doesn't lex.
#[derive(Debug, Drop, Error)]
pub enum LexFault {
    /// Rule L1 to L7, as `rule` 1 to 7, is broken at `pos`.
    #[error("a lexical rule is broken")]
    Bad { pos: Pos, rule: u8 },
    /// There was no memory for the tokens.
    #[error("no memory")]
    NoMemory,
}

impl From<NoMemory> for LexFault {
    ghost use Rattle.il_lexer.specs.declared.types.LexFault.TheVariants.{NoMemory};

    ghost from_gives = { λ _ fault. fault ≡ NoMemory };

    fn from(_error: NoMemory) -> LexFault {
        LexFault::NoMemory
    }
}
