//! The terminals of the grammar, by their numbers: a terminal is a kind of token.

ghost use Rattle.std.specs.Prelude.{◌≡◌, ◌<◌, ℕ};
ghost use Rattle.il_lexer.specs.declared.types.TokenKind.TheVariants.{Word};
ghost use Rattle.ilasm_grammar.specs.Terminals.{terminal_of};

use il_lexer::types::TokenKind;

/// A name.
pub const NAME: u16 = 0;
/// A name in brackets.
pub const SCOPE: u16 = 1;
/// An integer.
pub const INT: u16 = 2;
/// A string in double quotes.
pub const QSTRING: u16 = 3;
/// `=` and bytes in parentheses.
pub const EQ_BYTES: u16 = 4;
/// `bytearray` and bytes in parentheses.
pub const BYTE_ARRAY: u16 = 5;
/// Four or eight bytes in parentheses.
pub const REAL_BYTES: u16 = 6;
/// A hash word, which no production has.
pub const HASH: u16 = 7;
/// A directive or word that no production has.
pub const UNUSED: u16 = 8;
/// The first word: word k of `il_lexer::WORDS` is the terminal `WORDS + k`.
pub const WORDS: u16 = 9;
/// The number of terminals. It stands for the end of a source too.
pub const END: u16 = 410;

/// The terminal that stands for a kind of token.
pub fn terminal_of(kind: TokenKind) -> u16
    ensures is { result ≡ terminal_of kind }
    ensures low { result < END }
{
    match kind {
        TokenKind::Word(number) => word_terminal(number),
        TokenKind::Name => NAME,
        _ => other_terminal(kind),
    }
}

/// The terminal of a kind that is no word.
#[cold]
#[inline(never)]
fn other_terminal(kind: TokenKind) -> u16
    ensures is { ((number : ℕ) → kind ≡ Word number → ⊥) → result ≡ terminal_of kind }
    ensures low { result < END }
{
    match kind {
        TokenKind::Name => NAME,
        TokenKind::Scope => SCOPE,
        TokenKind::Int => INT,
        TokenKind::QString => QSTRING,
        TokenKind::EqBytes => EQ_BYTES,
        TokenKind::ByteArray => BYTE_ARRAY,
        TokenKind::RealBytes => REAL_BYTES,
        TokenKind::Hash => HASH,
        TokenKind::Unused | TokenKind::Word(_) => UNUSED,
    }
}

/// The terminal of the word with this number.
fn word_terminal(number: u16) -> u16
    ensures is { result ≡ terminal_of (Word number) }
    ensures low { result < END }
{
    if number < END - WORDS {
        WORDS + number
    } else {
        UNUSED
    }
}
