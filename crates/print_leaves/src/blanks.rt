//! The blanks and line ends between tokens.
ghost use Rattle.std.specs.Prelude.{◌≡◌, ◌≤◌, ◌==◌, ◌++◌, false, length, string_bytes, OnOk};
ghost use Rattle.std.specs.List.{list_any};
ghost use Rattle.il_lexer.specs.declared.word.TheConstants.{COMMA};
ghost use Rattle.listing_model.specs.Text.{has_blank, shuts_behind, shuts_before, joins_integer, is_the};
ghost use Rattle.print_leaves.specs.Page.{lead_in, line_begin, leaf_of};

use il_lexer::{TokenKind, word};
use il_lists::NoMemory;

/// Writes what stands before a token of this kind, in a line of this depth, behind a token of the kind `last`, if there is one.
/// `starts` is set for a token that begins a line, `apart` for a `[` that has a blank before it.
pub(crate) fn push_lead(
    text: &mut String,
    depth: usize,
    last: Option<TokenKind>,
    starts: bool,
    apart: bool,
    kind: TokenKind,
) -> Result<(), NoMemory>
    ensures ok { OnOk result (string_bytes text.new ≡ string_bytes text.old ++ lead_in depth last (leaf_of starts apart kind)) }
    ensures grows { length (string_bytes text.old) ≤ length (string_bytes text.new) }
{
    if starts {
        push_line(text, depth, last.is_some())?;
        return Ok(());
    }
    if let Some(before) = last {
        if has_blank(before, apart, kind) {
            text.push(' ')?;
        }
    }
    Ok(())
}

// The end of the line before, if there is one, and two blanks for each brace that is open.
fn push_line(text: &mut String, depth: usize, ends: bool) -> Result<(), NoMemory>
    ensures ok { OnOk result (string_bytes text.new ≡ string_bytes text.old ++ line_begin ends depth) }
    ensures grows { length (string_bytes text.old) ≤ length (string_bytes text.new) }
{
    if ends {
        text.push('\n')?;
    }
    for level in 0..depth {
        text.push_str("  ")?;
    }
    Ok(())
}

// Whether a blank stands between a token of the kind `before` and one of this kind in its line.
fn has_blank(before: TokenKind, apart: bool, kind: TokenKind) -> bool
    ensures { result ≡ has_blank before (leaf_of false apart kind) }
{
    if is_comma(before) {
        return true;
    }
    if shuts_behind(before) {
        return false;
    }
    apart || !(shuts_before(kind) || joins_integer(before, kind))
}

fn is_comma(kind: TokenKind) -> bool
    ensures { result ≡ is_the COMMA kind }
{
    match kind {
        TokenKind::Word(number) => number == word::COMMA,
        _ => false,
    }
}

// The marks behind which no blank stands, and those before which none stands.
static SHUT_BEHIND: [u16; 7] = [
    word::OPEN_PAREN,
    word::OPEN_BRACKET,
    word::LESS,
    word::DOUBLE_COLON,
    word::SLASH,
    word::BANG,
    word::DOUBLE_BANG,
];

static SHUT_BEFORE: [u16; 12] = [
    word::COMMA,
    word::CLOSE_PAREN,
    word::CLOSE_BRACKET,
    word::GREATER,
    word::COLON,
    word::DOUBLE_COLON,
    word::SLASH,
    word::OPEN_PAREN,
    word::OPEN_BRACKET,
    word::LESS,
    word::AMPERSAND,
    word::STAR,
];

fn is_among(marks: &[u16], number: u16) -> bool
    ensures { result ≡ list_any (λ mark. mark == number) marks.now }
{
    marks.iter().any(|mark| *mark == number)
}

fn shuts_behind(kind: TokenKind) -> bool
    ensures { result ≡ shuts_behind kind }
{
    match kind {
        TokenKind::Scope => true,
        TokenKind::Word(number) => is_among(&SHUT_BEHIND, number),
        _ => false,
    }
}

fn shuts_before(kind: TokenKind) -> bool
    ensures { result ≡ shuts_before kind }
{
    match kind {
        TokenKind::Word(number) => is_among(&SHUT_BEFORE, number),
        _ => false,
    }
}

fn joins_integer(before: TokenKind, after: TokenKind) -> bool
    ensures { result ≡ joins_integer before after }
{
    match (before, after) {
        (TokenKind::Word(number), TokenKind::Int) => number == word::COLON
            || number == word::ELLIPSIS,
        (TokenKind::Int, TokenKind::Word(number)) => number == word::ELLIPSIS,
        _ => false,
    }
}
