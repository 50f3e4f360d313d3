ghost use Rattle.std.specs.Prelude.{◌≡◌, ◌==◌, ◌≤◌, ◌^◌, length, slice_get};
ghost use Rattle.std.specs.List.{list_any};
ghost use Rattle.il_lexer.specs.Lexing.{all_placed, place_of};
ghost use Rattle.ilasm_grammar.specs.Parsing.{is_left_out, position_of, rule_at, rule_by};
ghost use Rattle.ilasm_grammar.specs.declared.fault.SyntaxFault.TheVariants.{Bad, NoMemory};

use crate::terminals;
use crate::terminals::terminal_of;
use il_base::Pos;
use il_lexer::types::{Span, Token, TokenKind};
use il_lexer::{end_place, place_of, word};
use thiserror::Error;

/// Why tokens have no derivation.
#[derive(Debug, Drop, Error)]
pub enum SyntaxFault {
    /// No source goes on with the token at `pos`. The rule is S2 (2) where the token is a word for a
    /// construct that is left out of the language, else S1 (1).
    #[error("no declaration goes on with this token")]
    Bad {
        /// Where the token stands.
        pos: Pos,
        /// 1 or 2.
        rule: u8,
    },
    /// There was no memory for the tree.
    #[error("no memory")]
    NoMemory,
}

impl From<il_base::NoMemory> for SyntaxFault {
    ghost from_gives = { λ _ e. e ≡ NoMemory };

    fn from(_error: il_base::NoMemory) -> SyntaxFault {
        SyntaxFault::NoMemory
    }
}

/// The terminals whose constructs are left out of the language.
pub static LEFT_OUT: [u16; 22] = [
    terminals::HASH,
    terminals::WORDS + word::DOT_PERMISSIONSET,
    terminals::WORDS + word::DOT_PERMISSION,
    terminals::WORDS + word::DOT_MRESOURCE,
    terminals::WORDS + word::DOT_VTFIXUP,
    terminals::WORDS + word::DOT_VTENTRY,
    terminals::WORDS + word::DOT_EXPORT,
    terminals::WORDS + word::DOT_EMITBYTE,
    terminals::WORDS + word::DOT_ZEROINIT,
    terminals::WORDS + word::DOT_PDIRECT,
    terminals::WORDS + word::DOT_LINE,
    terminals::WORDS + word::DOT_LANGUAGE,
    terminals::WORDS + word::DOT_NAMESPACE,
    terminals::WORDS + word::DOT_TYPEDEF,
    terminals::WORDS + word::DOT_INTERFACEIMPL,
    terminals::WORDS + word::CALLI,
    terminals::WORDS + word::JMP,
    terminals::WORDS + word::NO,
    terminals::WORDS + word::PINVOKEIMPL,
    terminals::WORDS + word::MARSHAL,
    terminals::WORDS + word::UNMANAGED,
    terminals::WORDS + word::UNMANAGEDEXP,
];

/// The syntax fault at token `at` of those that have these spans in a source, or at the source's end behind the last.
pub(crate) fn fault_in(source: &[u8], spans: &[Span], at: usize) -> SyntaxFault
    requires { length source.now ≤ 2 ^ 27 }
    ensures { result ≡ Bad (position_of (slice_get (all_placed source.now spans.now) at) (place_of source.now (length source.now))) (rule_at (slice_get (all_placed source.now spans.now) at)) }
{
    match spans.get(at) {
        None => SyntaxFault::Bad {
            pos: end_place(source),
            rule: 1,
        },
        Some(span) => SyntaxFault::Bad {
            pos: place_of(source, span.start as usize),
            rule: rule_of(span.kind),
        },
    }
}

/// The syntax fault of `tokens` at token `at`, or behind the last at `end`.
pub(crate) fn fault_at(tokens: &[Token], end: Pos, at: usize) -> SyntaxFault
    ensures { result ≡ Bad (position_of (slice_get tokens.now at) end) (rule_at (slice_get tokens.now at)) }
{
    match tokens.get(at) {
        None => SyntaxFault::Bad { pos: end, rule: 1 },
        Some(token) => SyntaxFault::Bad {
            pos: token.pos,
            rule: rule_of(token.kind),
        },
    }
}

/// The rule of a fault at a token of this kind.
fn rule_of(kind: TokenKind) -> u8
    ensures { result ≡ rule_by kind }
{
    let terminal = terminal_of(kind);
    if is_left_out(terminal) { 2 } else { 1 }
}

/// Whether the terminal is a word for a construct that is left out of the language.
#[tactic(auto, unfolding(crate::specs::Parsing::is_left_out))]
fn is_left_out(terminal: u16) -> bool
    ensures { result ≡ is_left_out terminal }
{
    contains(&LEFT_OUT, terminal)
}

/// Whether the terminal is one of these.
fn contains(terminals: &[u16], terminal: u16) -> bool
    ensures { result ≡ list_any (λ x. x == terminal) terminals.now }
{
    terminals.iter().any(|other| *other == terminal)
}
