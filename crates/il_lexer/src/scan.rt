//! The tokens of a whole source.

ghost use Rattle.std.specs.Prelude.{◌≡◌, ◌-◌, ◌<◌, ◌≤◌, ◌^◌, length, drop, map, IsUtf8, IfOk, MatchResult, MatchOption, ℕ, nat_le, true, false};
ghost use Rattle.std.specs.Str.Lossy.{utf8_valid_len};
ghost use Rattle.il_lexer.specs.Lexing.{all_placed, place_of, mark_length, span_of, depth_after, is_opening, is_closing, IsAccepted, HasFault, IfBad, BreaksAt};
ghost use Rattle.il_lexer.specs.declared.types.LexFault.TheVariants.{Bad};

use crate::bytes::{behind, stands_at};
use crate::gaps::past_gap;
use crate::lexeme::token_at;
use crate::lines::{first_line, place_from, place_of};
use crate::searches::{Kind, before};
use crate::types::{LexFault, Span, Spans, Token, TokenKind, Tokens};
use crate::word;
use il_base::{NoMemory, Pos};
use std::alloc::Global;

/// The most tokens that a source may have.
const MOST_TOKENS: usize = 16_777_216;

/// The most brackets that may be open behind a token.
const DEEPEST: u32 = 400;

// The bytes of a byte order mark at the very front.
#[tactic(auto, unfolding(crate::specs::Lexing::mark_length))]
fn mark_length(source: &[u8]) -> usize
    ensures value { result ≡ mark_length source.now }
    ensures fits { result ≤ length source.now }
{
    if stands_at(source, 0, 0xEF) && stands_at(source, 1, 0xBB) && stands_at(source, 2, 0xBF) {
        3
    } else {
        0
    }
}

// Whether a token may open or close a bracket: it does not where it is no word, or a word that stands between `]` and `{`
// in the order of the words, as nearly all of them do.
#[tactic(auto, unfolding(crate::specs::Lexing::depth_after))]
fn may_be_bracket(kind: TokenKind) -> bool
    ensures { result ≡ false → (depth : ℕ) → depth_after depth kind ≡ depth }
{
    let TokenKind::Word(number) = kind else {
        return false;
    };
    number <= word::CLOSE_BRACKET || number >= word::OPEN_BRACE
}

// The depth of brackets behind a token.
#[tactic(auto, unfolding(crate::specs::Lexing::depth_after))]
fn depth_after(depth: u32, kind: TokenKind) -> u32
    requires { depth < 2 ^ 31 }
    ensures { result ≡ depth_after depth kind }
{
    let TokenKind::Word(number) = kind else {
        return depth;
    };
    if opens(number) {
        depth + 1
    } else if closes(number) {
        depth.saturating_sub(1)
    } else {
        depth
    }
}

// Whether a word opens a bracket.
fn opens(number: u16) -> bool
    ensures { result ≡ is_opening number }
{
    number == word::OPEN_BRACE
        || number == word::OPEN_PAREN
        || number == word::OPEN_BRACKET
        || number == word::LESS
}

// Whether a word closes a bracket.
fn closes(number: u16) -> bool
    ensures { result ≡ is_closing number }
{
    number == word::CLOSE_BRACE
        || number == word::CLOSE_PAREN
        || number == word::CLOSE_BRACKET
        || number == word::GREATER
}

// The depth of brackets behind a token, where it isn't too deep.
fn depth_within(depth: u32, kind: TokenKind) -> Option<u32>
    requires { depth ≤ 400 }
    ensures { MatchOption result (400 < depth_after depth kind) (λ d. (d ≡ depth_after depth kind) × (d ≤ 400)) }
{
    if !may_be_bracket(kind) {
        return Some(depth);
    }
    let after = depth_after(depth, kind);
    if after > DEEPEST { None } else { Some(after) }
}

// The fault by a rule that is broken at byte `at`.
#[cold]
#[inline(never)]
fn fault_at(source: &[u8], at: usize, rule: u8) -> LexFault
    requires { length source.now ≤ 2 ^ 27 }
    ensures { result ≡ Bad (place_of source.now at) rule }
{
    LexFault::Bad {
        pos: place_of(source, at),
        rule,
    }
}

// The spans of the tokens of a source that is UTF-8, or the first place where it breaks a rule.
#[inline(never)]
fn scan(alloc: Global, source: &[u8]) -> Result<Spans, LexFault>
    requires short { length source.now ≤ 2 ^ 27 }
    requires utf8 { IsUtf8 source.now }
    ensures { MatchResult result (λ spans. IsAccepted source.now (all_placed source.now spans)) (λ e. IfBad e (λ pos rule. BreaksAt source.now pos rule)) }
{
    let mut spans = Spans::with_capacity(alloc, source.len() / 4 + 16)?;
    let mut at = mark_length(source);
    let mut depth: u32 = 0;
    loop {
        let start = past_gap(source, at);
        if start == source.len() {
            return Ok(spans);
        }
        let found = match token_at(behind(source, start)) {
            Ok(found) => found,
            Err(rule) => return Err(fault_at(source, start, rule)),
        };
        if spans.len() >= MOST_TOKENS {
            return Err(fault_at(source, start, 6));
        }
        let Some(after) = depth_within(depth, found.kind) else {
            return Err(fault_at(source, start, 7));
        };
        depth = after;
        at = start + found.length;
        spans.push_long(Span {
            kind: found.kind,
            start: start as u32,
            end: at as u32,
        })?;
    }
}

// A byte of 0x7F or above. That 0x7F, which is ASCII, is one of them lets sixteen bytes be compared together.
struct HighByte;

impl Kind for HighByte {
    ghost is_kind = { λ _ c. nat_le 127 c };

    fn has(&self, byte: u8) -> bool {
        byte >= 0x7F
    }
}

// Whether all bytes are low ones of ASCII, as those of most sources are.
fn is_low(source: &[u8]) -> bool
    ensures { result ≡ true → IsUtf8 source.now }
{
    before(&HighByte, source) == source.len()
}

// The place of the first byte of no whole character, where there is one.
fn broken_at(source: &[u8]) -> Option<Pos>
    requires { length source.now ≤ 2 ^ 27 }
    ensures { MatchOption result (IsUtf8 source.now) (λ pos. (¬ (IsUtf8 source.now)) × (pos ≡ place_of source.now (utf8_valid_len source.now))) }
{
    if is_low(source) {
        return None;
    }
    match str::from_utf8(source) {
        Ok(_) => None,
        Err(error) => Some(place_of(source, error.valid_up_to())),
    }
}

/// The place where `source` ends, behind its last byte. It asks at most 2^27 bytes.
pub fn end_place(source: &[u8]) -> Pos
    requires { length source.now ≤ 2 ^ 27 }
    ensures { result ≡ place_of source.now (length source.now) }
{
    place_of(source, source.len())
}

/// The spans of the tokens of `source`, which has at most 2^27 bytes, or its lexical fault, as `tokens` answers it.
pub fn spans(alloc: Global, source: &[u8]) -> Result<Spans, LexFault>
    requires { length source.now ≤ 2 ^ 27 }
    ensures { MatchResult result (λ spans. IsAccepted source.now (all_placed source.now spans)) (λ e. IfBad e (λ pos rule. HasFault source.now pos rule)) }
{
    if let Some(pos) = broken_at(source) {
        return Err(LexFault::Bad { pos, rule: 1 });
    }
    scan(alloc, source)
}

/// The tokens of `source`, which has at most 2^27 bytes, or its lexical fault: rule L1 at the first byte of no whole
/// UTF-8 character; else the first place where no token begins, by rule L2 to L5, or the token numbered 2^24 + 1, L6, or
/// the bracket that makes the depth 401, L7, whichever stands first (II.5).
pub fn tokens(alloc: Global, source: &[u8]) -> Result<Tokens, LexFault>
    requires { length source.now ≤ 2 ^ 27 }
    ensures { MatchResult result (λ t. IsAccepted source.now t) (λ e. IfBad e (λ pos rule. HasFault source.now pos rule)) }
{
    let spans = spans(alloc, source)?;
    let tokens = all_placed(alloc, source, spans.as_slice())?;
    Ok(tokens)
}

// The tokens that have these spans in a source.
fn all_placed(alloc: Global, source: &[u8], spans: &[Span]) -> Result<Tokens, NoMemory>
    requires { length source.now ≤ 2 ^ 27 }
    ensures { IfOk result (λ tokens. tokens ≡ all_placed source.now spans.now) }
{
    let mut tokens = Tokens::with_capacity(alloc, spans.len())?;
    let mut line = first_line(source);
    for span in spans {
        tokens.push_long(Token {
            kind: span.kind,
            start: span.start,
            end: span.end,
            pos: place_from(source, &mut line, span.start as usize),
        })?;
    }
    Ok(tokens)
}

/// The spans of tokens.
pub fn spans_of(alloc: Global, tokens: &[Token]) -> Result<Spans, NoMemory>
    ensures { IfOk result (λ spans. spans ≡ map span_of tokens.now) }
{
    let mut spans = Spans::with_capacity(alloc, tokens.len())?;
    for token in tokens {
        spans.push_long(Span {
            kind: token.kind,
            start: token.start,
            end: token.end,
        })?;
    }
    Ok(spans)
}
