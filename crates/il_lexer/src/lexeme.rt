//! The token at the front of some bytes.

ghost use Rattle.std.specs.Prelude.{ℕ, List, ◌∷◌, ◌≡◌, ◌+◌, ◌<◌, ◌≤◌, true, false, length, take, drop, Err, IfSome, IfOk, MatchOption};
ghost use Rattle.il_lexer.specs.Classes.{first_is, first_passes, is_id_start};
ghost use Rattle.il_lexer.specs.WordKeys.{key_from};
ghost use Rattle.il_lexer.specs.Tokens.{token, word_of, longer_word, bytearray_token, name_or_word, named, id_token, quoted_name_token, string_token, digits_token, minus_token, dot_token, hash_token, bracket_token, equals_token, paren_token, slash_token, doubled_token, mark_token, token_at};

use crate::bytes::{behind, digit_at, stands_at};
use crate::classes::{is_digit, is_id_start};
use crate::names::{Front, first_id, id_at, id_from, keyed_name, longer};
use crate::pairs::{bytes_length, pairs_in};
use crate::quotes::{quote_fault, quoted_length};
use crate::spellings::{id_length, int_length, name_length};
use crate::types::{Lexeme, TokenKind};
use crate::word;
use crate::words::{number_of_key, word_number};

// A token of `length` bytes.
fn token(kind: TokenKind, length: usize) -> Result<Lexeme, u8>
    ensures { result ≡ token kind length }
{
    Ok(Lexeme { kind, length })
}

// A word of one byte.
fn mark(number: u16) -> Result<Lexeme, u8>
    ensures { result ≡ token (TokenKind.Word number) 1 }
{
    token(TokenKind::Word(number), 1)
}

// A front as a word, where it is one.
fn word_of(rest: &[u8], word: Front) -> Option<Lexeme>
    requires some { 0 < word.length }
    requires within { word.length ≤ length rest.now }
    requires key { word.key ≡ key_from 0 (take word.length rest.now) }
    ensures value { result ≡ word_of rest.now word.length }
    ensures fits { IfSome result (λ l. l.length ≡ word.length) }
{
    let number = number_of_key(&rest[..word.length], word.key)?;
    Some(Lexeme {
        kind: TokenKind::Word(number),
        length: word.length,
    })
}

// The word that goes on behind a name: with a dot and a digit, or with a dot alone.
#[tactic(auto, unfolding(crate::specs::Tokens::longer_word))]
fn longer_word(rest: &[u8], name: Front) -> Option<Lexeme>
    requires within { name.length ≤ length rest.now }
    requires key { name.key ≡ key_from 0 (take name.length rest.now) }
    ensures value { result ≡ longer_word rest.now name.length }
    ensures fits { IfSome result (λ l. (0 < l.length) × (l.length ≤ length rest.now)) }
{
    if !stands_at(rest, name.length, b'.') {
        return None;
    }
    let dotted = longer(rest, name);
    if digit_at(rest, dotted.length) {
        if let Some(found) = word_of(rest, longer(rest, dotted)) {
            return Some(found);
        }
    }
    word_of(rest, dotted)
}

// `bytearray`, of `n` bytes, with the bytes in parentheses that follow it, or without.
#[tactic(auto, unfolding(crate::specs::Tokens::bytearray_token))]
fn bytearray_token(rest: &[u8], n: usize) -> Lexeme
    requires { n ≤ length rest.now }
    ensures value { result ≡ bytearray_token rest.now n }
    ensures fits { (n ≤ result.length) × (result.length ≤ length rest.now) }
{
    match bytes_length(behind(rest, n)) {
        Some(more) => Lexeme {
            kind: TokenKind::ByteArray,
            length: n + more,
        },
        None => Lexeme {
            kind: TokenKind::Word(word::BYTEARRAY),
            length: n,
        },
    }
}

// The token that begins with a name.
#[tactic(auto, unfolding(crate::specs::Tokens::named))]
fn named(rest: &[u8], name: Front) -> Lexeme
    requires within { name.length ≤ length rest.now }
    requires some { 0 < name.length }
    requires key { name.key ≡ key_from 0 (take name.length rest.now) }
    ensures value { result ≡ named rest.now name.length }
    ensures fits { (0 < result.length) × (result.length ≤ length rest.now) }
{
    if let Some(found) = longer_word(rest, name) {
        return found;
    }
    let number = number_of_key(&rest[..name.length], name.key);
    name_or_word(rest, name.length, number)
}

// The token that is a name of `n` bytes with this number of a word, or without.
fn name_or_word(rest: &[u8], n: usize, number: Option<u16>) -> Lexeme
    requires within { n ≤ length rest.now }
    requires some { 0 < n }
    ensures value { result ≡ name_or_word rest.now n number }
    ensures fits { (0 < result.length) × (result.length ≤ length rest.now) }
{
    match number {
        None => Lexeme {
            kind: TokenKind::Name,
            length: n,
        },
        Some(word::BYTEARRAY) => bytearray_token(rest, n),
        Some(number) => Lexeme {
            kind: TokenKind::Word(number),
            length: n,
        },
    }
}

// The token that begins with a name without a dot behind it.
#[tactic(auto, using(crate::proofs::PlainNames::named_plain))]
fn plain_token(rest: &[u8], name: Front) -> Lexeme
    requires within { name.length ≤ length rest.now }
    requires some { 0 < name.length }
    requires key { name.key ≡ key_from 0 (take name.length rest.now) }
    requires undotted { first_is 46 (drop name.length rest.now) ≡ false }
    ensures value { result ≡ named rest.now name.length }
    ensures fits { (0 < result.length) × (result.length ≤ length rest.now) }
{
    let number = number_of_key(&rest[..name.length], name.key);
    name_or_word(rest, name.length, number)
}

// At the first byte of an identifier, which most often has no dot behind it.
#[tactic(auto, unfolding(crate::specs::Tokens::id_token))]
fn id_token(rest: &[u8]) -> Result<Lexeme, u8>
    requires { first_passes is_id_start rest.now ≡ true }
    ensures value { result ≡ id_token rest.now }
    ensures fits { IfOk result (λ l. (0 < l.length) × (l.length ≤ length rest.now)) }
{
    let first = first_id(rest);
    if !stands_at(rest, first.length, b'.') {
        return Ok(plain_token(rest, first));
    }
    match keyed_name(rest, first) {
        Some(name) => Ok(named(rest, name)),
        None => Err(5),
    }
}

// At a `'`.
#[tactic(auto, unfolding(crate::specs::Tokens::quoted_name_token))]
fn quoted_name_token(rest: &[u8]) -> Result<Lexeme, u8>
    requires { 0 < length rest.now }
    ensures value { result ≡ quoted_name_token rest.now }
    ensures fits { IfOk result (λ l. (0 < l.length) × (l.length ≤ length rest.now)) }
{
    match name_length(rest) {
        Some(n) => token(TokenKind::Name, n),
        None => Err(quote_fault(b'\'', behind(rest, 1))),
    }
}

// At a `"`.
#[tactic(auto, unfolding(crate::specs::Tokens::string_token))]
fn string_token(rest: &[u8]) -> Result<Lexeme, u8>
    requires { 0 < length rest.now }
    ensures value { result ≡ string_token rest.now }
    ensures fits { IfOk result (λ l. (0 < l.length) × (l.length ≤ length rest.now)) }
{
    let text = behind(rest, 1);
    match quoted_length(b'"', text) {
        Some(n) => token(TokenKind::QString, n + 1),
        None => Err(quote_fault(b'"', text)),
    }
}

// At a digit.
#[tactic(auto, unfolding(crate::specs::Tokens::digits_token))]
fn digits_token(rest: &[u8]) -> Result<Lexeme, u8>
    ensures value { result ≡ digits_token rest.now }
    ensures fits { IfOk result (λ l. (0 < l.length) × (l.length ≤ length rest.now)) }
{
    match int_length(rest) {
        Some(n) => token(TokenKind::Int, n),
        None => Err(4),
    }
}

// At a `-`.
#[tactic(auto, unfolding(crate::specs::Tokens::minus_token))]
fn minus_token(rest: &[u8]) -> Result<Lexeme, u8>
    requires { 0 < length rest.now }
    ensures value { result ≡ minus_token rest.now }
    ensures fits { IfOk result (λ l. (0 < l.length) × (l.length ≤ length rest.now)) }
{
    match int_length(behind(rest, 1)) {
        Some(n) => token(TokenKind::Int, n + 1),
        None => mark(word::MINUS),
    }
}

// At a dot: a directive or `...`.
#[inline(always)]
#[tactic(auto, unfolding(crate::specs::Tokens::dot_token))]
fn dot_token(rest: &[u8]) -> Result<Lexeme, u8>
    requires { 0 < length rest.now }
    ensures value { result ≡ dot_token rest.now }
    ensures fits { IfOk result (λ l. (0 < l.length) × (l.length ≤ length rest.now)) }
{
    if id_at(rest, 1) {
        let word = id_from(rest, longer(rest, Front { length: 0, key: 0 }));
        let kind = match number_of_key(&rest[..word.length], word.key) {
            Some(number) => TokenKind::Word(number),
            None => TokenKind::Unused,
        };
        return token(kind, word.length);
    }
    if stands_at(rest, 1, b'.') && stands_at(rest, 2, b'.') {
        token(TokenKind::Word(word::ELLIPSIS), 3)
    } else {
        Err(5)
    }
}

// At a `#`.
#[tactic(auto, unfolding(crate::specs::Tokens::hash_token))]
fn hash_token(rest: &[u8]) -> Result<Lexeme, u8>
    requires { 0 < length rest.now }
    ensures value { result ≡ hash_token rest.now }
    ensures fits { IfOk result (λ l. (0 < l.length) × (l.length ≤ length rest.now)) }
{
    match id_length(behind(rest, 1)) {
        Some(n) => token(TokenKind::Hash, n + 1),
        None => Err(5),
    }
}

// At a `[`: a bracket word or a name in brackets, or the mark.
#[tactic(auto, unfolding(crate::specs::Tokens::bracket_token))]
fn bracket_token(rest: &[u8]) -> Result<Lexeme, u8>
    requires { 0 < length rest.now }
    ensures value { result ≡ bracket_token rest.now }
    ensures fits { IfOk result (λ l. (0 < l.length) × (l.length ≤ length rest.now)) }
{
    if let Some(n) = name_length(behind(rest, 1)) {
        if stands_at(rest, n + 1, b']') {
            let kind = match word_number(&rest[..n + 2]) {
                Some(number) => TokenKind::Word(number),
                None => TokenKind::Scope,
            };
            return token(kind, n + 2);
        }
    }
    mark(word::OPEN_BRACKET)
}

// At a `=`.
#[tactic(auto, unfolding(crate::specs::Tokens::equals_token))]
fn equals_token(rest: &[u8]) -> Result<Lexeme, u8>
    requires { 0 < length rest.now }
    ensures value { result ≡ equals_token rest.now }
    ensures fits { IfOk result (λ l. (0 < l.length) × (l.length ≤ length rest.now)) }
{
    match bytes_length(behind(rest, 1)) {
        Some(n) => token(TokenKind::EqBytes, n + 1),
        None => mark(word::EQUALS),
    }
}

// At a `(`.
#[inline(always)]
#[tactic(auto, unfolding(crate::specs::Tokens::paren_token))]
fn paren_token(rest: &[u8]) -> Result<Lexeme, u8>
    requires { 0 < length rest.now }
    ensures value { result ≡ paren_token rest.now }
    ensures fits { IfOk result (λ l. (0 < l.length) × (l.length ≤ length rest.now)) }
{
    match pairs_in(behind(rest, 1)) {
        Some(found) if found.count == 4 || found.count == 8 => {
            token(TokenKind::RealBytes, found.bytes + 1)
        }
        _ => mark(word::OPEN_PAREN),
    }
}

// At a `/`, which begins no comment that ends.
#[tactic(auto, unfolding(crate::specs::Tokens::slash_token))]
fn slash_token(rest: &[u8]) -> Result<Lexeme, u8>
    requires { 0 < length rest.now }
    ensures value { result ≡ slash_token rest.now }
    ensures fits { IfOk result (λ l. (0 < l.length) × (l.length ≤ length rest.now)) }
{
    if stands_at(rest, 1, b'*') {
        Err(2)
    } else {
        mark(word::SLASH)
    }
}

// At a mark that may be doubled.
#[inline(always)]
fn doubled_token(byte: u8, one: u16, two: u16, rest: &[u8]) -> Result<Lexeme, u8>
    requires { 0 < length rest.now }
    ensures value { result ≡ doubled_token byte one two rest.now }
    ensures fits { IfOk result (λ l. (0 < l.length) × (l.length ≤ length rest.now)) }
{
    if stands_at(rest, 1, byte) {
        token(TokenKind::Word(two), 2)
    } else {
        mark(one)
    }
}

// The number in `WORDS` of each of the marks `{ } ) ] < > , + & *`, which begin no longer token, and 0 for all other bytes.
static MARKS: [u16; 256] = [
    0, 0, 0, 0, 0, 0, 0, 0, 0, 0, 0, 0, 0, 0, 0, 0, 0, 0, 0, 0, 0, 0, 0, 0, 0, 0, 0, 0, 0, 0, 0, 0,
    0, 0, 0, 0, 0, 0, 2, 0, 0, 4, 5, 6, 7, 0, 0, 0, 0, 0, 0, 0, 0, 0, 0, 0, 0, 0, 0, 0, 63, 0, 65,
    0, 0, 0, 0, 0, 0, 0, 0, 0, 0, 0, 0, 0, 0, 0, 0, 0, 0, 0, 0, 0, 0, 0, 0, 0, 0, 0, 0, 0, 0, 70,
    0, 0, 0, 0, 0, 0, 0, 0, 0, 0, 0, 0, 0, 0, 0, 0, 0, 0, 0, 0, 0, 0, 0, 0, 0, 0, 0, 0, 0, 399, 0,
    400, 0, 0, 0, 0, 0, 0, 0, 0, 0, 0, 0, 0, 0, 0, 0, 0, 0, 0, 0, 0, 0, 0, 0, 0, 0, 0, 0, 0, 0, 0,
    0, 0, 0, 0, 0, 0, 0, 0, 0, 0, 0, 0, 0, 0, 0, 0, 0, 0, 0, 0, 0, 0, 0, 0, 0, 0, 0, 0, 0, 0, 0, 0,
    0, 0, 0, 0, 0, 0, 0, 0, 0, 0, 0, 0, 0, 0, 0, 0, 0, 0, 0, 0, 0, 0, 0, 0, 0, 0, 0, 0, 0, 0, 0, 0,
    0, 0, 0, 0, 0, 0, 0, 0, 0, 0, 0, 0, 0, 0, 0, 0, 0, 0, 0, 0, 0, 0, 0, 0, 0, 0, 0, 0, 0, 0, 0, 0,
    0, 0, 0, 0,
];

// The number of a mark of one byte that begins no longer token. It is found in a table: a processor foresees a jump by the
// byte's value badly.
#[tactic(auto, using(crate::proofs::OneMarks::one_mark, crate::proofs::OneMarks::no_mark))]
fn single_mark(byte: u8) -> Option<u16>
    ensures { MatchOption result (mark_token byte ≡ Err 5) (λ k. (bs : List ℕ) → token_at (byte ∷ bs) ≡ token (TokenKind.Word k) 1) }
{
    let number = MARKS[byte as usize];
    if number == 0 { None } else { Some(number) }
}

/// The token at the front: the longest spelling that begins there, a word before a name of equal length. The error is the
/// number of the rule that is broken where no token begins.
#[tactic(auto, unfolding(crate::specs::Tokens::token_at))]
pub fn token_at(rest: &[u8]) -> Result<Lexeme, u8>
    requires { 0 < length rest.now }
    ensures value { result ≡ token_at rest.now }
    ensures fits { IfOk result (λ l. (0 < l.length) × (l.length ≤ length rest.now)) }
{
    let byte = rest[0];
    if is_id_start(byte) {
        return id_token(rest);
    }
    if let Some(number) = single_mark(byte) {
        return mark(number);
    }
    if is_digit(byte) {
        return digits_token(rest);
    }
    match byte {
        b'\'' => quoted_name_token(rest),
        b'"' => string_token(rest),
        b'.' => dot_token(rest),
        b'#' => hash_token(rest),
        b'[' => bracket_token(rest),
        b'-' => minus_token(rest),
        b'=' => equals_token(rest),
        b'(' => paren_token(rest),
        b'/' => slash_token(rest),
        b':' => doubled_token(b':', word::COLON, word::DOUBLE_COLON, rest),
        b'!' => doubled_token(b'!', word::BANG, word::DOUBLE_BANG, rest),
        _ => Err(5),
    }
}
