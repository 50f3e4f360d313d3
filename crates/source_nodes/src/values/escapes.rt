//! Escapes in texts between quotes (ECMA-335 II.5.2).

ghost use Rattle.std.specs.Prelude.{◌≡◌, ◌≤◌, true, false, [], ◌∷◌, length, IfSome, MatchOption};
ghost use Rattle.std.specs.Option.{option_to_list};
ghost use Rattle.il_lexer.specs.Classes.{is_octal};
ghost use Rattle.il_lexer.specs.Quotes.{escape_length, is_escape_letter, is_octal_code, line_end};
ghost use Rattle.source_model.specs.Values.{escape_bytes, letter_value, octal_value};

/// What an escape gives: a byte, or nothing for a line's end, and the number of its bytes after the backslash.
#[derive(Clone, Copy)]
pub struct Escape {
    pub byte: Option<u8>,
    pub length: usize,
}

/// The escape at the front, after its backslash, or None where there is none.
pub fn escape_at(rest: &[u8]) -> Option<Escape>
    ensures value { MatchOption result (escape_length rest.now ≡ None) (λ e. (escape_length rest.now ≡ Some e.length) × (escape_bytes rest.now ≡ option_to_list e.byte)) }
    ensures within { IfSome result (λ e. e.length ≤ length rest.now) }
{
    let [first, ..] = rest else {
        return None;
    };
    if let Some(byte) = letter(*first) {
        return Some(Escape {
            byte: Some(byte),
            length: 1,
        });
    }
    if let Some(byte) = octal_code(rest) {
        return Some(Escape {
            byte: Some(byte),
            length: 3,
        });
    }
    line_escape(rest)
}

// The byte of an escape of one letter.
fn letter(byte: u8) -> Option<u8>
    ensures { MatchOption result (is_escape_letter byte ≡ false) (λ value. (is_escape_letter byte ≡ true) × (value ≡ letter_value byte)) }
{
    match byte {
        b't' => Some(9),
        b'n' => Some(10),
        b'r' => Some(13),
        b'a' => Some(7),
        b'b' => Some(8),
        b'f' => Some(12),
        b'v' => Some(11),
        b'"' | b'\'' | b'\\' | b'?' => Some(byte),
        _ => None,
    }
}

// The byte of three octal digits from 001 to 177.
fn octal_code(rest: &[u8]) -> Option<u8>
    ensures { MatchOption result (is_octal_code rest.now ≡ false) (λ value. (is_octal_code rest.now ≡ true) × (value ≡ octal_value rest.now)) }
{
    let [a, b, c, ..] = rest else {
        return None;
    };
    if is_code(*a, *b, *c) {
        Some((*a - b'0') * 64 + (*b - b'0') * 8 + (*c - b'0'))
    } else {
        None
    }
}

// Whether three bytes are octal digits from 001 to 177.
fn is_code(a: u8, b: u8, c: u8) -> bool
    ensures { result ≡ is_octal_code (a ∷ b ∷ c ∷ []) }
{
    (a == b'0' || a == b'1') && is_octal(b) && is_octal(c) && !(a == b'0' && b == b'0' && c == b'0')
}

fn is_octal(byte: u8) -> bool
    ensures { result ≡ is_octal byte }
{
    byte >= b'0' && byte <= b'7'
}

// A line's end, which gives nothing.
fn line_escape(rest: &[u8]) -> Option<Escape>
    ensures value { MatchOption result (line_end rest.now ≡ None) (λ e. (line_end rest.now ≡ Some e.length) × (e.byte ≡ None)) }
    ensures within { IfSome result (λ e. e.length ≤ length rest.now) }
{
    match rest {
        [b'\n', ..] => Some(Escape {
            byte: None,
            length: 1,
        }),
        [b'\r', b'\n', ..] => Some(Escape {
            byte: None,
            length: 2,
        }),
        _ => None,
    }
}
