//! Texts between quotes (ECMA-335 II.5.2).

ghost use Rattle.std.specs.Prelude.{◌≡◌, ◌≢◌, ℕ, ◌≤◌, List, ◌∷◌, ◌++◌, length, drop, Some, IfOk};
ghost use Rattle.il_lexer.specs.Quotes.{escape_length};
ghost use Rattle.il_lexer.specs.Spelled.{IsText};
ghost use Rattle.source_model.specs.Values.{escape_bytes, unescaped};

use crate::values::bytes::behind;
use crate::values::escapes::escape_at;
use il_base::{Bytes, NoMemory};

/// Adds to `bytes` what the text up to the closing quote stands for, and answers what stands behind that quote. The text is
/// passed over once.
pub fn push_quoted<'a>(bytes: &mut Bytes, quote: u8, text: &'a [u8]) -> Result<&'a [u8], NoMemory>
    requires { quote ≢ 92 }
    ensures pushed { (inner after : List ℕ) → IsText quote inner → text.now ≡ inner ++ quote ∷ after → IfOk result (λ rest. (rest.now ≡ after) × (bytes.new ≡ bytes.old ++ unescaped inner)) }
    ensures shorter { IfOk result (λ rest. length rest.now ≤ length text.now) }
{
    let mut rest = text;
    while let [first, more @ ..] = rest {
        if *first == quote {
            return Ok(more);
        }
        if *first == b'\\' {
            rest = push_escape(bytes, more)?;
        } else {
            bytes.push(*first)?;
            rest = more;
        }
    }
    Ok(rest)
}

// Adds what the escape at the front stands for, after its backslash, and answers what stands behind it.
fn push_escape<'a>(bytes: &mut Bytes, rest: &'a [u8]) -> Result<&'a [u8], NoMemory>
    ensures pushed { (n : ℕ) → escape_length rest.now ≡ Some n → IfOk result (λ more. (more.now ≡ drop n rest.now) × (bytes.new ≡ bytes.old ++ escape_bytes rest.now)) }
    ensures shorter { IfOk result (λ more. length more.now ≤ length rest.now) }
{
    let Some(escape) = escape_at(rest) else {
        return Ok(rest);
    };
    if let Some(byte) = escape.byte {
        bytes.push(byte)?;
    }
    Ok(behind(rest, escape.length))
}
