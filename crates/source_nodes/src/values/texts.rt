//! Names in brackets and strings in double quotes (ECMA-335 II.5.2, II.5.3).

ghost use Rattle.std.specs.Prelude.{◌≡◌, ◌++◌, OnOk, IfOk};
ghost use Rattle.il_lexer.specs.declared.types.TokenKind.TheVariants.{Scope, QString};
ghost use Rattle.il_lexer.specs.Spelled.{IsSpelling};
ghost use Rattle.source_model.specs.Values.{between_quotes, part_texts, unescaped};
ghost use Rattle.source_nodes.specs.NameTexts.{IsTextOf};

use crate::values::bytes::behind;
use crate::values::names::{NameText, name_of};
use crate::values::quotes::push_quoted;
use il_base::{Bytes, NoMemory};
use std::alloc::Global;

/// The text of a name in brackets, without them.
pub fn scope_of(alloc: Global, spelling: &[u8]) -> Result<NameText, NoMemory>
    ensures { IsSpelling Scope spelling.now → IfOk result (λ name. IsTextOf (part_texts (between_quotes spelling.now)) name.text name.last) }
{
    let name = name_of(alloc, between_ends(spelling))?;
    Ok(name)
}

/// Adds to `bytes` what a string in double quotes stands for. A string in pieces joined by `+` is that of the one piece and then
/// that of the next.
pub fn push_string(bytes: &mut Bytes, spelling: &[u8]) -> Result<(), NoMemory>
    ensures { IsSpelling QString spelling.now → OnOk result (bytes.new ≡ bytes.old ++ unescaped (between_quotes spelling.now)) }
{
    push_quoted(bytes, b'"', behind(spelling, 1))?;
    Ok(())
}

// The bytes without the first and the last.
fn between_ends(spelling: &[u8]) -> &[u8]
    ensures { result.now ≡ between_quotes spelling.now }
{
    let rest = behind(spelling, 1);
    let length = spelling.len().saturating_sub(2);
    let (inner, _) = rest.split_at(length.min(rest.len()));
    inner
}
