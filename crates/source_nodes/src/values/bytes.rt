//! The front of some bytes and what stands behind it.

ghost use Rattle.std.specs.Prelude.{◌≡◌, drop};
ghost use Rattle.il_lexer.specs.Classes.{first_is};

/// Whether this byte stands first.
pub fn first_is(bytes: &[u8], byte: u8) -> bool
    ensures { result ≡ first_is byte bytes.now }
{
    match bytes {
        [first, ..] => *first == byte,
        [] => false,
    }
}

/// What stands behind the first `count` bytes.
pub fn behind(bytes: &[u8], count: usize) -> &[u8]
    ensures { result.now ≡ drop count bytes.now }
{
    let (_, rest) = bytes.split_at(count.min(bytes.len()));
    rest
}
