ghost use Rattle.std.specs.Prelude.{◌≡◌};
ghost use Rattle.sig_codec.specs.Tokens.{token_of_coded, coded_of_token, IsTypeToken};

/// The token of a coded TypeDefOrRef number (ECMA-335 II.24.2.6), or None where there is no such tag or row.
pub fn token_of_coded(number: u32) -> Option<u32>
    ensures { result ≡ token_of_coded number }
{
    if number >= 1 << 26 {
        return None;
    }
    let row = number / 4;
    match number % 4 {
        0 => Some(0x0200_0000 + row),
        1 => Some(0x0100_0000 + row),
        2 => Some(0x1B00_0000 + row),
        _ => None,
    }
}

/// The coded number of a token of the tables TypeDef, TypeRef and TypeSpec (ECMA-335 II.24.2.6).
pub(crate) fn coded_of_token(token: u32) -> u32
    requires { IsTypeToken token }
    ensures { result ≡ coded_of_token token }
{
    let tag = match token >> 24 {
        0x02 => 0,
        0x01 => 1,
        _ => 2,
    };
    (token & 0x00FF_FFFF) * 4 + tag
}
