//! Where a program starts (ECMA-335 II.15.4.1.2, II.25.3.3.2).
ghost use Rattle.std.specs.Prelude.{◌≡◌, ◌^◌, ◌<◌, length};
ghost use Rattle.image_rows.specs.Filled.{entry_from};
ghost use Rattle.image_members.specs.Places.{lent};

use assembly_tree::Method;
use image_tokens::tokens::{METHOD_DEF, token_of};

/// The token of the first of these methods that is the entry point, where row 1 is that of the first method;
/// 0 where none is.
pub fn entry_of(methods: &[&Method]) -> u32
    requires { length methods.now < 2 ^ 24 }
    ensures { result ≡ entry_from 1 (lent methods.now) }
{
    let mut row: u32 = 1;
    for method in methods {
        if method.entry {
            return token_of(METHOD_DEF, row);
        }
        row += 1;
    }
    0
}
