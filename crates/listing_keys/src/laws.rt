//! What the keys of other assemblies in a listing stand for: laws, each as the contract of a function that does nothing when it is called.
ghost use Rattle.listing_keys.specs.Laws.{KeysAreKnown, KeysDiffer};

use listing_declarations::laws::{declarations_are_read, externs_are_named};
use listing_reading::laws::{first_is_there, searches_pass};
use listing_values::laws::{names_are_read, numbers_are_read};

/// The assemblies that a listing names have different keys: an alias where names alone would not do (ECMA-335 II.6.3).
pub fn keys_differ()
    ensures { KeysDiffer }
{
    numbers_are_read();
}

/// In a source that is a listing, the key of each assembly that it names stands for this (ECMA-335 II.6.3).
pub fn keys_are_known()
    ensures { KeysAreKnown }
{
    names_are_read();
    searches_pass();
    first_is_there();
    declarations_are_read();
    externs_are_named();
    keys_differ();
}
