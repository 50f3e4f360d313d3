//! What the text of a listing is: laws, each as the contract of a function that does nothing when it is called.
ghost use Rattle.listing_tokens.specs.Laws.{LeavesAreRead, ListingsAreShallow};

use il_lexer::{printed_spellings_are_read, tokens_are_spellings};
use listing_growth::laws::canon_is_derived;
use listing_leaves::laws::{
    bytes_are_leaves, leaves_end, names_are_leaves, numbers_are_leaves, texts_are_leaves,
};

/// The listing of a well-formed assembly that isn't too heavy reads as the leaves of its canonical source: each is a token at its
/// place, the longest there, and no other token stands between two. Where the listing is UTF-8 it lexes into them (ECMA-335 II.5.2).
pub fn leaves_are_read()
    ensures { LeavesAreRead }
{
    numbers_are_leaves();
    bytes_are_leaves();
    texts_are_leaves();
    names_are_leaves();
    leaves_end();
    printed_spellings_are_read();
    tokens_are_spellings();
}

/// Its brackets are at most 400 deep (ECMA-335 II.5.2).
pub fn listings_are_shallow()
    ensures { ListingsAreShallow }
{
    numbers_are_leaves();
    bytes_are_leaves();
    texts_are_leaves();
    names_are_leaves();
    canon_is_derived();
}
