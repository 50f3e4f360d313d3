//! What follows of the definitions: laws, each as the contract of a function that does nothing when it is called.
ghost use Rattle.listing_model.specs.Laws.{FlagsAreTold, GrownIsDerived, TextsJoin};

/// A piece in which each leaf is of its terminal and each production stands over its body is a derivation from these symbols
/// (ECMA-335 II.5).
#[tactic(auto, using(crate::proofs::Derived::grown_is_derived))]
pub fn grown_is_derived()
    ensures { GrownIsDerived }
{}

/// The text of two rows of tokens, one behind the other, is that of the first and then that of the second.
#[tactic(auto, using(crate::proofs::Joined::texts_join))]
pub fn texts_join()
    ensures { TextsJoin }
{}

/// The words that a listing says of a number of flags give the number back, together with the rest in `flags(..)`
/// (ECMA-335 II.23.1).
#[tactic(auto, using(crate::proofs::Told::flags_are_told))]
pub fn flags_are_told()
    ensures { FlagsAreTold }
{}
