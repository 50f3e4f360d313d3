//! How the tokens of a source stand in its derivation: a law, as the contract of a function.

ghost use Rattle.source_model.specs.TokenOrder.{TokensStandInOrder};

/// The tokens below a derivation are consecutive: from the first to the last, and each once.
pub fn tokens_stand_in_order()
    ensures { TokensStandInOrder }
{}
