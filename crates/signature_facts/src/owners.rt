ghost use Rattle.std.specs.Prelude.{◌≡◌};

use crate::OwnerFacts;

/// What is told of what tokens name. A token is a table's number in the highest byte and a row in the three below
/// (ECMA-335 II.22).
pub trait Owners {
    ghost use Rattle.std.specs.Prelude.{ℕ, Option};
    ghost use Rattle.signature_facts.specs.declared.facts.OwnerFacts.{OwnerFacts};

    /// The facts that it tells of tokens.
    ghost facts: { Self → ℕ → Option OwnerFacts };

    /// Those of a token, or None where it names nothing.
    fn facts_of(&self, token: u32) -> Option<OwnerFacts>
        ensures { result ≡ facts self.now token };
}
