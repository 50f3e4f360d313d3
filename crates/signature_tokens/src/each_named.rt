ghost use Rattle.std.specs.Prelude.{◌≡◌};

use signature_facts::{Facts, OwnerFacts, Owners};

/// The map that knows each token by a plain name.
#[derive(Clone, Copy)]
pub(crate) struct EachNamed;

impl Owners for EachNamed {
    ghost use Rattle.std.specs.Prelude.{Some};
    ghost use Rattle.signature_tokens.specs.Named.{named};

    ghost facts = { λ _ token. Some named };

    fn facts_of(&self, _token: u32) -> Option<OwnerFacts> {
        let facts = Facts {
            depth: 0,
            nodes: 0,
            rank: 0,
            weight: 0,
            hash: 0,
        };
        Some(OwnerFacts {
            is_name: true,
            facts,
        })
    }
}
