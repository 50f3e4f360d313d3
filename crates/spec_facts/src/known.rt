ghost use Rattle.std.specs.Prelude.{◌≡◌};
ghost use Rattle.spec_facts.specs.Rounds.{found};

use signature_facts::{Facts, OwnerFacts, Owners};

/// What is told of tokens while rows are being found.
#[derive(Drop)]
pub(crate) struct Known<'k, N: Owners> {
    pub names: &'k N,
    pub places: &'k [u32],
    pub facts: &'k [Option<Facts>],
}

impl<'k, N: Owners> Owners for Known<'k, N> {
    ghost use Rattle.spec_facts.specs.Rounds.{found};
    ghost use Rattle.spec_facts.specs.SpecMap.{merged};

    ghost facts = { λ it. merged (N.facts it.names.now) (found it.places.now it.facts.now) };

    fn facts_of(&self, token: u32) -> Option<OwnerFacts> {
        if token / 0x0100_0000 != 0x1B {
            return self.names.facts_of(token);
        }
        let facts = found(self.places, self.facts, token % 0x0100_0000)?;
        Some(OwnerFacts {
            is_name: false,
            facts,
        })
    }
}

/// What was found of a row.
#[tactic(auto, unfolding(crate::specs::Rounds::found))]
pub(crate) fn found(places: &[u32], facts: &[Option<Facts>], row: u32) -> Option<Facts>
    ensures { result ≡ found places.now facts.now row }
{
    if row == 0 {
        return None;
    }
    let place = *places.get(row as usize - 1)?;
    *facts.get(place as usize)?
}
