ghost use Rattle.std.specs.Prelude.{◌≡◌, ℕ, IfOk, Option};
ghost use Rattle.type_terms.specs.declared.term.Owner.{Owner};
ghost use Rattle.image_model.specs.Naming.{TellsOwners};
ghost use Rattle.signature_facts.specs.Facts.{Naming};
ghost use Rattle.signature_facts.specs.Owners.{AreFacts};
ghost use Rattle.spec_facts.specs.SpecMap.{row_told, merged, AreNameFacts};

use crate::distinct::placed_blobs;
use crate::known::found;
use crate::rounds::round;
use il_base::{NoMemory, Numbers};
use image_streams::Image;
use signature_facts::{Facts, OwnerFacts, Owners};
use std::alloc::Global;
use std::marker::Model;

/// The facts of the TypeSpec rows of an image. Contracts see a list with what is told of each row.
#[derive(Drop)]
pub struct SpecFacts {
    places: Numbers,
    facts: Vec<Option<Facts>>,
}

impl Model for SpecFacts {
    ghost use Rattle.std.specs.Prelude.{List, Option};
    ghost use Rattle.signature_facts.specs.declared.facts.Facts.{Facts};
    ghost use Rattle.spec_facts.specs.Rounds.{all_found};

    ghost Value = { List (Option Facts) };

    ghost view = { λ it. all_found it.places it.facts.items };
}

impl SpecFacts {
    /// The facts of the type of a row, or None where its signature spells none.
    pub fn of_row(&self, row: u32) -> Option<Facts>
        ensures { result ≡ row_told self.now row }
    {
        found(self.places.as_slice(), self.facts.as_slice(), row)
    }
}

/// The facts of the TypeSpec rows of an image, where `names` tells those of the tokens of other tables: then each token is told the
/// facts of what it names.
///
/// # Errors
///
/// There was no memory for them.
pub fn facts_of_specs<N: Owners>(
    alloc: Global,
    image: &Image<'_>,
    names: &N,
) -> Result<SpecFacts, NoMemory>
    ensures { (naming : Naming) (owners : ℕ → Option Owner) → TellsOwners image.now owners → AreNameFacts naming owners (N.facts names.now) → IfOk result (λ specs. AreFacts naming owners (merged (N.facts names.now) (row_told specs))) }
{
    let distinct = placed_blobs(alloc, image)?;
    let mut facts = Vec::from_elem(alloc, None, distinct.heads.len())?;
    'rounds: loop {
        if !round(image, names, &distinct, facts.as_mut_slice()) {
            break 'rounds;
        }
    }
    Ok(SpecFacts {
        places: distinct.places,
        facts,
    })
}

/// What is told of the tokens of all tables.
#[derive(Drop)]
pub struct WithSpecs<'s, N: Owners> {
    pub names: &'s N,
    pub specs: &'s SpecFacts,
}

impl<'s, N: Owners> Owners for WithSpecs<'s, N> {
    ghost use Rattle.spec_facts.specs.SpecMap.{row_told, merged};

    ghost facts = { λ it. merged (N.facts it.names.now) (row_told it.specs.now) };

    fn facts_of(&self, token: u32) -> Option<OwnerFacts> {
        if token / 0x0100_0000 != 0x1B {
            return self.names.facts_of(token);
        }
        let facts = self.specs.of_row(token % 0x0100_0000)?;
        Some(OwnerFacts {
            is_name: false,
            facts,
        })
    }
}
