ghost use Rattle.std.specs.Prelude.{◌≡◌, ℕ, Option};
ghost use Rattle.type_terms.specs.declared.term.Owner.{Owner};
ghost use Rattle.image_model.specs.Naming.{TellsOwners};
ghost use Rattle.image_model.specs.Structure.{HasScopes};
ghost use Rattle.row_demands.specs.Structured.{MeetStructure};
ghost use Rattle.signature_facts.specs.Facts.{Naming};
ghost use Rattle.spec_facts.specs.SpecMap.{AreNameFacts};
ghost use Rattle.numbered_names.specs.Numbered.{numbered, names_numbered};

use image_streams::Image;
use owner_numbers::name_number;
use signature_facts::{Facts, OwnerFacts, Owners};
use std::marker::Model;
use type_names::TypeNames;

/// What is told of the tokens of TypeDef and TypeRef: that they are plain names, which weigh nothing and have their number for a
/// hash.
#[derive(Drop)]
pub struct NumberedNames<'k, 'a> {
    image: &'k Image<'a>,
    names: &'k TypeNames<'k, 'a>,
}

impl<'k, 'a> Model for NumberedNames<'k, 'a> {
    ghost use Rattle.std.specs.Prelude.{◌≡◌};
    ghost use Rattle.type_names.specs.Numbers.{TypeNumbers};

    ghost Value = { TypeNumbers };

    ghost view = { λ it. it.names.now };

    ghost invariant = { λ it. it.names.now.image ≡ it.image.now };
}

impl<'k, 'a> NumberedNames<'k, 'a> {
    /// What is told of an image's names.
    pub fn new(image: &'k Image<'a>, names: &'k TypeNames<'k, 'a>) -> NumberedNames<'k, 'a>
        requires { names.now.image ≡ image.now }
        ensures names { result ≡ names.now }
        ensures image { result.image ≡ image.now }
    {
        NumberedNames { image, names }
    }

    /// A law: these are facts of what tokens name, where nesting and scopes are right.
    pub fn tell_facts(&self)
        requires meets { MeetStructure self.now.image }
        requires scopes { (table row : ℕ) → HasScopes self.now.image table row }
        ensures { (owners : ℕ → Option Owner) → TellsOwners self.now.image owners → (naming : Naming) × AreNameFacts naming owners (names_numbered self.now) }
    {
        self.names.tell_names();
    }
}

impl<'k, 'a> Owners for NumberedNames<'k, 'a> {
    ghost use Rattle.numbered_names.specs.Numbered.{names_numbered};

    ghost facts = { λ it. names_numbered it };

    fn facts_of(&self, token: u32) -> Option<OwnerFacts> {
        let number = name_number(self.image, self.names, token)?;
        Some(numbered(number))
    }
}

/// What is told of a name with a number.
fn numbered(number: u32) -> OwnerFacts
    ensures { result ≡ numbered number }
{
    OwnerFacts {
        is_name: true,
        facts: Facts {
            depth: 0,
            nodes: 0,
            rank: 0,
            weight: 0,
            hash: u64::from(number),
        },
    }
}
