ghost use Rattle.std.specs.Prelude.{◌≡◌, ℕ, IfOk, Option};
ghost use Rattle.type_terms.specs.declared.term.Owner.{Owner};
ghost use Rattle.image_model.specs.Naming.{TellsOwners};
ghost use Rattle.image_model.specs.Structure.{HasScopes};
ghost use Rattle.row_demands.specs.Structured.{MeetStructure};
ghost use Rattle.signature_equality.specs.Numbering.{IsCanon};
ghost use Rattle.owner_numbers.specs.Terms.{IsTold, TellFacts};
ghost use Rattle.owner_numbers.specs.Canon.{canon};

use crate::by_classes::ByClasses;
use crate::classes::{Given, classes_of};
use il_base::NoMemory;
use image_streams::Image;
use signature_equality::Numbering;
use signature_facts::Owners;
use std::alloc::Global;
use std::marker::Model;
use type_names::TypeNames;

/// Numbers for what the tokens of an image name: of two tokens that name a type each, they tell whether it is one.
#[derive(Drop)]
pub struct OwnerNumbers<'n, 'a> {
    image: &'n Image<'a>,
    names: &'n TypeNames<'n, 'a>,
    // For each row of TypeSpec that has a token the first row with an equal term, or 0; that of row 0 counts for nothing.
    classes: Vec<u32>,
}

impl<'n, 'a> Model for OwnerNumbers<'n, 'a> {
    ghost use Rattle.std.specs.Prelude.{◌≡◌};
    ghost use Rattle.owner_numbers.specs.Canon.{Classes};

    ghost Value = { Classes };

    ghost view = { λ it. record { image = it.image.now; named = it.names.now.named; classes = it.classes.items } };

    ghost invariant = { λ it. it.names.now.image ≡ it.image.now };
}

impl<'n, 'a> OwnerNumbers<'n, 'a> {
    /// The numbers of an image's tokens, by those of its types and references, and by facts of what tokens name: where maps tell
    /// what these name, two tokens that name a type each have one number exactly where it is one. The rows of TypeSpec are looked at
    /// once for each depth of their types; each signature is compared with those that have its hash, once.
    ///
    /// # Errors
    ///
    /// There was no memory for them.
    pub fn new<F: Owners>(
        alloc: Global,
        image: &'n Image<'a>,
        names: &'n TypeNames<'n, 'a>,
        facts: &F,
    ) -> Result<OwnerNumbers<'n, 'a>, NoMemory>
        requires same { names.now.image ≡ image.now }
        requires meets { MeetStructure image.now }
        requires scopes { (table row : ℕ) → HasScopes image.now table row }
        requires told { IsTold image.now }
        requires facts { TellFacts image.now (F.facts facts.now) }
        ensures image { IfOk result (λ it. it.image ≡ image.now) }
        ensures canon { IfOk result (λ it. (owners : ℕ → Option Owner) → TellsOwners image.now owners → IsCanon owners (canon it)) }
    {
        names.tell_names();
        let given = Given {
            image,
            names,
            facts,
        };
        let classes = classes_of(alloc, &given)?;
        Ok(OwnerNumbers {
            image,
            names,
            classes,
        })
    }
}

impl<'n, 'a> Numbering for OwnerNumbers<'n, 'a> {
    ghost use Rattle.owner_numbers.specs.Canon.{canon};

    ghost canon = { λ it a b. canon it a b };

    fn is_same(&self, a: u32, b: u32) -> bool {
        let numbers = ByClasses {
            image: self.image,
            names: self.names,
            classes: self.classes.as_slice(),
        };
        numbers.is_same(a, b)
    }
}
