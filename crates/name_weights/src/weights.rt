ghost use Rattle.std.specs.Prelude.{◌≡◌, ◌^◌, ◌≤◌, ℕ, IfOk, length, slice_index};
ghost use Rattle.body_codec.specs.Names.{NameMap};
ghost use Rattle.image_model.specs.Namings.{AreNamings};
ghost use Rattle.image_model.specs.Rows.{HasRow};
ghost use Rattle.image_model.specs.Streams.{strings_of};
ghost use Rattle.image_model.specs.Structure.{HasScopes};
ghost use Rattle.row_demands.specs.Structured.{MeetStructure};
ghost use Rattle.spec_facts.specs.SpecMap.{AreNameFacts};
ghost use Rattle.type_names.specs.Forest.{ref_node};
ghost use Rattle.name_weights.specs.Weights.{AreWeights, names_weighed, weighing};

use crate::levels::weights_of;
use crate::parts::Given;
use il_base::NoMemory;
use image_streams::Image;
use row_groups::Outers;
use std::alloc::Global;
use std::marker::Model;
use text_lengths::TextLengths;
use type_names::TypeNames;

/// What the types and references of an image weigh; what passes the last number of 32 bits stays there.
#[derive(Drop)]
pub struct NameWeights<'i, 'a> {
    pub(crate) image: &'i Image<'a>,
    // By the nodes of types and references.
    pub(crate) weights: Vec<u32>,
}

impl<'i, 'a> Model for NameWeights<'i, 'a> {
    ghost use Rattle.name_weights.specs.Weights.{Weighed, AreWeights};

    ghost Value = { Weighed };

    ghost view = { λ it. record { image = it.image.now; weights = it.weights.items } };

    ghost invariant = { λ it. AreWeights it.image.now it.weights.items };
}

impl<'i, 'a> NameWeights<'i, 'a> {
    /// The weights of an image's types and references, by what encloses them and by the lengths of their paths. The rows are looked
    /// at once for each length.
    ///
    /// # Errors
    ///
    /// There was no memory for them.
    pub fn new(
        alloc: Global,
        image: &'i Image<'a>,
        outers: &Outers<'i, 'a>,
        names: &TypeNames<'i, 'a>,
        lengths: &TextLengths<'a>,
    ) -> Result<NameWeights<'i, 'a>, NoMemory>
        requires small { length image.now ≤ 2 ^ 26 }
        requires outers { outers.now ≡ image.now }
        requires names { names.now.image ≡ image.now }
        requires lengths { lengths.now ≡ strings_of image.now }
        requires meets { MeetStructure image.now }
        requires scopes { (table row : ℕ) → HasScopes image.now table row }
        ensures { IfOk result (λ it. it.image ≡ image.now) }
    {
        let given = Given {
            image,
            outers,
            names,
            lengths,
        };
        let weights = weights_of(alloc, &given)?;
        Ok(NameWeights { image, weights })
    }

    /// What a type weighs, by its row.
    pub fn of_type(&self, row: u32) -> u32
        requires { HasRow self.now.image 0x02 row }
        ensures { result ≡ slice_index self.now.weights row }
    {
        self.weights[row as usize]
    }

    /// What a reference weighs, by its row.
    pub fn of_reference(&self, row: u32) -> u32
        requires { HasRow self.now.image 0x01 row }
        ensures { result ≡ slice_index self.now.weights (ref_node self.now.image row) }
    {
        let types = self.image.tables().rows(0x02);
        self.weights[types as usize + row as usize]
    }

    /// A law: the types and references weigh so, and the tokens of an image that meets I8 to I13 are told the facts of what they name.
    pub fn tell_weights(&self)
        ensures weights { AreWeights self.now.image self.now.weights }
        ensures tokens { MeetStructure self.now.image → ((table row : ℕ) → HasScopes self.now.image table row) → (names : NameMap) → AreNamings self.now.image names → AreNameFacts weighing names.owners (names_weighed self.now.image self.now.weights) }
    {
        let _image = self.image;
    }
}
