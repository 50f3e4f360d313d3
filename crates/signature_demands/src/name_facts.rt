ghost use Rattle.std.specs.Prelude.{◌≡◌, IsTrue};
ghost use Rattle.signature_demands.specs.Named.{names_type};

use image_streams::Image;
use signature_facts::{Facts, OwnerFacts, Owners};

/// What is told of the rows of TypeDef and TypeRef of an image, where names have no weight: that they are plain names (II.22.37,
/// II.22.38).
#[derive(Drop)]
pub struct NameFacts<'i, 'a> {
    /// The image.
    pub image: &'i Image<'a>,
}

impl<'i, 'a> Owners for NameFacts<'i, 'a> {
    ghost use Rattle.signature_demands.specs.Named.{names_told};

    ghost facts = { λ it. names_told it.image.now };

    fn facts_of(&self, token: u32) -> Option<OwnerFacts> {
        if names_type(self.image, token) {
            return Some(NAME);
        }
        None
    }
}

/// A plain name, of which nothing more is told.
const NAME: OwnerFacts = OwnerFacts {
    is_name: true,
    facts: Facts {
        depth: 0,
        nodes: 0,
        rank: 0,
        weight: 0,
        hash: 0,
    },
};

/// Whether a token names a row of TypeDef or TypeRef.
fn names_type(image: &Image<'_>, token: u32) -> bool
    ensures { result ≡ names_type image.now token }
{
    let table = (token / 0x100_0000) as u8;
    let row = token % 0x100_0000;
    (table == 0x01 || table == 0x02) && 0 < row && row <= image.tables().rows(table)
}
