ghost use Rattle.std.specs.Prelude.{◌≡◌};
ghost use Rattle.name_weights.specs.Weights.{is_row, name_of, node_of};

use crate::NameWeights;
use image_streams::Image;
use signature_facts::{Facts, OwnerFacts, Owners};

impl<'i, 'a> Owners for NameWeights<'i, 'a> {
    ghost use Rattle.name_weights.specs.Weights.{names_weighed};

    ghost facts = { λ it. names_weighed it.image it.weights };

    fn facts_of(&self, token: u32) -> Option<OwnerFacts> {
        let node = node_of(self.image, token)?;
        Some(name_of(*self.weights.get(node)?))
    }
}

/// A plain name with a weight, of which nothing more is told.
fn name_of(weight: u32) -> OwnerFacts
    ensures { result ≡ name_of weight }
{
    OwnerFacts {
        is_name: true,
        facts: Facts {
            depth: 0,
            nodes: 0,
            rank: 0,
            weight,
            hash: 0,
        },
    }
}

/// The node of the type or reference that a token names.
#[tactic(auto, unfolding(crate::specs::Weights::node_of))]
fn node_of(image: &Image<'_>, token: u32) -> Option<usize>
    ensures { result ≡ node_of image.now token }
{
    let table = (token / 0x100_0000) as u8;
    let row = token % 0x100_0000;
    let tables = image.tables();
    if table == 0x02 && has_row(image, 0x02, row) {
        return Some(row as usize);
    }
    if table == 0x01 && has_row(image, 0x01, row) {
        return Some(tables.rows(0x02) as usize + row as usize);
    }
    None
}

/// Whether a table has a row.
fn has_row(image: &Image<'_>, table: u8, row: u32) -> bool
    ensures { result ≡ is_row image.now table row }
{
    0 < row && row <= image.tables().rows(table)
}
