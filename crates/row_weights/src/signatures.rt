ghost use Rattle.std.specs.Prelude.{◌≡◌, ◌<◌, IfOk, length};
ghost use Rattle.metadata_tables.specs.Schema.{columns_of};
ghost use Rattle.row_weights.specs.Signatures.{weighed, key, AreWeighed};

use crate::Kind;
use crate::weigh::weigh;
use hash_places::HashPlaces;
use il_base::NoMemory;
use image_streams::Image;
use signature_facts::Owners;
use std::alloc::Global;

/// What the signatures of an image weigh, each found once for a kind and a blob.
#[derive(Drop)]
pub struct SignatureWeights<'s, 'a, O: Owners> {
    /// The image.
    pub image: &'s Image<'a>,
    /// What is told of what tokens name.
    pub owners: &'s O,
    newest: HashPlaces,
    weights: Vec<u32>,
    ghost are: { AreWeighed image.now (O.facts owners.now) newest weights.items },
}

impl<'s, 'a, O: Owners> SignatureWeights<'s, 'a, O> {
    /// What the signatures of all rows weigh, used or not, where `owners` tells what tokens name.
    ///
    /// # Errors
    ///
    /// There was no memory for them.
    pub fn new(
        alloc: Global,
        image: &'s Image<'a>,
        owners: &'s O,
    ) -> Result<SignatureWeights<'s, 'a, O>, NoMemory>
        ensures image { IfOk result (λ all. all.image.now ≡ image.now) }
        ensures owners { IfOk result (λ all. all.owners.now ≡ owners.now) }
    {
        let mut all = SignatureWeights {
            image,
            owners,
            newest: HashPlaces::new(alloc),
            weights: Vec::new(alloc),
        };
        all.add_rows()?;
        Ok(all)
    }

    /// What the signature at an index of `#Blob` weighs, read as this kind; 0 where none is spelled.
    pub fn of(&self, kind: Kind, index: u32) -> u32
        ensures { result ≡ weighed self.now.image.now (O.facts self.now.owners.now) kind index }
    {
        match self.newest.get(key(kind, index)) {
            Some(place) => self.weights[place],
            None => weigh(self.image, self.owners, kind, index),
        }
    }

    /// Weighs what the signature columns of all rows lead to.
    #[tactic(auto, unfolding(metadata_tables::specs::Schema::schema))]
    fn add_rows(&mut self) -> Result<(), NoMemory>
        ensures image { self.new.image ≡ self.old.image }
        ensures owners { self.new.owners ≡ self.old.owners }
    {
        self.add_table(0x04, 2, Kind::Field)?;
        self.add_table(0x06, 4, Kind::Method)?;
        self.add_table(0x0A, 2, Kind::Method)?;
        self.add_table(0x0A, 2, Kind::Field)?;
        self.add_table(0x11, 0, Kind::Locals)?;
        self.add_table(0x17, 2, Kind::Property)?;
        self.add_table(0x1B, 0, Kind::Type)?;
        self.add_table(0x2B, 1, Kind::Instantiation)
    }

    /// Weighs what a column of a table leads to.
    fn add_table(&mut self, table: u8, column: u8, kind: Kind) -> Result<(), NoMemory>
        requires { column < length (columns_of table) }
        ensures image { self.new.image ≡ self.old.image }
        ensures owners { self.new.owners ≡ self.old.owners }
    {
        let image = self.image;
        for row in 0..image.tables().rows(table) {
            let index = image.tables().cell(table, row + 1, column);
            self.add(kind, index)?;
        }
        Ok(())
    }

    /// Weighs one signature, where it isn't weighed yet.
    fn add(&mut self, kind: Kind, index: u32) -> Result<(), NoMemory>
        ensures image { self.new.image ≡ self.old.image }
        ensures owners { self.new.owners ≡ self.old.owners }
    {
        let hash = key(kind, index);
        if self.newest.get(hash).is_some() {
            return Ok(());
        }
        let place = self.weights.len();
        let weight = weigh(self.image, self.owners, kind, index);
        self.weights.push(weight)?;
        self.newest.insert(hash, place)?;
        Ok(())
    }
}

/// A number for each kind and index.
fn key(kind: Kind, index: u32) -> u64
    ensures { result ≡ key kind index }
{
    u64::from(index) * 8 + kind.number()
}
