ghost use Rattle.std.specs.Prelude.{◌≡◌, ◌<◌, ◌+◌, length};
ghost use Rattle.image_model.specs.Rows.{HasRow};
ghost use Rattle.image_model.specs.Streams.{strings_of};
ghost use Rattle.metadata_tables.specs.Schema.{columns_of};
ghost use Rattle.name_weights.specs.Weights.{is_row};
ghost use Rattle.row_weights.specs.Rows.{AreKnown, cell_weighed, owner_weighed, MethodTold, FieldTold, MemberOwnerTold, ParentTold, IsTextAt, known};
ghost use Rattle.row_weights.specs.declared.kind.Kind.TheVariants as kinds;

use crate::owners::{field_owner, method_owner};
use crate::{Kind, SignatureWeights};
use image_streams::Image;
use metadata_tables::{Coded, unpack_coded};
use name_weights::NameWeights;
use signature_facts::Owners;
use text_lengths::TextLengths;

/// What tells the weights of what rows are, refer to and hold.
#[derive(Drop)]
pub struct Members<'s, 'a, O: Owners> {
    /// The image.
    pub image: &'s Image<'a>,
    /// What its types and references weigh.
    pub names: &'s NameWeights<'s, 'a>,
    /// How long its texts are.
    pub lengths: &'s TextLengths<'a>,
    /// What its signatures weigh.
    pub signatures: &'s SignatureWeights<'s, 'a, O>,
    pub ghost names_of_image: { names.now.image ≡ image.now },
    pub ghost lengths_of_image: { lengths.now ≡ strings_of image.now },
    pub ghost signatures_of_image: { signatures.now.image.now ≡ image.now },
}

impl<'s, 'a, O: Owners> Members<'s, 'a, O> {
    /// What tells them, of an image.
    pub fn new(
        image: &'s Image<'a>,
        names: &'s NameWeights<'s, 'a>,
        lengths: &'s TextLengths<'a>,
        signatures: &'s SignatureWeights<'s, 'a, O>,
    ) -> Members<'s, 'a, O>
        requires names { names.now.image ≡ image.now }
        requires lengths { lengths.now ≡ strings_of image.now }
        requires signatures { signatures.now.image.now ≡ image.now }
        ensures image { result.image.now ≡ image.now }
        ensures names { result.names.now ≡ names.now }
        ensures signatures { result.signatures.now ≡ signatures.now }
    {
        Members {
            image,
            names,
            lengths,
            signatures,
        }
    }

    /// What the type weighs that a row of TypeDef, TypeRef or TypeSpec is; 0 where there is no such row.
    #[tactic(auto, unfolding(crate::specs::Rows::owner_weighed, metadata_tables::specs::Schema::schema))]
    pub fn owner(&self, table: u8, row: u32) -> u32
        ensures { result ≡ owner_weighed (known self.now.image.now self.now.names.now.weights (O.facts self.now.signatures.now.owners.now)) table row }
    {
        if table == 0x1B {
            return self.at_cell(Kind::Type, 0x1B, row, 0);
        }
        if table == 0x02 && has_row(self.image, 0x02, row) {
            return self.names.of_type(row);
        }
        if table == 0x01 && has_row(self.image, 0x01, row) {
            return self.names.of_reference(row);
        }
        0
    }

    /// What the signature in a cell weighs, read as this kind; 0 where there is no such row.
    fn at_cell(&self, kind: Kind, table: u8, row: u32, column: u8) -> u32
        requires { column < length (columns_of table) }
        ensures { result ≡ cell_weighed (known self.now.image.now self.now.names.now.weights (O.facts self.now.signatures.now.owners.now)) kind table row column }
    {
        if !has_row(self.image, table, row) {
            return 0;
        }
        let index = self.image.tables().cell(table, row, column);
        self.signatures.of(kind, index)
    }

    /// How long the text in a cell is, or the last number of 32 bits where it is longer.
    fn text_at(&self, table: u8, row: u32, column: u8) -> u32
        requires there { HasRow self.now.image.now table row }
        requires column { column < length (columns_of table) }
        ensures { IsTextAt self.now.image.now table row column result }
    {
        let index = self.image.tables().cell(table, row, column);
        self.lengths.length_at(index)
    }

    /// What the type of a field weighs.
    #[tactic(auto, unfolding(metadata_tables::specs::Schema::schema))]
    pub fn field_type(&self, row: u32) -> u32
        ensures { result ≡ cell_weighed (known self.now.image.now self.now.names.now.weights (O.facts self.now.signatures.now.owners.now)) kinds.Field 0x04 row 2 }
    {
        self.at_cell(Kind::Field, 0x04, row, 2)
    }

    /// What the signature of a method weighs.
    #[tactic(auto, unfolding(metadata_tables::specs::Schema::schema))]
    pub fn signature(&self, row: u32) -> u32
        ensures { result ≡ cell_weighed (known self.now.image.now self.now.names.now.weights (O.facts self.now.signatures.now.owners.now)) kinds.Method 0x06 row 4 }
    {
        self.at_cell(Kind::Method, 0x06, row, 4)
    }

    /// What the signature of a property weighs.
    #[tactic(auto, unfolding(metadata_tables::specs::Schema::schema))]
    pub fn property(&self, row: u32) -> u32
        ensures { result ≡ cell_weighed (known self.now.image.now self.now.names.now.weights (O.facts self.now.signatures.now.owners.now)) kinds.Property 0x17 row 2 }
    {
        self.at_cell(Kind::Property, 0x17, row, 2)
    }

    /// What locals weigh, each with 64 besides.
    #[tactic(auto, unfolding(metadata_tables::specs::Schema::schema))]
    pub fn locals(&self, row: u32) -> u32
        ensures { result ≡ cell_weighed (known self.now.image.now self.now.names.now.weights (O.facts self.now.signatures.now.owners.now)) kinds.Locals 0x11 row 0 }
    {
        self.at_cell(Kind::Locals, 0x11, row, 0)
    }

    /// What the arguments of a MethodSpec weigh.
    #[tactic(auto, unfolding(metadata_tables::specs::Schema::schema))]
    pub fn arguments(&self, row: u32) -> u32
        ensures { result ≡ cell_weighed (known self.now.image.now self.now.names.now.weights (O.facts self.now.signatures.now.owners.now)) kinds.Instantiation 0x2B row 1 }
    {
        self.at_cell(Kind::Instantiation, 0x2B, row, 1)
    }

    /// What a reference to a field weighs, by its row of Field.
    #[tactic(auto, unfolding(metadata_tables::specs::Schema::schema))]
    pub fn field(&self, row: u32) -> u64
        requires there { HasRow self.now.image.now 0x04 row }
        requires known { AreKnown (known self.now.image.now self.now.names.now.weights (O.facts self.now.signatures.now.owners.now)) }
        ensures { FieldTold self.now.image.now 0x04 row result }
    {
        let owner = self.names.of_type(field_owner(self.image, row));
        let name = self.text_at(0x04, row, 1);
        reference(owner, name, self.field_type(row))
    }

    /// What a reference to a method weighs, by its row of MethodDef.
    #[tactic(auto, unfolding(metadata_tables::specs::Schema::schema))]
    pub fn method(&self, row: u32) -> u64
        requires there { HasRow self.now.image.now 0x06 row }
        requires known { AreKnown (known self.now.image.now self.now.names.now.weights (O.facts self.now.signatures.now.owners.now)) }
        ensures { MethodTold self.now.image.now 0x06 row result }
    {
        let owner = self.names.of_type(method_owner(self.image, row));
        let name = self.text_at(0x06, row, 3);
        reference(owner, name, self.signature(row))
    }

    /// What the owner of a MemberRef weighs: a type, or that of the method that its parent is (II.22.25).
    #[tactic(auto, unfolding(metadata_tables::specs::Schema::schema))]
    fn member_owner(&self, row: u32) -> u32
        requires there { HasRow self.now.image.now 0x0A row }
        requires known { AreKnown (known self.now.image.now self.now.names.now.weights (O.facts self.now.signatures.now.owners.now)) }
        ensures { MemberOwnerTold self.now.image.now row result }
    {
        let parent = self.image.tables().cell(0x0A, row, 0);
        match unpack_coded(Coded::MemberRefParent, parent) {
            Some((table, row)) => self.parent(table, row),
            None => 0,
        }
    }

    /// What a parent of a MemberRef weighs.
    fn parent(&self, table: u8, row: u32) -> u32
        requires { AreKnown (known self.now.image.now self.now.names.now.weights (O.facts self.now.signatures.now.owners.now)) }
        ensures { ParentTold self.now.image.now table row result }
    {
        if table == 0x06 {
            if has_row(self.image, 0x06, row) {
                return self.names.of_type(method_owner(self.image, row));
            }
            return 0;
        }
        self.owner(table, row)
    }

    /// What a reference to a member weighs, by its row of MemberRef. Its signature is a method's or a field's, and never both.
    #[tactic(auto, unfolding(metadata_tables::specs::Schema::schema))]
    pub fn member(&self, row: u32) -> u64
        requires there { HasRow self.now.image.now 0x0A row }
        requires known { AreKnown (known self.now.image.now self.now.names.now.weights (O.facts self.now.signatures.now.owners.now)) }
        ensures method { MethodTold self.now.image.now 0x0A row result }
        ensures field { FieldTold self.now.image.now 0x0A row result }
    {
        let owner = self.member_owner(row);
        let name = self.text_at(0x0A, row, 1);
        let method = self.at_cell(Kind::Method, 0x0A, row, 2);
        let field = self.at_cell(Kind::Field, 0x0A, row, 2);
        reference(owner, name, method) + u64::from(field)
    }
}

/// What a reference to a member weighs: 64, its owner, its name and its signature.
fn reference(owner: u32, name: u32, signature: u32) -> u64
    ensures { result ≡ 64 + owner + name + signature }
{
    64 + u64::from(owner) + u64::from(name) + u64::from(signature)
}

/// Whether a table has a row.
fn has_row(image: &Image<'_>, table: u8, row: u32) -> bool
    ensures { result ≡ is_row image.now table row }
{
    0 < row && row <= image.tables().rows(table)
}
