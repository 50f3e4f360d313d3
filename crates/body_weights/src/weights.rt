ghost use Rattle.std.specs.Prelude.{◌≡◌, IfOk};
ghost use Rattle.row_weights.specs.Rows.{AreKnown, known};
ghost use Rattle.told_weights.specs.Told.{TellWeights};
ghost use Rattle.body_weights.specs.Bodies.{bodies_told};
ghost use Rattle.body_weights.specs.Tokens.{tokens};

use crate::bodies::bodies_of;
use crate::tokens::{TokenWeights, number_at};
use il_base::NoMemory;
use row_weights::Members;
use signature_facts::Owners;
use std::alloc::Global;
use told_weights::RowWeights;

/// What all weighs that the rows of an image name and have.
#[derive(Drop)]
pub struct BodyWeights<'s, 'a, O: Owners> {
    tokens: TokenWeights<'s, 'a, O>,
    // By rows of MethodDef; that of row 0 counts for nothing.
    bodies: Vec<u32>,
}

impl<'s, 'a, O: Owners> BodyWeights<'s, 'a, O> {
    /// The weights, of each row and of the body at each RVA once.
    ///
    /// # Errors
    ///
    /// There was no memory for them.
    pub fn new(
        alloc: Global,
        members: &'s Members<'s, 'a, O>,
    ) -> Result<BodyWeights<'s, 'a, O>, NoMemory>
        requires { AreKnown (known members.now.image.now members.now.names.now.weights (O.facts members.now.signatures.now.owners.now)) }
        ensures { IfOk result (λ it. TellWeights members.now.image.now (bodies_told (tokens (known it.tokens.members.now.image.now it.tokens.members.now.names.now.weights (O.facts it.tokens.members.now.signatures.now.owners.now)) it.tokens.methods it.tokens.fields.items) it.bodies.items)) }
    {
        let tokens = TokenWeights::new(alloc, members)?;
        let bodies = bodies_of(alloc, tokens.image(), &tokens)?;
        Ok(BodyWeights { tokens, bodies })
    }
}

impl<'s, 'a, O: Owners> RowWeights for BodyWeights<'s, 'a, O> {
    ghost use Rattle.row_weights.specs.Rows.{known};
    ghost use Rattle.body_weights.specs.Bodies.{bodies_told};
    ghost use Rattle.body_weights.specs.Tokens.{tokens};

    ghost told = { λ it. bodies_told (tokens (known it.tokens.members.now.image.now it.tokens.members.now.names.now.weights (O.facts it.tokens.members.now.signatures.now.owners.now)) it.tokens.methods it.tokens.fields.items) it.bodies.items };

    fn owner(&self, table: u8, row: u32) -> u64 {
        u64::from(self.tokens.owner(table, row))
    }

    fn method(&self, table: u8, row: u32) -> u64 {
        let token = u64::from(table) * 0x100_0000 + u64::from(row);
        u64::from(self.tokens.method(token))
    }

    fn field(&self, row: u32) -> u64 {
        u64::from(self.tokens.field_type(row))
    }

    fn signature(&self, row: u32) -> u64 {
        u64::from(self.tokens.signature(row))
    }

    fn property(&self, row: u32) -> u64 {
        u64::from(self.tokens.property(row))
    }

    fn body(&self, row: u32) -> u64 {
        u64::from(number_at(&self.bodies, row as usize))
    }
}
