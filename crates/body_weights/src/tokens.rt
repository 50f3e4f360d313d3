ghost use Rattle.std.specs.Prelude.{◌≡◌, ◌^◌, min, IfOk, slice_index};
ghost use Rattle.row_weights.specs.Rows.{AreKnown, known, cell_weighed, owner_weighed, method_told, FieldTold, TellRows};
ghost use Rattle.row_weights.specs.declared.kind.Kind.TheVariants as kinds;
ghost use Rattle.body_weights.specs.Tokens.{AreTokens, tokens, is_type, text_told, row_told, use_told, locals_told};

use body_outlines::TokenUse;
use heaps::{blob_at, blob_is_computed};
use il_base::NoMemory;
use image_streams::Image;
use opcode_table::OperandKind;
use row_weights::{Members, MethodWeights};
use signature_facts::Owners;
use std::alloc::Global;

/// The greatest number that is told of a weight.
const MOST: u64 = 1 << 27;

/// What the rows weigh that the tokens of an image name.
#[derive(Drop)]
pub(crate) struct TokenWeights<'s, 'a, O: Owners> {
    members: &'s Members<'s, 'a, O>,
    methods: MethodWeights,
    // Of references to fields, by rows of Field; that of row 0 counts for nothing.
    fields: Vec<u32>,
}

impl<'s, 'a, O: Owners> TokenWeights<'s, 'a, O> {
    /// The weights, of each row that is referred to once.
    ///
    /// # Errors
    ///
    /// There was no memory for them.
    pub(crate) fn new(
        alloc: Global,
        members: &'s Members<'s, 'a, O>,
    ) -> Result<TokenWeights<'s, 'a, O>, NoMemory>
        requires { AreKnown (known members.now.image.now members.now.names.now.weights (O.facts members.now.signatures.now.owners.now)) }
        ensures are { IfOk result (λ it. AreTokens (tokens (known it.members.now.image.now it.members.now.names.now.weights (O.facts it.members.now.signatures.now.owners.now)) it.methods it.fields.items)) }
        ensures image { IfOk result (λ it. it.members.now.image.now ≡ members.now.image.now) }
        ensures known { IfOk result (λ it. known it.members.now.image.now it.members.now.names.now.weights (O.facts it.members.now.signatures.now.owners.now) ≡ known members.now.image.now members.now.names.now.weights (O.facts members.now.signatures.now.owners.now)) }
    {
        let methods = MethodWeights::new(alloc, members)?;
        let fields = fields_of(alloc, members)?;
        Ok(TokenWeights {
            members,
            methods,
            fields,
        })
    }

    /// The image.
    pub(crate) fn image(&self) -> &'s Image<'a>
        ensures { result.now ≡ self.now.members.now.image.now }
    {
        self.members.image
    }

    /// What the type weighs that a row is; 0 where there is no such row.
    pub(crate) fn owner(&self, table: u8, row: u32) -> u32
        ensures { result ≡ owner_weighed (known self.now.members.now.image.now self.now.members.now.names.now.weights (O.facts self.now.members.now.signatures.now.owners.now)) table row }
    {
        self.members.owner(table, row)
    }

    /// What the method weighs that a token names; 0 where it names none.
    pub(crate) fn method(&self, token: u64) -> u32
        ensures { result ≡ method_told self.now.methods token }
    {
        self.methods.of(token)
    }

    /// What the type of a field weighs.
    pub(crate) fn field_type(&self, row: u32) -> u32
        ensures { result ≡ cell_weighed (known self.now.members.now.image.now self.now.members.now.names.now.weights (O.facts self.now.members.now.signatures.now.owners.now)) kinds.Field 0x04 row 2 }
    {
        self.members.field_type(row)
    }

    /// What the signature of a method weighs.
    pub(crate) fn signature(&self, row: u32) -> u32
        ensures { result ≡ cell_weighed (known self.now.members.now.image.now self.now.members.now.names.now.weights (O.facts self.now.members.now.signatures.now.owners.now)) kinds.Method 0x06 row 4 }
    {
        self.members.signature(row)
    }

    /// What the signature of a property weighs.
    pub(crate) fn property(&self, row: u32) -> u32
        ensures { result ≡ cell_weighed (known self.now.members.now.image.now self.now.members.now.names.now.weights (O.facts self.now.members.now.signatures.now.owners.now)) kinds.Property 0x17 row 2 }
    {
        self.members.property(row)
    }

    /// What the row weighs that a token names, as a field, a type or a method; 0 where it names none of them.
    #[tactic(auto, unfolding(crate::specs::Tokens::row_told))]
    pub(crate) fn of_token(&self, token: u32) -> u32
        ensures { result ≡ row_told (tokens (known self.now.members.now.image.now self.now.members.now.names.now.weights (O.facts self.now.members.now.signatures.now.owners.now)) self.now.methods self.now.fields.items) token }
    {
        let table = (token / 0x100_0000) as u8;
        let row = token % 0x100_0000;
        if table == 0x04 {
            return number_at(&self.fields, row as usize);
        }
        if is_type(table) {
            return self.owner(table, row);
        }
        self.method(u64::from(token))
    }

    /// What an operand adds to its instruction by what its token names.
    pub(crate) fn of_use(&self, one: &TokenUse) -> u64
        ensures { result ≡ use_told (tokens (known self.now.members.now.image.now self.now.members.now.names.now.weights (O.facts self.now.members.now.signatures.now.owners.now)) self.now.methods self.now.fields.items) one.now }
    {
        match one.kind {
            OperandKind::Text => text_weight(self.members.image, one.token),
            _ => u64::from(self.of_token(one.token)),
        }
    }

    /// What locals weigh by their token; 0 where there are none.
    pub(crate) fn of_locals(&self, token: u32) -> u32
        ensures { result ≡ locals_told (tokens (known self.now.members.now.image.now self.now.members.now.names.now.weights (O.facts self.now.members.now.signatures.now.owners.now)) self.now.methods self.now.fields.items) token }
    {
        if token == 0 {
            return 0;
        }
        self.members.locals(token % 0x100_0000)
    }
}

/// Whether the rows of a table are types.
fn is_type(table: u8) -> bool
    ensures { result ≡ is_type table }
{
    table == 0x02 || table == 0x01 || table == 0x1B
}

/// What a user string weighs: two for each unit (ECMA-335 II.24.2.4).
#[tactic(auto, unfolding(crate::specs::Tokens::text_told))]
fn text_weight(image: &Image<'_>, token: u32) -> u64
    ensures { result ≡ text_told image.now token }
{
    blob_is_computed();
    match blob_at(image.user(), token % 0x100_0000) {
        Some(entry) => entry.len().saturating_sub(1) as u64,
        None => 0,
    }
}

/// The number at a place, or 0 past the end.
pub(crate) fn number_at(numbers: &[u32], at: usize) -> u32
    ensures { result ≡ slice_index numbers.now at }
{
    match numbers.get(at) {
        Some(number) => *number,
        None => 0,
    }
}

/// A weight, or 2^27 where it is more.
pub(crate) fn told(weight: u64) -> u32
    ensures { result ≡ min weight (2 ^ 27) }
{
    weight.min(MOST) as u32
}

/// What references to the rows of Field weigh.
fn fields_of<O: Owners>(alloc: Global, given: &Members<'_, '_, O>) -> Result<Vec<u32>, NoMemory>
    requires { AreKnown (known given.now.image.now given.now.names.now.weights (O.facts given.now.signatures.now.owners.now)) }
    ensures { IfOk result (λ weights. TellRows given.now.image.now 0x04 (FieldTold given.now.image.now 0x04) weights.items) }
{
    let count = given.image.tables().rows(0x04);
    let mut weights = Vec::from_elem(alloc, 0, count as usize + 1)?;
    for row in 0..count {
        weights[row as usize + 1] = told(given.field(row + 1));
    }
    Ok(weights)
}
