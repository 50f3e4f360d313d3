ghost use Rattle.std.specs.Prelude.{◌≡◌, ℕ, None};
ghost use Rattle.std.specs.Option.{option_copied};
ghost use Rattle.kept_names.specs.Keeping.{kept_at};
ghost use Rattle.kept_names.specs.Keys.{row_key};

use crate::Kept;
use il_lists::Units;
use sig_codec::Namer;
use std::alloc::Global;
use type_terms::{FieldRef, MethodRef, Owner, Types};

/// What is kept of the tokens of an image: types by the number of their table and row, all else by the token.
#[derive(Drop)]
pub struct KeptNames {
    /// The types, by `row_key`.
    pub owners: Kept<Owner>,
    /// The methods, by their tokens.
    pub methods: Kept<MethodRef>,
    /// The fields, by their tokens.
    pub fields: Kept<FieldRef>,
    /// The types of locals, by their tokens.
    pub locals: Kept<Types>,
    /// The user strings, by their tokens.
    pub texts: Kept<Units>,
}

/// The number of a row of a table.
pub fn row_key(table: u8, row: u32) -> u64
    ensures { result ≡ row_key table row }
{
    u64::from(table) * 0x1_0000_0000 + u64::from(row)
}

impl KeptNames {
    /// Nothing kept. Takes no memory.
    pub fn new(alloc: Global) -> KeptNames
        ensures owners { (key : ℕ) → kept_at result.owners.places result.owners.items key ≡ None }
        ensures methods { (key : ℕ) → kept_at result.methods.places result.methods.items key ≡ None }
        ensures fields { (key : ℕ) → kept_at result.fields.places result.fields.items key ≡ None }
        ensures locals { (key : ℕ) → kept_at result.locals.places result.locals.items key ≡ None }
        ensures texts { (key : ℕ) → kept_at result.texts.places result.texts.items key ≡ None }
    {
        KeptNames {
            owners: Kept::new(alloc),
            methods: Kept::new(alloc),
            fields: Kept::new(alloc),
            locals: Kept::new(alloc),
            texts: Kept::new(alloc),
        }
    }

    /// The type that is kept of a row.
    pub fn owner_of_row(&self, table: u8, row: u32) -> Option<&Owner>
        ensures { option_copied result ≡ kept_at self.now.owners.places self.now.owners.items (row_key table row) }
    {
        self.owners.get(row_key(table, row))
    }
}

impl Namer for KeptNames {
    ghost use Rattle.std.specs.Prelude.{◌/◌, ◌%◌, ◌^◌};
    ghost use Rattle.kept_names.specs.Keeping.{kept_at};
    ghost use Rattle.kept_names.specs.Keys.{row_key};

    ghost owners = { λ it token. kept_at it.owners.places it.owners.items (row_key (token / 2 ^ 24) (token % 2 ^ 24)) };

    ghost methods = { λ it token. kept_at it.methods.places it.methods.items token };

    ghost fields = { λ it token. kept_at it.fields.places it.fields.items token };

    ghost locals = { λ it token. kept_at it.locals.places it.locals.items token };

    ghost texts = { λ it token. kept_at it.texts.places it.texts.items token };

    fn owner_of(&self, token: u32) -> Option<&Owner> {
        let table = token / 0x0100_0000;
        self.owner_of_row(table as u8, token % 0x0100_0000)
    }

    fn method_of(&self, token: u32) -> Option<&MethodRef> {
        self.methods.get(u64::from(token))
    }

    fn field_of(&self, token: u32) -> Option<&FieldRef> {
        self.fields.get(u64::from(token))
    }

    fn locals_of(&self, token: u32) -> Option<&Types> {
        self.locals.get(u64::from(token))
    }

    fn text_of(&self, token: u32) -> Option<&Units> {
        self.texts.get(u64::from(token))
    }
}
