ghost use Rattle.std.specs.Prelude.{◌≡◌, ℕ, [], IfOk, OnOk, Contains};
ghost use Rattle.image_model.specs.Naming.{IsToken};
ghost use Rattle.image_model.specs.Rows.{Names};
ghost use Rattle.method_states.specs.Marks.{IsMarked};
ghost use Rattle.image_used.specs.Spreading.{Spreads, IsReady, IsRow, TokensName};

use hash_places::HashPlaces;
use il_base::{Items, NoMemory};
use image_streams::Image;
use metadata_tables::{Coded, unpack_coded};
use method_states::RowMarks;
use std::alloc::Global;

/// A row of a table.
#[derive(Clone, Copy)]
pub(crate) struct RowAt {
    pub table: u8,
    pub row: u32,
}

/// The rows that were found to be used, and what is still to be looked at.
#[derive(Drop)]
pub(crate) struct Spread {
    /// Those that were found.
    pub marks: RowMarks,
    /// Those among them of which what they name isn't marked yet.
    pub todo: Items<RowAt>,
    /// The signatures of which what they name is marked, by their tables and indexes.
    pub seen: HashPlaces,
}

impl Spread {
    /// No rows of an image.
    pub(crate) fn new(alloc: Global, image: &Image<'_>) -> Result<Spread, NoMemory>
        ensures ready { IfOk result (λ it. IsReady image.now it.marks it.seen) }
        ensures none { IfOk result (λ it. (table row : ℕ) → IsMarked it.marks table row → ⊥) }
        ensures waits { IfOk result (λ it. it.todo ≡ []) }
    {
        let marks = RowMarks::new(alloc, image)?;
        Ok(Spread {
            marks,
            todo: Items::new(alloc),
            seen: HashPlaces::new(alloc),
        })
    }

    /// Marks a row, which waits then if it is new.
    pub(crate) fn mark(&mut self, table: u8, row: u32) -> Result<(), NoMemory>
        ensures marked { OnOk result (Spreads self.old.marks self.old.todo self.new.marks self.new.todo (IsRow table row)) }
        ensures seen { self.new.seen ≡ self.old.seen }
    {
        if self.marks.mark(table, row) {
            return self.todo.push(RowAt { table, row });
        }
        Ok(())
    }

    /// Marks the row that a coded index names (II.24.2.6).
    pub(crate) fn mark_coded(&mut self, kind: Coded, value: u32) -> Result<(), NoMemory>
        ensures marked { OnOk result (Spreads self.old.marks self.old.todo self.new.marks self.new.todo (Names kind value)) }
        ensures seen { self.new.seen ≡ self.old.seen }
    {
        match unpack_coded(kind, value) {
            None => Ok(()),
            Some((table, row)) => self.mark(table, row),
        }
    }

    /// Marks the row that a token names (III.1.9).
    fn mark_token(&mut self, token: u32) -> Result<(), NoMemory>
        ensures marked { OnOk result (Spreads self.old.marks self.old.todo self.new.marks self.new.todo (IsToken token)) }
        ensures seen { self.new.seen ≡ self.old.seen }
    {
        let table = (token / 0x100_0000) as u8;
        self.mark(table, token % 0x100_0000)
    }

    /// Marks the rows that tokens name.
    pub(crate) fn mark_tokens(&mut self, tokens: &[u32]) -> Result<(), NoMemory>
        ensures marked { OnOk result (Spreads self.old.marks self.old.todo self.new.marks self.new.todo (TokensName tokens.now)) }
        ensures seen { self.new.seen ≡ self.old.seen }
    {
        for token in tokens {
            self.mark_token(*token)?;
        }
        Ok(())
    }
}
