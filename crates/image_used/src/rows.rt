ghost use Rattle.std.specs.Prelude.{◌≡◌, OnOk};
ghost use Rattle.image_model.specs.Rows.{HasRow};
ghost use Rattle.image_model.specs.Used.{RowNames};
ghost use Rattle.image_used.specs.Spreading.{Spreads, IsReady, IndexNames, SignatureLeads, key};

use crate::spread::Spread;
use il_base::NoMemory;
use image_streams::Image;
use row_signatures::{signature_column, tokens_at};
use std::alloc::Global;

impl Spread {
    /// Marks the rows that a row names, by coded indexes and in its signature.
    pub(crate) fn mark_named(
        &mut self,
        alloc: Global,
        image: &Image<'_>,
        table: u8,
        row: u32,
    ) -> Result<(), NoMemory>
        requires there { HasRow image.now table row }
        requires ready { IsReady image.now self.old.marks self.old.seen }
        ensures marked { OnOk result (Spreads self.old.marks self.old.todo self.new.marks self.new.todo (RowNames image.now table row)) }
        ensures ready { OnOk result (IsReady image.now self.new.marks self.new.seen) }
    {
        self.mark_cells(image, table, row)?;
        self.mark_signature(alloc, image, table, row)
    }

    /// Marks the rows that the signature of a row names.
    fn mark_signature(
        &mut self,
        alloc: Global,
        image: &Image<'_>,
        table: u8,
        row: u32,
    ) -> Result<(), NoMemory>
        requires there { HasRow image.now table row }
        requires ready { IsReady image.now self.old.marks self.old.seen }
        ensures marked { OnOk result (Spreads self.old.marks self.old.todo self.new.marks self.new.todo (SignatureLeads image.now table row)) }
        ensures ready { OnOk result (IsReady image.now self.new.marks self.new.seen) }
    {
        match signature_column(table) {
            None => Ok(()),
            Some(column) => {
                let index = image.tables().cell(table, row, column);
                self.mark_index(alloc, image, table, index)
            }
        }
    }

    /// Marks the rows that the blob at an index names, read as the signature of a row of a table, where it wasn't looked at before.
    fn mark_index(
        &mut self,
        alloc: Global,
        image: &Image<'_>,
        table: u8,
        index: u32,
    ) -> Result<(), NoMemory>
        requires ready { IsReady image.now self.old.marks self.old.seen }
        ensures marked { OnOk result (Spreads self.old.marks self.old.todo self.new.marks self.new.todo (IndexNames image.now table index)) }
        ensures ready { OnOk result (IsReady image.now self.new.marks self.new.seen) }
    {
        let hash = key(table, index);
        match self.seen.get(hash) {
            Some(_) => Ok(()),
            None => {
                self.mark_blob(alloc, image, table, index)?;
                self.seen.insert(hash, 0)?;
                Ok(())
            }
        }
    }

    /// The same of a blob that wasn't looked at before.
    fn mark_blob(
        &mut self,
        alloc: Global,
        image: &Image<'_>,
        table: u8,
        index: u32,
    ) -> Result<(), NoMemory>
        ensures marked { OnOk result (Spreads self.old.marks self.old.todo self.new.marks self.new.todo (IndexNames image.now table index)) }
        ensures seen { self.new.seen ≡ self.old.seen }
    {
        let tokens = tokens_at(alloc, image, table, index)?;
        self.mark_tokens(tokens.as_slice())
    }
}

/// A number for each table and index.
fn key(table: u8, index: u32) -> u64
    ensures { result ≡ key table index }
{
    u64::from(index) * 256 + u64::from(table)
}
