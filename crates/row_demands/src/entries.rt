ghost use Rattle.std.specs.Prelude.{◌≡◌, ◌≤◌, ◌<◌, ◌↔◌, ◌≢◌, ◌⊎◌, ℕ, List, [], IsTrue, false, true};
ghost use Rattle.heaps.specs.Content.{HasText};
ghost use Rattle.metadata_tables.specs.Faults.{IsEarlier};
ghost use Rattle.image_model.specs.Rows.{HasRow};
ghost use Rattle.image_model.specs.Streams.{strings_of};
ghost use Rattle.image_model.specs.Cells.{HasEntries, IsEntry};

use crate::standing::rows_stand_in_tables;
use demand_search::Demand;
use heaps::{blob_at, guid_at};
use image_streams::Image;
use metadata_tables::{Column, columns};
use std::marker::Model;
use text_places::TextPlaces;

/// Entries lie in their heaps (I9): a text ends and is UTF-8, and isn't empty where it is needed; a blob and an identifier are
/// whole.
#[derive(Drop)]
pub struct Entries<'i, 't, 'a> {
    image: &'i Image<'a>,
    texts: &'t TextPlaces<'a>,
}

impl<'i, 't, 'a> Model for Entries<'i, 't, 'a> {
    ghost use Rattle.std.specs.Prelude.{◌≡◌, ℕ, List};
    ghost use Rattle.image_model.specs.Streams.{strings_of};

    ghost Value = { List ℕ };

    ghost view = { λ it. it.image.now };

    ghost invariant = { λ it. it.texts.now ≡ strings_of it.image.now };
}

impl<'i, 't, 'a> Entries<'i, 't, 'a> {
    /// The demand on an image, by the places of its texts.
    pub fn new(image: &'i Image<'a>, texts: &'t TextPlaces<'a>) -> Entries<'i, 't, 'a>
        requires { texts.now ≡ strings_of image.now }
        ensures { result ≡ image.now }
    {
        Entries { image, texts }
    }

    /// Whether each entry of a row stands in its heap.
    fn have_entries(&self, table: u8, row: u32) -> bool
        requires { HasRow self.now table row }
        ensures { IsTrue result ↔ HasEntries self.now table row }
    {
        for (number, column) in columns(table).iter().enumerate() {
            let value = self.image.tables().cell(table, row, number as u8);
            if !self.is_entry(column, value) {
                return false;
            }
        }
        true
    }

    /// Whether the value in a cell leads to an entry, where its column has entries.
    fn is_entry(&self, column: &Column, value: u32) -> bool
        ensures { IsTrue result ↔ IsEntry self.now column.now value }
    {
        match column {
            Column::Strings(nil) => self.has_text(value, *nil),
            Column::Guids(nil) => {
                (*nil && value == 0) || guid_at(self.image.guids(), value).is_some()
            }
            Column::Blobs(_) => blob_at(self.image.blobs(), value).is_some(),
            Column::Number(_) | Column::Row(_) | Column::Run(_) | Column::Tagged(_, _) => true,
        }
    }

    /// Whether a text stands at an index of `#Strings`, one that isn't empty where it may not be.
    fn has_text(&self, at: u32, may_be_empty: bool) -> bool
        ensures { IsTrue result ↔ ((text : List ℕ) × HasText (strings_of self.now) at text × ((may_be_empty ≡ true) ⊎ (text ≢ []))) }
    {
        if !self.texts.has_text(at) {
            return false;
        }
        may_be_empty || !is_empty_at(self.image.strings(), at)
    }
}

/// Whether the text at an index of `#Strings`, where one stands, is empty.
fn is_empty_at(heap: &[u8], at: u32) -> bool
    ensures { (text : List ℕ) → HasText heap.now at text → IsTrue result ↔ (text ≡ []) }
{
    if at == 0 {
        return true;
    }
    let at = at as usize;
    at < heap.len() && heap[at] == 0
}

impl<'i, 't, 'a> Demand for Entries<'i, 't, 'a> {
    ghost use Rattle.image_model.specs.Rows.{count_of, HasRow};
    ghost use Rattle.image_model.specs.Cells.{HasEntries};

    ghost meets = { λ it table row. HasRow it table row → HasEntries it table row };

    ghost rows = { λ it table. count_of it table };

    fn asks(&self, _table: u8) -> bool {
        true
    }

    fn count(&self, table: u8) -> u32 {
        self.image.tables().rows(table)
    }

    fn row_meets(&self, table: u8, row: u32) -> bool {
        row == 0 || self.have_entries(table, row)
    }

    fn others_meet(&self) {
        rows_stand_in_tables(self.image);
    }
}
