ghost use Rattle.std.specs.Prelude.{◌≡◌, ◌≤◌, ◌<◌, ◌↔◌, ◌⊎◌, ℕ, IsTrue, false};
ghost use Rattle.image_model.specs.Rows.{count_of, HasRow};
ghost use Rattle.image_model.specs.Structure.{HasScopes, IsFirstWith};
ghost use Rattle.image_model.specs.Columns.{nested_class, enclosing_class};
ghost use Rattle.metadata_tables.specs.Faults.{IsEarlier};
ghost use Rattle.row_demands.specs.Structured.{MeetStructure};

use crate::TypeNames;
use demand_search::Demand;
use image_streams::Image;
use std::marker::Model;

/// Nesting and scopes are right (I13): a type has one row of NestedClass at most, stands behind the type that encloses it and has a
/// path of at most 100 names; a reference leads along its scopes, by at most 100 names, to an assembly or to a type of the module.
#[derive(Drop)]
pub struct Scopes<'i, 'n, 'a> {
    image: &'i Image<'a>,
    names: &'n TypeNames<'n, 'a>,
}

impl<'i, 'n, 'a> Model for Scopes<'i, 'n, 'a> {
    ghost use Rattle.std.specs.Prelude.{◌≡◌, ℕ, List};
    ghost use Rattle.row_demands.specs.Structured.{MeetStructure};

    ghost Value = { List ℕ };

    ghost view = { λ it. it.image.now };

    ghost invariant = { λ it. (it.names.now.image ≡ it.image.now) × MeetStructure it.image.now };
}

impl<'i, 'n, 'a> Scopes<'i, 'n, 'a> {
    /// The demand on an image, by the numbers of its types and references.
    pub fn new(image: &'i Image<'a>, names: &'n TypeNames<'n, 'a>) -> Scopes<'i, 'n, 'a>
        requires same { names.now.image ≡ image.now }
        requires meets { MeetStructure image.now }
        ensures { result ≡ image.now }
    {
        Scopes { image, names }
    }
}

impl<'i, 'n, 'a> Demand for Scopes<'i, 'n, 'a> {
    ghost use Rattle.image_model.specs.Rows.{count_of};
    ghost use Rattle.image_model.specs.Structure.{HasScopes};

    ghost meets = { λ it table row. HasScopes it table row };

    ghost rows = { λ it table. count_of it table };

    fn asks(&self, table: u8) -> bool {
        table == 0x01 || table == 0x29
    }

    fn count(&self, table: u8) -> u32 {
        self.image.tables().rows(table)
    }

    fn row_meets(&self, table: u8, row: u32) -> bool {
        if row == 0 {
            return true;
        }
        match table {
            0x01 => has_scope(self.names, row),
            0x29 => is_nested(self.image, self.names, row),
            _ => true,
        }
    }

    fn others_meet(&self) {
        rows_stand_in_tables(self.image);
    }
}

/// Whether a reference has a scope as it should be.
fn has_scope(names: &TypeNames<'_, '_>, row: u32) -> bool
    requires { HasRow names.now.image 0x01 row }
    ensures { IsTrue result ↔ HasScopes names.now.image 0x01 row }
{
    names.has_scope(row)
}

/// Whether a type is nested as it should be: by one row, behind the type that encloses it, and not too deep (II.22.32).
#[tactic(auto, unfolding(metadata_tables::specs::Schema::schema))]
fn is_nested(image: &Image<'_>, names: &TypeNames<'_, '_>, row: u32) -> bool
    requires same { names.now.image ≡ image.now }
    requires there { HasRow image.now 0x29 row }
    requires meets { MeetStructure image.now }
    ensures { IsTrue result ↔ HasScopes image.now 0x29 row }
{
    let nested = image.tables().cell(0x29, row, 0);
    if !is_first(image, row, nested) {
        return false;
    }
    if !stands_behind(image, row, nested) {
        return false;
    }
    names.tell_names();
    names.has_path(nested)
}

/// Whether the type of a row of NestedClass stands behind the one that encloses it.
#[tactic(auto, unfolding(metadata_tables::specs::Schema::schema))]
fn stands_behind(image: &Image<'_>, row: u32, nested: u32) -> bool
    requires { HasRow image.now 0x29 row }
    ensures { IsTrue result ↔ (enclosing_class image.now row < nested) }
{
    image.tables().cell(0x29, row, 1) < nested
}

/// Whether no row of NestedClass above this one has its type: the table is in order, so that they would stand side by side.
#[tactic(auto, unfolding(metadata_tables::specs::Schema::schema))]
fn is_first(image: &Image<'_>, row: u32, nested: u32) -> bool
    requires there { HasRow image.now 0x29 row }
    requires nested { nested ≡ nested_class image.now row }
    requires meets { MeetStructure image.now }
    ensures { IsTrue result ↔ IsFirstWith (nested_class image.now) row }
{
    row <= 1 || image.tables().cell(0x29, row - 1, 0) != nested
}

/// A law: rows stand in the tables of the profile alone, and there up to their number.
fn rows_stand_in_tables(image: &Image<'_>)
    ensures { (table row : ℕ) → (45 ≤ table) ⊎ (count_of image.now table < row) → HasRow image.now table row → ⊥ }
{
    let _tables = image.tables();
}
