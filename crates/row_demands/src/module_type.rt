ghost use Rattle.std.specs.Prelude.{◌≡◌, ◌≢◌, ◌≤◌, ◌<◌, ◌↔◌, ℕ, List, IsTrue, codes, length};
ghost use Rattle.heaps.specs.Content.{HasText};
ghost use Rattle.metadata_tables.specs.Schema.{columns_of};
ghost use Rattle.metadata_tables.specs.Stream.{cell};
ghost use Rattle.image_model.specs.Rows.{HasRow};
ghost use Rattle.image_model.specs.Streams.{strings_of, tables_of};
ghost use Rattle.image_model.specs.Structure.{IsModuleType};
ghost use Rattle.row_demands.specs.Members.{HasNone, HasEmptyRuns, IsModuleNamed, OwnsNothing, start_of, end_of};

use crate::indexes::run_row;
use heaps::{one_content_at_an_index, string_at};
use image_streams::Image;

/// HasCustomAttribute and TypeOrMethodDef of row 1 of TypeDef (II.24.2.6).
const ATTRIBUTES_OF_MODULE: u32 = 0x23;

const GENERICS_OF_MODULE: u32 = 0x02;

/// Whether row 1 of TypeDef is `<Module>`, with no base, property, event, interface, attribute or generic parameter, and in no
/// nesting (II.22.37).
pub(crate) fn is_module_type(image: &Image<'_>) -> bool
    requires { HasRow image.now 0x02 1 }
    ensures { IsTrue result ↔ IsModuleType image.now }
{
    if !is_module_named(image) {
        return false;
    }
    if !has_no_maps(image) {
        return false;
    }
    owns_nothing(image) && is_not_nested(image)
}

/// Whether row 1 of TypeDef has the name `<Module>`, no space and no base.
#[tactic(auto, unfolding(metadata_tables::specs::Schema::schema))]
fn is_module_named(image: &Image<'_>) -> bool
    requires { HasRow image.now 0x02 1 }
    ensures { IsTrue result ↔ IsModuleNamed image.now }
{
    let tables = image.tables();
    if !has_name(image.strings(), tables.cell(0x02, 1, 1), "<Module>") {
        return false;
    }
    if !has_name(image.strings(), tables.cell(0x02, 1, 2), "") {
        return false;
    }
    tables.cell(0x02, 1, 3) == 0
}

/// Whether row 1 of TypeDef has no property and no event.
#[tactic(auto, unfolding(metadata_tables::specs::Schema::schema))]
fn has_no_maps(image: &Image<'_>) -> bool
    ensures { IsTrue result ↔ (HasEmptyRuns image.now 0x15 0x17 × HasEmptyRuns image.now 0x12 0x14) }
{
    has_empty_runs(image, 0x15, 0x17) && has_empty_runs(image, 0x12, 0x14)
}

/// Whether row 1 of TypeDef has no interface, attribute or generic parameter.
#[tactic(auto, unfolding(metadata_tables::specs::Schema::schema))]
fn owns_nothing(image: &Image<'_>) -> bool
    ensures { IsTrue result ↔ OwnsNothing image.now }
{
    if !has_none(image, 0x09, 0, 1) {
        return false;
    }
    if !has_none(image, 0x0C, 0, ATTRIBUTES_OF_MODULE) {
        return false;
    }
    has_none(image, 0x2A, 2, GENERICS_OF_MODULE)
}

/// Whether row 1 of TypeDef is in no nesting.
#[tactic(auto, unfolding(metadata_tables::specs::Schema::schema))]
fn is_not_nested(image: &Image<'_>) -> bool
    ensures { IsTrue result ↔ (HasNone image.now 0x29 0 1 × HasNone image.now 0x29 1 1) }
{
    has_none(image, 0x29, 0, 1) && has_none(image, 0x29, 1, 1)
}

/// Whether this text stands at an index of `#Strings`.
fn has_name(heap: &[u8], at: u32, name: &str) -> bool
    ensures { IsTrue result ↔ HasText heap.now at name.now }
{
    one_content_at_an_index();
    match string_at(heap, at) {
        Some(text) => text == name,
        None => false,
    }
}

/// Whether no row of a table holds a value in a column.
fn has_none(image: &Image<'_>, table: u8, column: u8, value: u32) -> bool
    requires { column < length (columns_of table) }
    ensures { IsTrue result ↔ HasNone image.now table column value }
{
    let tables = image.tables();
    for row in 0..tables.rows(table) {
        if tables.cell(table, row + 1, column) == value {
            return false;
        }
    }
    true
}

/// Whether the runs of a map's rows whose parent is row 1 of TypeDef are empty.
fn has_empty_runs(image: &Image<'_>, map: u8, members: u8) -> bool
    requires { 1 < length (columns_of map) }
    ensures { IsTrue result ↔ HasEmptyRuns image.now map members }
{
    let tables = image.tables();
    for row in 0..tables.rows(map) {
        if tables.cell(map, row + 1, 0) == 1
            && u64::from(run_start(image, map, members, row + 1))
                < run_end(image, map, members, row + 1)
        {
            return false;
        }
    }
    true
}

/// Where the run of a map's row begins.
fn run_start(image: &Image<'_>, map: u8, members: u8, row: u32) -> u32
    requires there { HasRow image.now map row }
    requires column { 1 < length (columns_of map) }
    ensures { result ≡ start_of image.now map members row }
{
    let tables = image.tables();
    run_row(tables.rows(members), tables.cell(map, row, 1))
}

/// Where the run of a map's row ends: where that of the next row begins, or behind the last member.
fn run_end(image: &Image<'_>, map: u8, members: u8, row: u32) -> u64
    requires there { HasRow image.now map row }
    requires column { 1 < length (columns_of map) }
    ensures { result ≡ end_of image.now map members row }
{
    let tables = image.tables();
    if row == tables.rows(map) {
        u64::from(tables.rows(members)) + 1
    } else {
        u64::from(run_start(image, map, members, row + 1))
    }
}
