ghost use Rattle.std.specs.Prelude.{◌≡◌, ◌<◌, ◌≤◌, ◌+◌, ◌-◌, ◌*◌, ◌^◌, ℕ, length, sum_by};
ghost use Rattle.std.specs.List.{range_with_len};
ghost use Rattle.image_model.specs.Rows.{HasRow, rows_with};
ghost use Rattle.image_model.specs.Streams.{tables_of};
ghost use Rattle.image_weights.specs.RowWeights.{first_weight};
ghost use Rattle.metadata_tables.specs.Schema.{columns_of};
ghost use Rattle.metadata_tables.specs.Stream.{cell};
ghost use Rattle.row_groups.specs.Ranges.{Ascends, cell_of};

use image_streams::Image;
use row_groups::{Rows, owned_rows};

/// What weighs rows.
pub(crate) trait Charges {
    ghost use Rattle.std.specs.Prelude.{◌≡◌, ◌-◌, ℕ};

    /// A row can be weighed.
    ghost there: { Self → ℕ → Type 0 };

    /// What a row weighs.
    ghost weight: { Self → ℕ → ℕ };

    /// Takes off the weight of a row.
    fn charge(&self, row: u32, left: u64) -> u64
        requires { there self.now row }
        ensures { result ≡ left - weight self.now row };
}

/// Takes off the weights of rows that stand side by side.
pub(crate) fn charge_rows<C: Charges>(each: &C, rows: Rows, left: u64) -> u64
    requires few { rows.first + rows.count ≤ 2 ^ 32 }
    requires there { (k : ℕ) → k < rows.count → C.there each.now (rows.first + k) }
    ensures { result ≡ left - sum_by (C.weight each.now) (range_with_len rows.first rows.count) }
{
    let mut left = left;
    for k in 0..rows.count {
        left = each.charge((rows.first + k) as u32, left);
    }
    left
}

/// Takes off the weights of the rows of a table that hold a value in a column by which the table is in order.
pub(crate) fn charge_owned<C: Charges>(
    image: &Image<'_>,
    each: &C,
    table: u8,
    column: u8,
    value: u64,
    left: u64,
) -> u64
    requires small { value < 2 ^ 64 - 1 }
    requires column { column < length (columns_of table) }
    requires order { Ascends image.now table column }
    requires there { (row : ℕ) → HasRow image.now table row → cell (tables_of image.now) table row column ≡ value → C.there each.now row }
    ensures { result ≡ left - sum_by (C.weight each.now) (rows_with image.now table (cell_of table column) value) }
{
    let rows = owned_rows(image, table, column, value);
    charge_rows(each, rows, left)
}

/// Takes off the weight of the first row of a table that holds a value in a column by which the table is in order, where there is
/// one.
pub(crate) fn charge_first<C: Charges>(
    image: &Image<'_>,
    each: &C,
    table: u8,
    column: u8,
    value: u64,
    left: u64,
) -> u64
    requires small { value < 2 ^ 64 - 1 }
    requires column { column < length (columns_of table) }
    requires order { Ascends image.now table column }
    requires there { (row : ℕ) → HasRow image.now table row → cell (tables_of image.now) table row column ≡ value → C.there each.now row }
    ensures { result ≡ left - first_weight (C.weight each.now) (rows_with image.now table (cell_of table column) value) }
{
    let rows = owned_rows(image, table, column, value);
    if rows.count == 0 {
        return left;
    }
    each.charge(rows.first as u32, left)
}

/// Takes off 64 where a row of a table holds a value in a column by which the table is in order.
pub(crate) fn charge_present(image: &Image<'_>, table: u8, column: u8, value: u64, left: u64) -> u64
    requires small { value < 2 ^ 64 - 1 }
    requires column { column < length (columns_of table) }
    requires order { Ascends image.now table column }
    ensures { result ≡ left - first_weight (λ k. 64) (rows_with image.now table (cell_of table column) value) }
{
    let rows = owned_rows(image, table, column, value);
    if rows.count == 0 {
        return left;
    }
    left.saturating_sub(64)
}
