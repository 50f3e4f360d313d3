ghost use Rattle.std.specs.Prelude.{◌≡◌, ◌<◌, ◌+◌, ◌∷◌, [], IsTrue, length};
ghost use Rattle.image_model.specs.Rows.{HasRow};
ghost use Rattle.image_model.specs.Streams.{tables_of};
ghost use Rattle.metadata_tables.specs.Schema.{columns_of};
ghost use Rattle.metadata_tables.specs.Stream.{cell, column_of};
ghost use Rattle.row_parts.specs.Kinds.{AreBytes, is_short};

use image_streams::Image;
use row_parts::number_of;

/// The four numbers of a version: major, minor, build and revision, that begin in a column (II.22.2, II.22.5).
pub(crate) fn version(image: &Image<'_>, table: u8, row: u32, column: u8) -> [u16; 4]
    requires bytes { AreBytes (tables_of image.now) }
    requires there { HasRow image.now table row }
    requires columns { column + 3 < length (columns_of table) }
    requires few { column < 100 }
    requires major { IsTrue (is_short (column_of table column)) }
    requires minor { IsTrue (is_short (column_of table (column + 1))) }
    requires build { IsTrue (is_short (column_of table (column + 2))) }
    requires revision { IsTrue (is_short (column_of table (column + 3))) }
    ensures { result ≡ cell (tables_of image.now) table row column ∷ cell (tables_of image.now) table row (column + 1) ∷ cell (tables_of image.now) table row (column + 2) ∷ cell (tables_of image.now) table row (column + 3) ∷ [] }
{
    [
        number_of(image, table, row, column),
        number_of(image, table, row, column + 1),
        number_of(image, table, row, column + 2),
        number_of(image, table, row, column + 3),
    ]
}
