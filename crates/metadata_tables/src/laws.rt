//! Laws of the definitions that the contracts are made of, for the proofs of crates above.
ghost use Rattle.metadata_tables.specs.Indexes.{IndexesFit};
ghost use Rattle.metadata_tables.specs.Laws.{LongerStream, OneFault, RowOfColumns};

/// Bytes behind the last row of a stream change nothing of its tables.
pub fn longer_stream()
    ensures { LongerStream }
{}

/// A stream has one fault at most, and one that opens has none.
pub fn one_fault()
    ensures { OneFault }
{}

/// Cells that fit the columns of a table, one after another, make a row of it.
pub fn row_of_columns()
    ensures { RowOfColumns }
{}

/// Row numbers fit the widths that follow from the row counts: simple indexes, the starts of runs, and
/// coded indexes.
pub fn indexes_fit()
    ensures { IndexesFit }
{}
