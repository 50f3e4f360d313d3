//! The rows of a text, and what is said of them.

use crate::fault::Fault;

/// Whether a line is a row: it has bytes, and doesn't begin with `#` and a blank.
pub fn is_row(line: &str) -> bool {
    !line.is_empty() && !line.starts_with("# ")
}

/// Says of a row, counted from 1, that the table has it otherwise.
///
/// # Errors
///
/// It can't be written.
pub fn differs(rt: &HostRuntime, name: &str, row: usize, line: &str) -> Result<(), Fault> {
    Ok(println!(rt; "{name}: row {row} is otherwise in the table: {line}")?)
}

/// Says how many rows a text and its table have.
///
/// # Errors
///
/// It can't be written.
pub fn told(rt: &HostRuntime, name: &str, rows: usize, of_table: usize) -> Result<(), Fault> {
    Ok(println!(rt; "{name}: {rows} rows, of the table {of_table}")?)
}
