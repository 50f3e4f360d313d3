use thiserror::Error;

/// Why bytes are no stream of tables, and where. Rows are counted from 1; row 0 stands for a whole table.
#[derive(Debug, Clone, Copy, PartialEq, Eq, Error)]
#[error("I{rule} at table {table:02X} row {row}")]
pub struct TableFault {
    /// 6 where the header is cut or a table isn't in the profile, 7 where a row is cut.
    pub rule: u8,
    /// The table's number.
    pub table: u8,
    /// The row, or 0.
    pub row: u32,
}
