/// Where an image fails a demand.
#[derive(Debug, Clone, Copy, PartialEq, Eq)]
pub enum Place {
    /// A byte of the file.
    Byte(u32),
    /// A row of a table, counted from 1; row 0 stands for the table's number of rows.
    Row {
        /// The table's number.
        table: u8,
        /// The row.
        row: u32,
    },
    /// The image as a whole.
    Whole,
}
