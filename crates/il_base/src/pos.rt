/// A place in a source. Lines count from 1 by line feeds, columns are bytes from 1. Places are
/// ordered as they stand in the source.
#[derive(Debug, Clone, Copy, PartialEq, Eq, PartialOrd, Ord)]
pub struct Pos {
    /// The line.
    pub line: u32,
    /// The column, in bytes.
    pub col: u32,
}
