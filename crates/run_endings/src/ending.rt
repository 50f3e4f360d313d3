use crate::Written;
use il_base::Text;

/// A file that is made.
#[derive(Drop)]
pub struct Made {
    /// Its name.
    pub name: Text,
    /// All that it holds.
    pub bytes: Written,
}

/// All that a run says and writes: a file first, then standard output, then standard error.
#[derive(Drop)]
pub struct Ending {
    /// The status, unless something can't be written.
    pub number: u8,
    /// The file that is made, where there is one.
    pub file: Option<Made>,
    /// What standard output takes.
    pub out: Text,
    /// What standard error takes.
    pub err: Text,
}
