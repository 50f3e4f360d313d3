use il_base::Text;

/// A file that a run reads.
#[derive(Drop)]
pub struct Input {
    /// Its name.
    pub name: Text,
    /// The greatest number of bytes that it may have.
    pub limit: u32,
}

/// Why not all inputs were read.
#[derive(Clone, Copy)]
pub enum Stop<'a> {
    /// The shelf failed in a read of this input, or has no file of its name.
    Unread(&'a Input),
    /// This input has more bytes than its limit.
    TooLong(&'a Input),
    /// There was no memory for the bytes.
    NoMemory,
}
