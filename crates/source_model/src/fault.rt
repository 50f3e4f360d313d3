/// The classes of the faults of a source that has a derivation, in the order in which they are named.
#[derive(Debug, Clone, Copy, PartialEq, Eq, Drop)]
pub enum NameClass {
    /// Something is declared twice.
    D,
    /// Something that is named isn't declared.
    N,
    /// A number, a count, a range or a depth is out of its bounds.
    B,
}
