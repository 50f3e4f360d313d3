use type_terms::Path;

/// A type that an assembly declares (ECMA-335 II.10.1).
#[derive(Drop)]
pub struct Row {
    /// From the top-level type down to it.
    pub path: Path,
    /// II.23.1.15.
    pub flags: u32,
    /// The number of its generic parameters.
    pub parameters: u32,
}
