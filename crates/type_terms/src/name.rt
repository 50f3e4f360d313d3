use crate::Path;
use il_lists::Text;

/// Where a type is declared (ECMA-335 II.6.3, II.22.38).
#[derive(Debug, Clone, Copy, PartialEq, Eq, Drop)]
pub enum Scope {
    /// In this assembly.
    Here,
    /// In the referenced assembly of this number, counted from 0.
    Extern(u32),
}

/// The space and the name of one class (ECMA-335 II.22.37).
#[derive(Drop)]
pub struct TypeId {
    pub space: Text,
    pub name: Text,
}

/// A type's name: where it is declared, and the path from a top-level class down to it.
#[derive(Drop)]
pub struct TypeName {
    pub scope: Scope,
    pub path: Path,
}
