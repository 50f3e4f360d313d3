//! Values that are made side by side.

use il_lists::NoMemory;

/// Both, or want of memory.
pub fn both<A: Drop, B: Drop>(
    a: Result<A, NoMemory>,
    b: Result<B, NoMemory>,
) -> Result<(A, B), NoMemory> {
    let a = a?;
    let b = b?;
    Ok((a, b))
}

/// All of four, or want of memory.
pub fn four<A: Drop, B: Drop, C: Drop, D: Drop>(
    a: Result<A, NoMemory>,
    b: Result<B, NoMemory>,
    c: Result<C, NoMemory>,
    d: Result<D, NoMemory>,
) -> Result<(A, B, C, D), NoMemory> {
    let (a, b) = both(a, b)?;
    let (c, d) = both(c, d)?;
    Ok((a, b, c, d))
}
