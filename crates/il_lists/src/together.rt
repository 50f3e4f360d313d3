ghost use Rattle.std.specs.Prelude.{◌≡◌, IfOk};

use crate::{Copies, Items, NoMemory};
use std::alloc::Global;

// Copies of several parts in one call. A struct of trees is copied by one of these: where the copy of a later part
// finds no memory, the copies before it are let go here, over type parameters, and not at each struct field by field.

/// Copies of both.
pub fn two<A: Copies, B: Copies>(a: &A, b: &B, alloc: Global) -> Result<(A, B), NoMemory>
    ensures { IfOk result (λ it. (it.0 ≡ a.now) × (it.1 ≡ b.now)) }
{
    let a = a.copy(alloc)?;
    let b = b.copy(alloc)?;
    Ok((a, b))
}

/// Copies of all three.
pub fn three<A: Copies, B: Copies, C: Copies>(
    a: &A,
    b: &B,
    c: &C,
    alloc: Global,
) -> Result<(A, B, C), NoMemory>
    ensures { IfOk result (λ it. (it.0 ≡ a.now) × ((it.1 ≡ b.now) × (it.2 ≡ c.now))) }
{
    let (a, b) = two(a, b, alloc)?;
    let c = c.copy(alloc)?;
    Ok((a, b, c))
}

/// Copies of all four.
pub fn four<A: Copies, B: Copies, C: Copies, D: Copies>(
    a: &A,
    b: &B,
    c: &C,
    d: &D,
    alloc: Global,
) -> Result<(A, B, C, D), NoMemory>
    ensures { IfOk result (λ it. (it.0 ≡ a.now) × ((it.1 ≡ b.now) × ((it.2 ≡ c.now) × (it.3 ≡ d.now)))) }
{
    let (a, b) = two(a, b, alloc)?;
    let (c, d) = two(c, d, alloc)?;
    Ok((a, b, c, d))
}

/// Copies of all five.
pub fn five<A: Copies, B: Copies, C: Copies, D: Copies, E: Copies>(
    a: &A,
    b: &B,
    c: &C,
    d: &D,
    e: &E,
    alloc: Global,
) -> Result<(A, B, C, D, E), NoMemory>
    ensures { IfOk result (λ it. (it.0 ≡ a.now) × ((it.1 ≡ b.now) × ((it.2 ≡ c.now) × ((it.3 ≡ d.now) × (it.4 ≡ e.now))))) }
{
    let (a, b) = two(a, b, alloc)?;
    let (c, d, e) = three(c, d, e, alloc)?;
    Ok((a, b, c, d, e))
}

/// Copies of all six.
pub fn six<A: Copies, B: Copies, C: Copies, D: Copies, E: Copies, F: Copies>(
    a: &A,
    b: &B,
    c: &C,
    d: &D,
    e: &E,
    f: &F,
    alloc: Global,
) -> Result<(A, B, C, D, E, F), NoMemory>
    ensures { IfOk result (λ it. (it.0 ≡ a.now) × ((it.1 ≡ b.now) × ((it.2 ≡ c.now) × ((it.3 ≡ d.now) × ((it.4 ≡ e.now) × (it.5 ≡ f.now)))))) }
{
    let (a, b, c) = three(a, b, c, alloc)?;
    let (d, e, f) = three(d, e, f, alloc)?;
    Ok((a, b, c, d, e, f))
}

/// Copies of all seven.
pub fn seven<A: Copies, B: Copies, C: Copies, D: Copies, E: Copies, F: Copies, G: Copies>(
    a: &A,
    b: &B,
    c: &C,
    d: &D,
    e: &E,
    f: &F,
    g: &G,
    alloc: Global,
) -> Result<(A, B, C, D, E, F, G), NoMemory>
    ensures { IfOk result (λ it. (it.0 ≡ a.now) × ((it.1 ≡ b.now) × ((it.2 ≡ c.now) × ((it.3 ≡ d.now) × ((it.4 ≡ e.now) × ((it.5 ≡ f.now) × (it.6 ≡ g.now))))))) }
{
    let (a, b, c, d) = four(a, b, c, d, alloc)?;
    let (e, f, g) = three(e, f, g, alloc)?;
    Ok((a, b, c, d, e, f, g))
}
