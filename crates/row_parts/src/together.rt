ghost use Rattle.std.specs.Prelude.{◌≡◌, Ok, IfOk};

use il_base::NoMemory;

// Several parts, or want of memory where there was none for one of them. A struct of trees is put together by one of these: where
// a later part is lacking, the parts before it are let go here, over type parameters, and not at each struct field by field.

/// Both.
pub fn pair<A: Drop, B: Drop>(
    a: Result<A, NoMemory>,
    b: Result<B, NoMemory>,
) -> Result<(A, B), NoMemory>
    ensures { IfOk result (λ it. (a ≡ Ok it.0) × (b ≡ Ok it.1)) }
{
    let a = a?;
    let b = b?;
    Ok((a, b))
}

/// All three.
pub fn three<A: Drop, B: Drop, C: Drop>(
    a: Result<A, NoMemory>,
    b: Result<B, NoMemory>,
    c: Result<C, NoMemory>,
) -> Result<(A, B, C), NoMemory>
    ensures { IfOk result (λ it. (a ≡ Ok it.0) × ((b ≡ Ok it.1) × (c ≡ Ok it.2))) }
{
    let (a, b) = pair(a, b)?;
    let c = c?;
    Ok((a, b, c))
}

/// All four.
pub fn four<A: Drop, B: Drop, C: Drop, D: Drop>(
    a: Result<A, NoMemory>,
    b: Result<B, NoMemory>,
    c: Result<C, NoMemory>,
    d: Result<D, NoMemory>,
) -> Result<(A, B, C, D), NoMemory>
    ensures { IfOk result (λ it. (a ≡ Ok it.0) × ((b ≡ Ok it.1) × ((c ≡ Ok it.2) × (d ≡ Ok it.3)))) }
{
    let (a, b) = pair(a, b)?;
    let (c, d) = pair(c, d)?;
    Ok((a, b, c, d))
}

/// All five.
pub fn five<A: Drop, B: Drop, C: Drop, D: Drop, E: Drop>(
    a: Result<A, NoMemory>,
    b: Result<B, NoMemory>,
    c: Result<C, NoMemory>,
    d: Result<D, NoMemory>,
    e: Result<E, NoMemory>,
) -> Result<(A, B, C, D, E), NoMemory>
    ensures { IfOk result (λ it. (a ≡ Ok it.0) × ((b ≡ Ok it.1) × ((c ≡ Ok it.2) × ((d ≡ Ok it.3) × (e ≡ Ok it.4))))) }
{
    let (a, b) = pair(a, b)?;
    let (c, d, e) = three(c, d, e)?;
    Ok((a, b, c, d, e))
}

/// All seven.
pub fn seven<A: Drop, B: Drop, C: Drop, D: Drop, E: Drop, F: Drop, G: Drop>(
    a: Result<A, NoMemory>,
    b: Result<B, NoMemory>,
    c: Result<C, NoMemory>,
    d: Result<D, NoMemory>,
    e: Result<E, NoMemory>,
    f: Result<F, NoMemory>,
    g: Result<G, NoMemory>,
) -> Result<(A, B, C, D, E, F, G), NoMemory>
    ensures { IfOk result (λ it. (a ≡ Ok it.0) × ((b ≡ Ok it.1) × ((c ≡ Ok it.2) × ((d ≡ Ok it.3) × ((e ≡ Ok it.4) × ((f ≡ Ok it.5) × (g ≡ Ok it.6))))))) }
{
    let (a, b, c) = three(a, b, c)?;
    let (d, e, f, g) = four(d, e, f, g)?;
    Ok((a, b, c, d, e, f, g))
}
