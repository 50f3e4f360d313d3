ghost use Rattle.std.specs.Prelude.{◌≡◌, IfOk};

use il_base::{Boxed, Copies, NoMemory};
use std::alloc::Global;

// Several values are boxed in one call: where a later box finds no memory, what came before is let go here, over type
// parameters, and not at each type field by field.

/// Both in boxes.
pub(crate) fn boxed_two<A: Drop, B: Drop>(
    alloc: Global,
    a: A,
    b: B,
) -> Result<(Boxed<A>, Boxed<B>), NoMemory>
    ensures { IfOk result (λ it. (it.0 ≡ a) × (it.1 ≡ b)) }
{
    let a = Boxed::new(alloc, a)?;
    let b = Boxed::new(alloc, b)?;
    Ok((a, b))
}

/// All three in boxes.
pub(crate) fn boxed_three<A: Drop, B: Drop, C: Drop>(
    alloc: Global,
    a: A,
    b: B,
    c: C,
) -> Result<(Boxed<A>, Boxed<B>, Boxed<C>), NoMemory>
    ensures { IfOk result (λ it. (it.0 ≡ a) × ((it.1 ≡ b) × (it.2 ≡ c))) }
{
    let (a, b) = boxed_two(alloc, a, b)?;
    let c = Boxed::new(alloc, c)?;
    Ok((a, b, c))
}

/// A copy of the first in a box, and the second in one.
pub(crate) fn boxed_copy_and<A: Copies, B: Drop>(
    alloc: Global,
    a: &A,
    b: B,
) -> Result<(Boxed<A>, Boxed<B>), NoMemory>
    ensures { IfOk result (λ it. (it.0 ≡ a.now) × (it.1 ≡ b)) }
{
    let a = a.copy(alloc)?;
    boxed_two(alloc, a, b)
}
