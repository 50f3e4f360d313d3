ghost use Rattle.std.specs.Prelude.{◌≡◌, ◌+◌, ◌^◌, ◌<◌, ◌≤◌, ℕ, IfOk};
ghost use Rattle.std.specs.List.{AllZip, range_with_len};
ghost use Rattle.image_model.specs.Reading.{IsGiven};

use il_base::{Items, NoMemory};
use row_groups::Rows;
use std::alloc::Global;

/// What reads a part of a tree of a row.
pub trait Part<X> {
    /// The part can be read of a row.
    ghost there: { Self → ℕ → Type 0 };

    /// A row gives a part.
    ghost gives: { Self → ℕ → X → Type 0 };

    /// The part of a row.
    fn read(&self, alloc: Global, row: u32) -> Result<X, NoMemory>
        requires { there self.now row }
        ensures { IfOk result (gives self.now row) };
}

/// The parts of rows that stand side by side, in their order.
pub fn read_all<X: Drop, P: Part<X>>(
    alloc: Global,
    part: &P,
    rows: Rows,
) -> Result<Items<X>, NoMemory>
    requires few { rows.first + rows.count ≤ 2 ^ 32 }
    requires there { (k : ℕ) → k < rows.count → P.there part.now (rows.first + k) }
    ensures { IfOk result (AllZip (P.gives part.now) (range_with_len rows.first rows.count)) }
{
    let mut parts = Items::with_capacity(alloc, rows.count as usize)?;
    for k in 0..rows.count {
        let read = part.read(alloc, (rows.first + k) as u32)?;
        parts.push(read)?;
    }
    Ok(parts)
}

/// The part of one row at most.
pub fn read_one<X: Drop, P: Part<X>>(
    alloc: Global,
    part: &P,
    rows: Rows,
) -> Result<Option<X>, NoMemory>
    requires few { rows.first + rows.count ≤ 2 ^ 32 }
    requires one { rows.count ≤ 1 }
    requires there { rows.count ≡ 1 → P.there part.now rows.first }
    ensures { IfOk result (IsGiven (P.gives part.now) (range_with_len rows.first rows.count)) }
{
    if rows.count == 0 {
        return Ok(None);
    }
    let read = part.read(alloc, rows.first as u32)?;
    Ok(Some(read))
}
