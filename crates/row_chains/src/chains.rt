ghost use Rattle.std.specs.Prelude.{◌≡◌, ◌≤◌, ◌<◌, ◌+◌, ◌^◌, ℕ, IfOk, length, slice_index};
ghost use Rattle.row_chains.specs.Following.{Follows, AreWithin, AreHeads, AreNexts};

use il_base::NoMemory;
use std::alloc::Global;
use std::marker::Model;

/// The rows of each owner, in order. Contracts see the owners of the rows, that of row 0 aside.
#[derive(Drop)]
pub struct Chains<'o> {
    owners: &'o [u32],
    // For each owner its first row, or 0.
    heads: Vec<u32>,
    // For each row the next one of its owner, or 0.
    nexts: Vec<u32>,
}

impl<'o> Model for Chains<'o> {
    ghost use Rattle.std.specs.Prelude.{ℕ, List};
    ghost use Rattle.row_chains.specs.Following.{AreHeads, AreNexts};

    ghost Value = { List ℕ };

    ghost view = { λ it. it.owners.now };

    ghost invariant = { λ it. AreHeads it.owners.now 0 it.heads.items × AreNexts it.owners.now 0 it.nexts.items };
}

impl<'o> Chains<'o> {
    /// The chains of rows whose owners are at most `most`; `owners` has one for each row, counted from 1, and one for row 0 that
    /// counts for nothing. Looks at each row once, from the last to the first.
    pub fn new(alloc: Global, owners: &'o [u32], most: u32) -> Result<Chains<'o>, NoMemory>
        requires some { 0 < length owners.now }
        requires few { length owners.now ≤ 2 ^ 32 }
        requires within { AreWithin owners.now most }
        ensures { IfOk result (λ it. it ≡ owners.now) }
    {
        let mut heads = Vec::from_elem(alloc, 0, most as usize + 1)?;
        let mut nexts = Vec::from_elem(alloc, 0, owners.len())?;
        link(owners, heads.as_mut_slice(), nexts.as_mut_slice());
        Ok(Chains {
            owners,
            heads,
            nexts,
        })
    }

    /// The first row of an owner, or 0.
    pub fn first(&self, owner: u32) -> u32
        ensures { Follows self.now owner 0 result }
    {
        number_at(&self.heads, owner as usize)
    }

    /// The next row of the owner of a row, or 0.
    pub fn next(&self, row: u32) -> u32
        requires some { 0 < row }
        requires there { row < length self.now }
        ensures { Follows self.now (slice_index self.now row) row result }
    {
        number_at(&self.nexts, row as usize)
    }
}

/// The number at a place, or 0 past the end.
fn number_at(numbers: &[u32], at: usize) -> u32
    ensures { result ≡ slice_index numbers.now at }
{
    match numbers.get(at) {
        Some(number) => *number,
        None => 0,
    }
}

/// Links the rows of each owner, from the last row to the first.
fn link(owners: &[u32], heads: &mut [u32], nexts: &mut [u32])
    requires some { 0 < length owners.now }
    requires few { length owners.now ≤ 2 ^ 32 }
    requires within { (row : ℕ) → 0 < row → row < length owners.now → slice_index owners.now row < length heads.old }
    requires zeros { (owner : ℕ) → slice_index heads.old owner ≡ 0 }
    requires long { length nexts.old ≡ length owners.now }
    ensures heads { AreHeads owners.now 0 heads.new }
    ensures nexts { AreNexts owners.now 0 nexts.new }
{
    let mut row = owners.len() - 1;
    while 0 < row {
        let owner = owners[row] as usize;
        nexts[row] = heads[owner];
        heads[owner] = row as u32;
        row -= 1;
    }
}
