ghost use Rattle.std.specs.Prelude.{◌≡◌, ◌+◌, ◌≤◌, ◌<◌, ◌^◌, ℕ, pos, replicate, length, IfOk, IfSome, IfNone};
ghost use Rattle.body_codec.specs.Instruction.{place};
ghost use Rattle.body_codec.specs.Reading.{pieces_of, piece_of, AreMarks, AreStarts, IsLayout, BeginsAt, IsMark};

use super::marks::Mark;
use il_lists::{Items, NoMemory, Numbers};
use std::alloc::Global;

/// What stands in place of an instruction's number where none begins.
const NO_START: u32 = 0xFFFF_FFFF;

/// Code, where its instructions stand, and for each offset the number of the one that begins there.
#[derive(Clone, Copy)]
pub(crate) struct Layout<'a> {
    pub code: &'a [u8],
    pub marks: &'a [Mark],
    pub starts: &'a [u32],
}

/// For each offset of the code the number of the instruction that begins there.
pub(crate) fn read_starts(alloc: Global, code: &[u8], marks: &[Mark]) -> Result<Numbers, NoMemory>
    requires { AreMarks code.now marks.now }
    ensures { IfOk result (AreStarts code.now marks.now) }
{
    let mut starts = no_starts(alloc, code.len())?;
    for (k, mark) in marks.iter().enumerate() {
        starts.set(mark.start as usize, k as u32);
    }
    Ok(starts)
}

/// So many offsets where no instruction begins.
fn no_starts(alloc: Global, size: usize) -> Result<Numbers, NoMemory>
    ensures { IfOk result (λ starts. starts ≡ replicate size 0xFFFFFFFF) }
{
    let mut starts = Items::with_capacity(alloc, size)?;
    for _ in 0..size {
        starts.push(NO_START)?;
    }
    Ok(starts)
}

impl<'a> Layout<'a> {
    /// The instruction that begins at this offset.
    pub(crate) fn start_at(&self, offset: u64) -> Option<u32>
        requires { IsLayout self.now.code.now self.now.marks.now self.now.starts.now }
        ensures found { IfSome result (BeginsAt (pieces_of self.now.code.now self.now.marks.now) offset) }
        ensures none { IfNone result ((t : ℕ) → BeginsAt (pieces_of self.now.code.now self.now.marks.now) offset t → ⊥) }
    {
        if offset >= self.starts.len() as u64 {
            return None;
        }
        let start = self.starts[offset as usize];
        if start == NO_START {
            return None;
        }
        Some(start)
    }

    /// The instruction that begins at this offset, or how many there are where the code ends there.
    pub(crate) fn edge_at(&self, offset: u64) -> Option<u32>
        requires { IsLayout self.now.code.now self.now.marks.now self.now.starts.now }
        ensures found { IfSome result (λ k. place (pieces_of self.now.code.now self.now.marks.now) k ≡ offset) }
        ensures inside { IfSome result (λ k. k ≤ length self.now.marks.now) }
        ensures none { IfNone result ((k : ℕ) → k ≤ length self.now.marks.now → place (pieces_of self.now.code.now self.now.marks.now) k ≡ offset → ⊥) }
    {
        if offset == self.code.len() as u64 {
            return Some(self.marks.len() as u32);
        }
        if offset > self.code.len() as u64 {
            return None;
        }
        self.start_at(offset)
    }

    /// The bytes of the operand of an instruction.
    pub(crate) fn tail(&self, mark: &Mark) -> &'a [u8]
        requires { IsMark self.now.code.now mark.now }
        ensures { result.now ≡ (piece_of self.now.code.now mark.now).tail }
    {
        &self.code[mark.operand as usize..mark.end as usize]
    }
}
