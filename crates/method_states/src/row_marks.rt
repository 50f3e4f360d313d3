ghost use Rattle.std.specs.Prelude.{◌≡◌, ◌+◌, ◌<◌, ◌↔◌, ◌⊎◌, ℕ, IsTrue, IfOk, false, if◌then◌else◌, length, slice_index_or};
ghost use Rattle.method_states.specs.Marks.{marks_in, IsMarked, HasPlace, HaveRoom, IsSet, IsUnset, unset, left_in};

use il_base::NoMemory;
use image_streams::Image;
use std::alloc::Global;

/// Marks on the rows of the reference tables whose rows are asked of only where they are used: MemberRef, StandAloneSig,
/// TypeSpec and MethodSpec (ECMA-335 II.22.25, II.22.36, II.22.39, II.22.29). A byte for each row.
#[derive(Drop)]
pub struct RowMarks {
    members: Vec<bool>,
    locals: Vec<bool>,
    types: Vec<bool>,
    instances: Vec<bool>,
}

impl RowMarks {
    /// No marks, with a place for each row of an image.
    pub fn new(alloc: Global, image: &Image<'_>) -> Result<RowMarks, NoMemory>
        ensures room { IfOk result (HaveRoom image.now) }
        ensures none { IfOk result (λ marks. (table row : ℕ) → IsMarked marks table row → ⊥) }
    {
        let tables = image.tables();
        let members = no_marks(alloc, tables.rows(0x0A))?;
        let locals = no_marks(alloc, tables.rows(0x11))?;
        let types = no_marks(alloc, tables.rows(0x1B))?;
        let instances = no_marks(alloc, tables.rows(0x2B))?;
        Ok(RowMarks {
            members,
            locals,
            types,
            instances,
        })
    }

    /// Whether a row is marked.
    pub fn is_marked(&self, table: u8, row: u32) -> bool
        ensures { IsTrue result ↔ IsMarked self.now table row }
    {
        match table {
            0x0A => is_set(self.members.as_slice(), row),
            0x11 => is_set(self.locals.as_slice(), row),
            0x1B => is_set(self.types.as_slice(), row),
            0x2B => is_set(self.instances.as_slice(), row),
            _ => false,
        }
    }

    /// Marks a row, where it has a place, and answers whether it was without a mark before.
    pub fn mark(&mut self, table: u8, row: u32) -> bool
        ensures marked { (t r : ℕ) → IsMarked self.new t r ↔ (IsMarked self.old t r ⊎ ((t ≡ table) × (r ≡ row) × HasPlace self.old table row)) }
        ensures room { (t : ℕ) → length (marks_in self.new t) ≡ length (marks_in self.old t) }
        ensures fresh { IsTrue result ↔ (HasPlace self.old table row × (IsMarked self.old table row → ⊥)) }
        ensures left { left_in self.new + (if result then 1 else 0) ≡ left_in self.old }
    {
        match table {
            0x0A => set(&mut self.members, row),
            0x11 => set(&mut self.locals, row),
            0x1B => set(&mut self.types, row),
            0x2B => set(&mut self.instances, row),
            _ => false,
        }
    }
}

/// No marks for so many rows, which are counted from 1.
fn no_marks(alloc: Global, rows: u32) -> Result<Vec<bool>, NoMemory>
    ensures { IfOk result (λ marks. IsUnset rows marks.items) }
{
    let marks = Vec::from_elem(alloc, false, rows as usize + 1)?;
    Ok(marks)
}

/// Whether the mark of a row is set.
fn is_set(marks: &[bool], row: u32) -> bool
    ensures { IsTrue result ↔ IsTrue (slice_index_or marks.now row false) }
{
    match marks.get(row as usize) {
        Some(mark) => *mark,
        None => false,
    }
}

/// Sets the mark of a row, where it has a place, and answers whether it wasn't set before.
#[tactic(auto, using(crate::proofs::Setting::set_steps))]
fn set(marks: &mut Vec<bool>, row: u32) -> bool
    ensures set { IsSet marks.old.items row marks.new.items }
    ensures fresh { IsTrue result ↔ ((0 < row) × (row < length marks.old.items) × (IsTrue (slice_index_or marks.old.items row false) → ⊥)) }
    ensures left { unset marks.new.items + (if result then 1 else 0) ≡ unset marks.old.items }
{
    if row == 0 {
        return false;
    }
    let place = row as usize;
    if place >= marks.len() {
        return false;
    }
    if marks[place] {
        return false;
    }
    marks[place] = true;
    true
}
