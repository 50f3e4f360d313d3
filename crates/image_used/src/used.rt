ghost use Rattle.std.specs.Prelude.{◌≡◌, ◌↔◌, IsTrue, IfOk, OnOk, [], ℕ};
ghost use Rattle.image_model.specs.Used.{IsUsed};
ghost use Rattle.method_states.specs.Marks.{IsKept, IsMarked};
ghost use Rattle.method_states.specs.States.{AreNamedByBodies};
ghost use Rattle.image_used.specs.Spreading.{IsReady};
ghost use Rattle.image_used.specs.Going.{AreUsed};

use crate::spread::Spread;
use il_base::NoMemory;
use image_streams::Image;
use method_states::RowMarks;
use std::alloc::Global;
use std::marker::Model;

/// The rows of MemberRef, StandAloneSig, TypeSpec and MethodSpec of an image that are used. Contracts see the image's bytes.
#[derive(Drop)]
pub struct Used<'i, 'a> {
    image: &'i Image<'a>,
    marks: RowMarks,
}

impl<'i, 'a> Model for Used<'i, 'a> {
    ghost use Rattle.std.specs.Prelude.{ℕ, List};
    ghost use Rattle.image_used.specs.Going.{AreUsed};

    ghost Value = { List ℕ };

    ghost view = { λ it. it.image.now };

    ghost invariant = { λ it. AreUsed it.image.now it.marks };
}

/// The rows of an image that are used, where `named` are those that its good bodies name.
///
/// # Errors
///
/// There was no memory for them.
pub fn used_rows<'i, 'a>(
    alloc: Global,
    image: &'i Image<'a>,
    named: &RowMarks,
) -> Result<Used<'i, 'a>, NoMemory>
    requires { AreNamedByBodies image.now named.now }
    ensures { IfOk result (λ it. it ≡ image.now) }
{
    let marks = used_marks(alloc, image, named)?;
    Ok(Used { image, marks })
}

impl<'i, 'a> Used<'i, 'a> {
    /// Whether a row is of one of these tables and used.
    pub fn is_used(&self, table: u8, row: u32) -> bool
        ensures { IsTrue result ↔ (IsKept table × IsUsed self.now table row) }
    {
        self.marks.is_marked(table, row)
    }
}

/// Marks on the rows that are used.
fn used_marks(alloc: Global, image: &Image<'_>, named: &RowMarks) -> Result<RowMarks, NoMemory>
    requires { AreNamedByBodies image.now named.now }
    ensures { IfOk result (AreUsed image.now) }
{
    let mut spread = Spread::new(alloc, image)?;
    spread.mark_all(alloc, image, named)?;
    Ok(spread.marks)
}

impl Spread {
    /// Marks the rows that are used.
    fn mark_all(
        &mut self,
        alloc: Global,
        image: &Image<'_>,
        named: &RowMarks,
    ) -> Result<(), NoMemory>
        requires named { AreNamedByBodies image.now named.now }
        requires ready { IsReady image.now self.old.marks self.old.seen }
        requires none { (table row : ℕ) → IsMarked self.old.marks table row → ⊥ }
        requires waits { self.old.todo ≡ [] }
        ensures { OnOk result (AreUsed image.now self.new.marks) }
    {
        let _tables = image.tables();
        self.mark_by_bodies(image, named)?;
        self.mark_declared(alloc, image)?;
        self.mark_waiting(alloc, image)
    }
}
