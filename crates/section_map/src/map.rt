ghost use Rattle.std.specs.Prelude.{◌≡◌, ◌↔◌, [], IsNone, IfSome, IfOk, None};
ghost use Rattle.pe_layout.specs.Faults.{pe_fault};
ghost use Rattle.pe_layout.specs.FileMap.{readable};

use crate::number::{u16_at, u32_at};
use crate::sections::{readable_in, steps_of};
use crate::step::{NONE, Step, first_at};
use il_lists::{Items, NoMemory};
use std::alloc::Global;
use std::marker::Model;

/// The sections of an image, that contracts see as the bytes of its file.
#[derive(Drop)]
pub struct SectionMap<'a> {
    file: &'a [u8],
    // Where the section headers begin.
    table: usize,
    // Which section is the first that holds an address.
    steps: Items<Step>,
}

impl<'a> Model for SectionMap<'a> {
    ghost use Rattle.std.specs.Prelude.{ℕ, List};
    ghost use Rattle.section_map.specs.Maps.{IsMap};

    ghost Value = { List ℕ };

    ghost view = { λ it. it.file.now };

    ghost invariant = { λ it. IsMap it.file.now it.table it.steps };
}

impl<'a> SectionMap<'a> {
    /// The map of a file's sections, which `pe_layout::open` opens. Takes time that grows with their number and its logarithm.
    ///
    /// # Errors
    ///
    /// There was no memory for it.
    pub fn new(alloc: Global, file: &'a [u8]) -> Result<SectionMap<'a>, NoMemory>
        requires { pe_fault file.now ≡ None }
        ensures { IfOk result (λ it. it ≡ file.now) }
    {
        let signature = u32_at(file, 0x3C) as usize;
        let table = signature + 24 + u16_at(file, signature + 20) as usize;
        let count = u32::from(u16_at(file, signature + 6));
        let steps = steps_of(alloc, file, table, 0, count)?;
        Ok(SectionMap { file, table, steps })
    }

    /// What can be read from an RVA on (II.25): it lies in the first section whose range holds it, and the bytes run to the end of
    /// that section's raw bytes or of the file.
    ///
    /// None exactly where not one byte can be read.
    pub fn readable(&self, rva: u32) -> Option<&'a [u8]>
        ensures none { IsNone result ↔ (readable self.now rva ≡ []) }
        ensures bytes { IfSome result (λ bytes. bytes.now ≡ readable self.now rva) }
    {
        let first = first_at(self.steps.as_slice(), rva);
        if first == NONE {
            return None;
        }
        readable_in(self.file, self.table + 40 * first as usize, rva)
    }
}
