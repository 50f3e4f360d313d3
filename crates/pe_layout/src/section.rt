ghost use Rattle.std.specs.Prelude.{◌≡◌, ◌+◌, ◌*◌, ◌≤◌, ◌<◌, ◌↔◌, ℕ, [], length, IsTrue, IsNone, IsSome, IfSome};
ghost use Rattle.std.specs.List.{find};
ghost use Rattle.pe_layout.specs.Headers.{section_table_of, section_count_of, directory_rva_of};
ghost use Rattle.pe_layout.specs.FileMap.{section_at, sections_from, extent_of, holds, readable};
ghost use Rattle.pe_layout.specs.View.{readable_in};
ghost use Rattle.pe_layout.specs.CliHeader.{cli_header_of};
ghost use Rattle.pe_layout.specs.Faults.{has_cli_header};

use crate::field::u32_at;

// What a section's header says of memory and file (II.25.3): how many bytes it takes in memory, where
// this is 0 as many as in the file; the RVA at which it begins; how many bytes of the file belong to it,
// and the place of the first of them.
#[derive(Clone, Copy)]
pub(crate) struct Section {
    virtual_size: u32,
    virtual_address: u32,
    raw_size: u32,
    raw_place: u32,
}

impl Section {
    // The section whose header stands at a place of the file.
    pub(crate) fn at(file: &[u8], place: usize) -> Section
        requires { place + 40 ≤ length file.now }
        ensures { result ≡ section_at file.now place }
    {
        Section {
            virtual_size: u32_at(file, place + 8),
            virtual_address: u32_at(file, place + 12),
            raw_size: u32_at(file, place + 16),
            raw_place: u32_at(file, place + 20),
        }
    }

    // How many bytes of memory it takes.
    fn extent(&self) -> u32
        ensures { result ≡ extent_of self.now }
    {
        if self.virtual_size == 0 {
            self.raw_size
        } else {
            self.virtual_size
        }
    }

    // Whether an RVA lies in it.
    fn holds(&self, rva: u32) -> bool
        ensures { result ≡ holds rva self.now }
    {
        self.virtual_address <= rva && rva - self.virtual_address < self.extent()
    }

    // What can be read of the file from an RVA on that lies in it.
    fn readable<'a>(&self, file: &'a [u8], rva: u32) -> Option<&'a [u8]>
        requires { IsTrue (holds rva self.now) }
        ensures none { IsNone result ↔ (readable_in file.now rva self.now ≡ []) }
        ensures bytes { IfSome result (λ bytes. bytes.now ≡ readable_in file.now rva self.now) }
    {
        let start = (rva - self.virtual_address) as usize + self.raw_place as usize;
        let end = (self.raw_place as usize + self.raw_size as usize).min(file.len());
        if start < end {
            Some(&file[start..end])
        } else {
            None
        }
    }
}

// The first of `count` sections that holds an RVA; their headers begin at the place `sections`.
fn section_of(file: &[u8], sections: usize, count: usize, rva: u32) -> Option<Section>
    requires { sections + 40 * count ≤ length file.now }
    ensures first { result ≡ find (holds rva) (sections_from file.now sections count) }
    ensures held { IfSome result (λ section. IsTrue (holds rva section)) }
{
    for k in 0..count {
        let section = Section::at(file, sections + 40 * k);
        if section.holds(rva) {
            return Some(section);
        }
    }
    None
}

// What can be read of the file from an RVA on; `count` section headers begin at the place `sections`.
pub(crate) fn readable_at(file: &[u8], sections: usize, count: usize, rva: u32) -> Option<&[u8]>
    requires sections { sections ≡ section_table_of file.now }
    requires count { count ≡ section_count_of file.now }
    requires within { sections + 40 * count ≤ length file.now }
    ensures none { IsNone result ↔ (readable file.now rva ≡ []) }
    ensures bytes { IfSome result (λ bytes. bytes.now ≡ readable file.now rva) }
{
    match section_of(file, sections, count, rva) {
        Some(section) => section.readable(file, rva),
        None => None,
    }
}

// The CLI header, of which directory 14 gives the RVA.
pub(crate) fn cli_header_at(file: &[u8], sections: usize, count: usize, rva: u32) -> Option<&[u8]>
    requires sections { sections ≡ section_table_of file.now }
    requires count { count ≡ section_count_of file.now }
    requires within { sections + 40 * count ≤ length file.now }
    requires rva { rva ≡ directory_rva_of file.now 14 }
    ensures found { IsSome result ↔ IsTrue (has_cli_header file.now) }
    ensures bytes { IfSome result (λ bytes. bytes.now ≡ cli_header_of file.now) }
    ensures len { IfSome result (λ bytes. length bytes.now ≡ 72) }
{
    let bytes = readable_at(file, sections, count, rva)?;
    if bytes.len() < 72 {
        return None;
    }
    Some(&bytes[..72])
}
