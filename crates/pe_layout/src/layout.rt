ghost use Rattle.std.specs.Prelude.{◌≡◌, ◌+◌, ◌^◌, ◌<◌, ◌≤◌, ℕ, length};
ghost use Rattle.pe_layout.specs.Fields.{round_up};
ghost use Rattle.pe_layout.specs.Numbers.{IsFileAlignment};
ghost use Rattle.pe_layout.specs.Layout.{layout_of, IsBounded};

use crate::Parts;

// The RVA of `.text`, and the unit of sections in memory.
pub(crate) const TEXT_RVA: u32 = 0x2000;

// The RVA at which method bodies begin, behind the address table and the CLI header.
pub(crate) const CODE_RVA: u32 = 0x2050;

// How many bytes imports and stub take, and how many of them the imports.
pub(crate) const BACK_SIZE: u32 = 80;

pub(crate) const STUB_OFFSET: u32 = 74;

// The length of the block of relocations.
pub(crate) const RELOC_SIZE: u32 = 12;

// Where things stand in an image that is written: RVAs, and the sections' lengths.
#[derive(Clone, Copy)]
pub(crate) struct Layout {
    pub(crate) metadata_rva: u32,
    pub(crate) imports_rva: u32,
    pub(crate) text_size: u32,
    pub(crate) text_raw: u32,
    pub(crate) reloc_rva: u32,
    pub(crate) reloc_raw: u32,
}

// The least multiple of `unit` that is at least `n`.
pub(crate) fn round_up(n: u32, unit: u32) -> u32
    requires unit { 0 < unit }
    requires fits { n + unit < 2 ^ 32 }
    ensures value { result ≡ round_up n unit }
    ensures least { n ≤ result }
    ensures below { result < n + unit }
{
    let above = n + (unit - 1);
    above / unit * unit
}

impl Layout {
    pub(crate) fn of(parts: &Parts) -> Layout
        requires alignment { IsFileAlignment parts.now.numbers.file_alignment }
        requires size { length parts.now.code + length parts.now.metadata < 2 ^ 26 }
        ensures value { result ≡ layout_of (length parts.now.code) (length parts.now.metadata) parts.now.numbers.file_alignment }
        ensures bounded { IsBounded result }
    {
        let alignment = parts.numbers.file_alignment;
        let metadata_rva = CODE_RVA + round_up(parts.code.len() as u32, 4);
        let imports_rva = metadata_rva + round_up(parts.metadata.len() as u32, 4);
        let text_size = imports_rva + BACK_SIZE - TEXT_RVA;
        Layout {
            metadata_rva,
            imports_rva,
            text_size,
            text_raw: round_up(text_size, alignment),
            reloc_rva: round_up(TEXT_RVA + text_size, TEXT_RVA),
            reloc_raw: round_up(RELOC_SIZE, alignment),
        }
    }

    // The RVA of the stub.
    pub(crate) fn stub_rva(&self) -> u32
        requires { self.now.imports_rva < 2 ^ 31 }
        ensures { result ≡ self.now.imports_rva + 74 }
    {
        self.imports_rva + STUB_OFFSET
    }
}
