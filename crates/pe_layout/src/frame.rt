// The headers of an image that is written, piece by piece.
ghost use Rattle.std.specs.Prelude.{◌≡◌, ◌++◌, ◌+◌, ◌^◌, ◌<◌, ◌≤◌, ℕ, length, OnOk};
ghost use Rattle.pe_layout.specs.Kinds.{characteristics_for};
ghost use Rattle.pe_layout.specs.Layout.{dos_header, file_header, standard_fields, nt_fields, directories, section_headers, headers};

use crate::field::{Field, push_fields};
use crate::layout::{Layout, RELOC_SIZE, TEXT_RVA};
use crate::{Kind, ManifestNumbers};
use il_lists::{Bytes, NoMemory};

// II.25.2.1
fn push_dos_header(out: &mut Bytes) -> Result<(), NoMemory>
    ensures { OnOk result (out.new ≡ out.old ++ dos_header) }
{
    push_fields(
        out,
        &[
            Field::Half(0x5A4D),
            Field::Zeros(58),
            Field::Word(0x80),
            Field::Zeros(64),
        ],
    )
}

// II.25.2.2.1: an executable of 32 bits, and a library too.
fn characteristics_for(kind: Kind) -> u16
    ensures { result ≡ characteristics_for kind }
{
    match kind {
        Kind::Exe => 0x0102,
        Kind::Dll => 0x2102,
    }
}

// II.25.2.2, behind the signature
fn push_file_header(out: &mut Bytes, kind: Kind) -> Result<(), NoMemory>
    ensures { OnOk result (out.new ≡ out.old ++ file_header kind) }
{
    push_fields(
        out,
        &[
            Field::Word(0x4550),
            Field::Half(0x14C),
            Field::Half(2),
            Field::Zeros(12),
            Field::Half(0xE0),
            Field::Half(characteristics_for(kind)),
        ],
    )
}

// II.25.2.3.1
fn push_standard_fields(out: &mut Bytes, layout: &Layout) -> Result<(), NoMemory>
    requires { layout.now.imports_rva < 2 ^ 31 }
    ensures { OnOk result (out.new ≡ out.old ++ standard_fields layout.now) }
{
    push_fields(
        out,
        &[
            Field::Half(0x10B),
            Field::Byte(6),
            Field::Byte(0),
            Field::Word(layout.text_raw),
            Field::Word(layout.reloc_raw),
            Field::Word(0),
            Field::Word(layout.stub_rva()),
            Field::Word(TEXT_RVA),
            Field::Word(layout.reloc_rva),
        ],
    )
}

// II.25.2.3.2
fn push_nt_fields(
    out: &mut Bytes,
    layout: &Layout,
    numbers: &ManifestNumbers,
) -> Result<(), NoMemory>
    requires { layout.now.reloc_rva < 2 ^ 31 }
    ensures value { OnOk result (out.new ≡ out.old ++ nt_fields layout.now numbers.now) }
    ensures stack_fits { numbers.now.stack_reserve < 2 ^ 32 }
    ensures subsystem_fits { numbers.now.subsystem < 2 ^ 16 }
{
    push_fields(
        out,
        &[
            Field::Word(numbers.image_base),
            Field::Word(TEXT_RVA),
            Field::Word(numbers.file_alignment),
            Field::Half(5),
            Field::Zeros(6),
            Field::Half(5),
            Field::Zeros(6),
            Field::Word(layout.reloc_rva + TEXT_RVA),
            Field::Word(numbers.file_alignment),
            Field::Word(0),
            Field::Half(numbers.subsystem),
            Field::Half(0),
            Field::Word(numbers.stack_reserve),
            Field::Word(0x1000),
            Field::Word(0x0010_0000),
            Field::Word(0x1000),
            Field::Word(0),
            Field::Word(16),
        ],
    )
}

// II.25.2.3.3
fn push_directories(out: &mut Bytes, layout: &Layout) -> Result<(), NoMemory>
    ensures { OnOk result (out.new ≡ out.old ++ directories layout.now) }
{
    push_fields(
        out,
        &[
            Field::Zeros(8),
            Field::Word(layout.imports_rva),
            Field::Word(40),
            Field::Zeros(24),
            Field::Word(layout.reloc_rva),
            Field::Word(RELOC_SIZE),
            Field::Zeros(48),
            Field::Word(TEXT_RVA),
            Field::Word(8),
            Field::Zeros(8),
            Field::Word(TEXT_RVA + 8),
            Field::Word(72),
            Field::Zeros(8),
        ],
    )
}

// II.25.3
fn push_section_headers(out: &mut Bytes, layout: &Layout, alignment: u32) -> Result<(), NoMemory>
    requires text { layout.now.text_raw < 2 ^ 31 }
    requires alignment { alignment < 2 ^ 31 }
    ensures { OnOk result (out.new ≡ out.old ++ section_headers layout.now alignment) }
{
    push_fields(
        out,
        &[
            Field::Name(*b".text\0\0\0"),
            Field::Word(layout.text_size),
            Field::Word(TEXT_RVA),
            Field::Word(layout.text_raw),
            Field::Word(alignment),
            Field::Zeros(12),
            Field::Word(0x6000_0020),
            Field::Name(*b".reloc\0\0"),
            Field::Word(RELOC_SIZE),
            Field::Word(layout.reloc_rva),
            Field::Word(layout.reloc_raw),
            Field::Word(alignment + layout.text_raw),
            Field::Zeros(12),
            Field::Word(0x4200_0040),
        ],
    )
}

// All headers, 456 bytes.
pub(crate) fn push_headers(
    out: &mut Bytes,
    layout: &Layout,
    numbers: &ManifestNumbers,
    kind: Kind,
) -> Result<(), NoMemory>
    requires imports { layout.now.imports_rva < 2 ^ 31 }
    requires reloc { layout.now.reloc_rva < 2 ^ 31 }
    requires text { layout.now.text_raw < 2 ^ 31 }
    requires alignment { numbers.now.file_alignment < 2 ^ 31 }
    ensures value { OnOk result (out.new ≡ out.old ++ headers layout.now numbers.now kind) }
    ensures stack_fits { OnOk result (numbers.now.stack_reserve < 2 ^ 32) }
    ensures subsystem_fits { OnOk result (numbers.now.subsystem < 2 ^ 16) }
{
    push_dos_header(out)?;
    push_file_header(out, kind)?;
    push_standard_fields(out, layout)?;
    push_nt_fields(out, layout, numbers)?;
    push_directories(out, layout)?;
    push_section_headers(out, layout, numbers.file_alignment)
}
