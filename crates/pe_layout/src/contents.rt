// What stands in the sections of an image that is written, piece by piece.
ghost use Rattle.std.specs.Prelude.{◌≡◌, ◌++◌, ◌+◌, ◌-◌, ◌^◌, ◌<◌, ◌≤◌, ℕ, [], ◌∷◌, length, codes, OnOk};
ghost use Rattle.pe_layout.specs.Kinds.{function_for};
ghost use Rattle.pe_layout.specs.Layout.{text_front, text_back, padded, relocations};

use crate::field::{Field, push_fields, push_zeros};
use crate::layout::{Layout, RELOC_SIZE, TEXT_RVA, round_up};
use crate::{Kind, ManifestNumbers};
use il_lists::{Bytes, NoMemory};

// II.25.3.1 and II.25.3.3: the address table and the CLI header.
pub(crate) fn push_text_front(
    out: &mut Bytes,
    layout: &Layout,
    metadata: u32,
    flags: u32,
    entry: u32,
) -> Result<(), NoMemory>
    requires { layout.now.imports_rva < 2 ^ 31 }
    ensures value { OnOk result (out.new ≡ out.old ++ text_front layout.now metadata flags entry) }
    ensures flags_fit { flags < 2 ^ 32 }
    ensures entry_fits { entry < 2 ^ 32 }
{
    push_fields(
        out,
        &[
            Field::Word(layout.imports_rva + 48),
            Field::Word(0),
            Field::Word(72),
            Field::Half(2),
            Field::Half(0),
            Field::Word(layout.metadata_rva),
            Field::Word(metadata),
            Field::Word(flags),
            Field::Word(entry),
            Field::Zeros(48),
        ],
    )
}

// Code or metadata, filled up to a multiple of 4.
pub(crate) fn push_padded(out: &mut Bytes, bytes: &[u8]) -> Result<(), NoMemory>
    requires { length bytes.now < 2 ^ 31 }
    ensures { OnOk result (out.new ≡ out.old ++ padded bytes.now) }
{
    let count = bytes.len() as u32;
    out.extend(bytes)?;
    push_zeros(out, round_up(count, 4) - count)
}

// The function by which the loader enters the runtime.
fn function_for(kind: Kind) -> [u8; 12]
    ensures { result ≡ function_for kind ++ 0 ∷ [] }
{
    match kind {
        Kind::Exe => *b"_CorExeMain\0",
        Kind::Dll => *b"_CorDllMain\0",
    }
}

// II.25.3.1: the imports, and the stub.
pub(crate) fn push_text_back(
    out: &mut Bytes,
    layout: &Layout,
    numbers: &ManifestNumbers,
    kind: Kind,
) -> Result<(), NoMemory>
    requires imports { layout.now.imports_rva < 2 ^ 31 }
    requires base { numbers.now.image_base + 0x2000 < 2 ^ 32 }
    ensures { OnOk result (out.new ≡ out.old ++ text_back layout.now numbers.now kind) }
{
    push_fields(
        out,
        &[
            Field::Word(layout.imports_rva + 40),
            Field::Zeros(8),
            Field::Word(layout.imports_rva + 62),
            Field::Word(TEXT_RVA),
            Field::Zeros(20),
            Field::Word(layout.imports_rva + 48),
            Field::Word(0),
            Field::Half(0),
            Field::Text(function_for(kind)),
            Field::Text(*b"mscoree.dll\0"),
            Field::Byte(0xFF),
            Field::Byte(0x25),
            Field::Word(numbers.image_base + TEXT_RVA),
        ],
    )
}

// II.25.3.2: the block of relocations.
pub(crate) fn push_relocations(out: &mut Bytes, layout: &Layout) -> Result<(), NoMemory>
    requires { layout.now.imports_rva < 2 ^ 31 }
    ensures { OnOk result (out.new ≡ out.old ++ relocations layout.now) }
{
    let place = layout.stub_rva() + 2;
    push_fields(
        out,
        &[
            Field::Word(place / 0x1000 * 0x1000),
            Field::Word(RELOC_SIZE),
            Field::Half(0x3000 + (place % 0x1000) as u16),
            Field::Half(0),
        ],
    )
}
