ghost use Rattle.std.specs.Prelude.{◌≡◌, ◌↔◌, ◌≤◌, IsTrue, length};
ghost use Rattle.pe_layout.specs.CliHeader.{cli_header_of, metadata_of, metadata_size_of, entry_token_of};
ghost use Rattle.image_model.specs.Streams.{HasCliHeader};

use crate::number::u32_at;
use pe_layout::PeView;

/// Whether the CLI header is one of the profile (II.25.3.3): code of the intermediate language alone, no native entry
/// point, no vtable fixups and no managed native header, and an entry point that is none or a method.
pub(crate) fn has_cli_header(pe: &PeView<'_>) -> bool
    ensures { IsTrue result ↔ HasCliHeader pe.now }
{
    let cli = pe.cli_header();
    let flags = u32_at(cli, 16);
    let entry = u32_at(cli, 20);
    72 <= u32_at(cli, 0)
        && flags % 2 == 1
        && flags / 16 % 2 == 0
        && u32_at(cli, 52) == 0
        && u32_at(cli, 68) == 0
        && (entry == 0 || entry / 0x100_0000 == 0x06)
}

#[tactic(auto, unfolding(pe_layout::specs::CliHeader::metadata_of))]
/// The metadata, as far as it can be read.
pub(crate) fn metadata<'a>(pe: &PeView<'a>) -> &'a [u8]
    ensures { result.now ≡ metadata_of pe.now }
{
    let cli = pe.cli_header();
    let size = u32_at(cli, 12) as usize;
    match pe.at_rva(u32_at(cli, 8)) {
        Some(bytes) => &bytes[..size.min(bytes.len())],
        None => &[],
    }
}

/// How many bytes of metadata the CLI header states.
pub(crate) fn metadata_size(pe: &PeView<'_>) -> u32
    ensures { result ≡ metadata_size_of pe.now }
{
    u32_at(pe.cli_header(), 12)
}

/// The token of the entry point.
pub(crate) fn entry_token(pe: &PeView<'_>) -> u32
    ensures { result ≡ entry_token_of pe.now }
{
    u32_at(pe.cli_header(), 20)
}
