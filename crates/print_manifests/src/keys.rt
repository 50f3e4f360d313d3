//! Lines that assemblies of both kinds have.
ghost use Rattle.std.specs.Prelude.{◌≡◌, OnOk};
ghost use Rattle.listing_model.specs.Manifests.{version, key, culture, assembly_flags};
ghost use Rattle.listing_model.specs.Shown.{none};
ghost use Rattle.print_leaves.specs.Page.{drawn};
ghost use Rattle.print_terms.specs.Rows.{under, in_row};

use il_lexer::word;
use il_lists::NoMemory;
use print_leaves::Paper;
use print_members::write_assembly_flags;

/// The flags of an assembly. Bit 1 isn't among them, since the word of the key gives it.
pub(crate) fn write_flags(paper: &mut Paper, flags: u32) -> Result<(), NoMemory>
    ensures { OnOk result (paper.new ≡ drawn paper.old (assembly_flags flags none)) }
{
    write_assembly_flags(paper, flags ^ (flags & 1))?;
    Ok(())
}

/// `.publickey` where flag 1 is set, `.publickeytoken` where it isn't and there are bytes.
pub(crate) fn write_key(paper: &mut Paper, flags: u32, bytes: &[u8]) -> Result<(), NoMemory>
    ensures { OnOk result (paper.new ≡ in_row paper.old (key flags bytes.now)) }
{
    if flags & 1 == 1 {
        paper.line(word::DOT_PUBLICKEY)?;
        paper.equals_bytes(bytes)?;
    } else if !bytes.is_empty() {
        paper.line(word::DOT_PUBLICKEYTOKEN)?;
        paper.equals_bytes(bytes)?;
    }
    Ok(())
}

/// `.culture`, where it isn't empty.
pub(crate) fn write_culture(paper: &mut Paper, text: &str) -> Result<(), NoMemory>
    ensures { OnOk result (paper.new ≡ in_row paper.old (culture text.now)) }
{
    if !text.is_empty() {
        paper.line(word::DOT_CULTURE)?;
        paper.string(text)?;
    }
    Ok(())
}

/// `.ver a:b:c:d`.
pub(crate) fn write_version(paper: &mut Paper, parts: &[u16; 4]) -> Result<(), NoMemory>
    ensures { OnOk result (paper.new ≡ under paper.old (version parts.now)) }
{
    paper.line(word::DOT_VER)?;
    paper.natural(u64::from(parts[0]))?;
    paper.word(word::COLON)?;
    paper.natural(u64::from(parts[1]))?;
    paper.word(word::COLON)?;
    paper.natural(u64::from(parts[2]))?;
    paper.word(word::COLON)?;
    paper.natural(u64::from(parts[3]))?;
    Ok(())
}
