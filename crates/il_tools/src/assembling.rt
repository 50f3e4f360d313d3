//! From a source to its image.
ghost use Rattle.std.specs.Prelude.{◌≡◌, ℕ, ◌≤◌, ◌^◌, length, IsTrue, IfOk, IfErr};
ghost use Rattle.assembly_tree.specs.WellFormed.{is_well_formed};
ghost use Rattle.source_assembly.specs.Reading.{IsAssemblyOf};
ghost use Rattle.il_tools.specs.Assembled.{identifier_of, IsImageOf, IsRefused, IsWrittenOf};
ghost use Rattle.il_tools.specs.Commands.{GivesImage, MeritsImage};
ghost use Rattle.il_tools.specs.Texts.{content_text};
ghost use Rattle.run_endings.specs.Ends.{says_only};

use crate::fault::{ContentFault, ImageFault};
use crate::kept::KeptTree;
use crate::texts::content_message;
use assembly_tree::Assembly;
use il_base::{Bytes, NoMemory, Text};
use il_shrink::shrink_in_place;
use image_writer::{WriteFault, write};
use pe_layout::Kind;
use run_endings::{Ending, Written, makes, says};
use sha2::{Digest, Sha256};
use source_assembly::{ReadFault, assembly_of, one_reading};
use std::alloc::Global;

/// What `ilasm` makes or says of the source `file`. Its tree goes to `kept`.
pub(crate) fn assembled(
    alloc: Global,
    file: &str,
    kind: Kind,
    optimize: bool,
    output: Text,
    source: &[u8],
    kept: &mut KeptTree,
) -> Result<Ending, NoMemory>
    requires { length source.now ≤ 2 ^ 27 }
    ensures gives { IfOk result (GivesImage file.now kind optimize output source.now) }
    ensures merits { (m : ℕ) → MeritsImage source.now m → IfOk result (λ e. e.number ≡ m) }
{
    one_reading();
    match image_of(alloc, source, kind, optimize, kept) {
        Ok(image) => {
            let ending = makes(alloc, output, Written::from_bytes(image))?;
            Ok(ending)
        }
        Err(ImageFault::Content(fault)) => {
            let ending = fault_said(alloc, file, fault)?;
            Ok(ending)
        }
        Err(ImageFault::NoMemory) => Err(NoMemory),
    }
}

/// The line for a source that gives no image.
fn fault_said(alloc: Global, file: &str, fault: ContentFault) -> Result<Ending, NoMemory>
    ensures { IfOk result (λ e. e ≡ says_only 1 (content_text file.now fault)) }
{
    let text = content_message(alloc, file, fault)?;
    let ending = says(alloc, 1, text)?;
    Ok(ending)
}

/// The image of a source, whose tree goes to `kept`.
fn image_of(
    alloc: Global,
    source: &[u8],
    kind: Kind,
    optimize: bool,
    kept: &mut KeptTree,
) -> Result<Bytes, ImageFault>
    requires { length source.now ≤ 2 ^ 27 }
    ensures image { IfOk result (IsImageOf source.now kind optimize) }
    ensures fault { IfErr result (IsRefused source.now) }
{
    match assembly_of(alloc, source) {
        Ok(assembly) => {
            let mut assembly = assembly;
            let image = image_of_meant(alloc, source, &mut assembly, kind, optimize);
            kept.keep(assembly);
            image
        }
        Err(ReadFault::Faulty(fault)) => Err(ImageFault::Content(ContentFault::Source(fault))),
        Err(ReadFault::NoMemory) => Err(ImageFault::NoMemory),
    }
}

/// The image of the assembly that a source denotes; where short branches are asked for, its bodies are given them first.
#[tactic(auto, using(crate::proofs::WrittenLemmas::as_it_is, crate::proofs::WrittenLemmas::with_short_branches))]
fn image_of_meant(
    alloc: Global,
    source: &[u8],
    meant: &mut Assembly,
    kind: Kind,
    optimize: bool,
) -> Result<Bytes, ImageFault>
    requires denoted { IsAssemblyOf source.now meant.old }
    requires formed { IsTrue (is_well_formed meant.old) }
    ensures image { IfOk result (IsImageOf source.now kind optimize) }
    ensures fault { IfErr result (IsRefused source.now) }
{
    if optimize {
        match shrink_in_place(alloc, meant) {
            Ok(()) => image_of_written(alloc, source, meant, kind, true),
            Err(NoMemory) => Err(ImageFault::NoMemory),
        }
    } else {
        image_of_written(alloc, source, meant, kind, false)
    }
}

/// The image of what is written of the assembly that a source denotes. Its identifier is the front of the source's SHA-256.
fn image_of_written(
    alloc: Global,
    source: &[u8],
    written: &Assembly,
    kind: Kind,
    optimize: bool,
) -> Result<Bytes, ImageFault>
    requires written { IsWrittenOf source.now optimize written.now }
    requires formed { IsTrue (is_well_formed written.now) }
    ensures image { IfOk result (IsImageOf source.now kind optimize) }
    ensures fault { IfErr result (IsRefused source.now) }
{
    match write(alloc, written, identifier_of(source), kind) {
        Ok(image) => Ok(image),
        Err(WriteFault::TooLarge { .. } | WriteFault::StringsFull { .. }) => {
            Err(ImageFault::Content(ContentFault::TooLarge))
        }
        Err(WriteFault::NoMemory) => Err(ImageFault::NoMemory),
    }
}

/// The front of the source's SHA-256.
fn identifier_of(source: &[u8]) -> [u8; 16]
    ensures { result ≡ identifier_of source.now }
{
    let hash = Sha256::digest(source);
    let mut id = [0u8; 16];
    id.copy_from_slice(&hash[..16]);
    id
}
