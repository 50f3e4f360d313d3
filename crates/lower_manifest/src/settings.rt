//! The numbers that a source sets for its assembly and its image (ECMA-335 II.6.2, II.25.2.3, II.25.3.3).

ghost use Rattle.std.specs.Prelude.{◌≡◌, IfOk, true};
ghost use Rattle.source_flags.specs.InRange.{AllInRange};
ghost use Rattle.lower_manifest.specs.Settings.{default_of, is_declared, place_of, production_of, setting_said};
ghost use Rattle.source_model.specs.Forest.{Forest, preorder};
ghost use Rattle.source_model.specs.Items.{declarations};
ghost use Rattle.source_model.specs.Source.{Source};
ghost use Rattle.source_nodes.specs.Pieces.{ArePieces, AreParts};
ghost use Rattle.source_nodes.specs.Readers.{Reads};
ghost use Rattle.source_nodes.specs.Walk.{IsForest};

use crate::chosen::pieces_among;
use il_base::NoMemory;
use ilasm_grammar::{TreeNode, productions};
use source_flags::gathering::Kind;
use source_flags::lines::last_of;
use source_flags::outside::{Shut, last_outside};
use source_nodes::pieces::Piece;
use source_nodes::reader::Reader;
use source_nodes::walk::leaf_at;
use std::alloc::Global;

/// What a line with a number sets.
#[derive(Debug, Clone, Copy, PartialEq, Eq, Drop)]
pub enum Setting {
    HashAlgorithm,
    ImageBase,
    FileAlignment,
    StackReserve,
    Subsystem,
    CorFlags,
}

impl Setting {
    /// The production of its line.
    fn production(self) -> u16
        ensures { result ≡ production_of self }
    {
        match self {
            Setting::HashAlgorithm => productions::ASSEMBLY_ITEM_HASH,
            Setting::ImageBase => productions::DECL_IMAGEBASE,
            Setting::FileAlignment => productions::DECL_FILE,
            Setting::StackReserve => productions::DECL_STACKRESERVE,
            Setting::Subsystem => productions::DECL_SUBSYSTEM,
            Setting::CorFlags => productions::DECL_CORFLAGS,
        }
    }

    /// Where its number stands among the tokens of its line.
    fn place(self) -> usize
        ensures { result ≡ place_of self }
    {
        match self {
            Setting::HashAlgorithm | Setting::FileAlignment => 2,
            Setting::ImageBase | Setting::StackReserve | Setting::Subsystem | Setting::CorFlags =>
                1,
        }
    }

    /// What it is where no line sets it.
    fn default(self) -> u32
        ensures { result ≡ default_of self }
    {
        match self {
            Setting::HashAlgorithm => 0x8004,
            Setting::ImageBase => 0x400000,
            Setting::FileAlignment => 0x200,
            Setting::StackReserve => 0x100000,
            Setting::Subsystem => 3,
            Setting::CorFlags => 1,
        }
    }
}

/// What the last line of a setting says.
pub fn setting_said(
    alloc: Global,
    reader: &Reader,
    nodes: &[TreeNode],
    setting: Setting,
) -> Result<u32, NoMemory>
    requires { IsForest nodes.now }
    ensures { (s : Source) (f : Forest) → Reads reader.now s → preorder f ≡ nodes.now → AllInRange s f → IfOk result (λ said. said ≡ setting_said s setting f) }
{
    let said = last_outside(alloc, nodes, Shut::Types, Kind::One(setting.production()))?;
    match said {
        Some(line) => Ok(reader.natural(leaf_at(line.below, setting.place()))),
        None => Ok(setting.default()),
    }
}

/// What the last line of a setting says that is a declaration, from all declarations.
pub fn setting_declared(
    alloc: Global,
    reader: &Reader,
    nodes: &[TreeNode],
    declared: &[Piece],
    setting: Setting,
) -> Result<u32, NoMemory>
    requires { AreParts nodes.now declared.now }
    ensures { (s : Source) (f : Forest) → Reads reader.now s → is_declared setting ≡ true → ArePieces nodes.now declared.now (declarations f) → AllInRange s f →
        IfOk result (λ said. said ≡ setting_said s setting f) }
{
    let lines = pieces_among(alloc, declared, Kind::One(setting.production()))?;
    match last_of(nodes, lines.as_slice()) {
        Some(line) => Ok(reader.natural(leaf_at(line.below, setting.place()))),
        None => Ok(setting.default()),
    }
}
