//! A source, read as far as a stage.

ghost use Rattle.std.specs.Prelude.{◌≤◌, ◌^◌, length, IfOk};
ghost use Rattle.il_lexer.specs.Lexing.{IsAccepted, all_placed};
ghost use Rattle.ilasm_grammar.specs.Parsing.{IsTreeOf};

use crate::fault::StageFault;
use check_source::faults::first_fault;
use elaborate::elaborate_spans;
use il_base::{Bytes, DiskShelf, Shelf};
use il_lexer::spans;
use il_lexer::types::Spans;
use ilasm_grammar::{Tree, one_derivation, parse_spans};
use source_model::derivations_are_forests;
use source_nodes::reader::Reader;
use std::alloc::Global;

/// How far a source is read.
#[derive(Debug, Clone, Copy, PartialEq, Eq, Drop)]
pub enum Stage {
    /// To its tokens.
    Tokens,
    /// To their derivation.
    Derivation,
    /// To the first rule that it breaks.
    Rules,
    /// To the assembly that it denotes.
    Assembly,
}

impl Stage {
    /// The stage with this number, from 1 to 4.
    pub fn numbered(word: &str) -> Option<Stage> {
        match word {
            "1" => Some(Stage::Tokens),
            "2" => Some(Stage::Derivation),
            "3" => Some(Stage::Rules),
            "4" => Some(Stage::Assembly),
            _ => None,
        }
    }
}

// How many bytes a source may have.
const LIMIT: usize = 0x800_0000;

// How many bytes are asked for at a time.
const PIECE: usize = 0x1_0000;

/// The bytes of a file of at most 2^27 bytes.
///
/// # Errors
///
/// The file couldn't be read, is longer, or there was no memory for it.
pub fn read_file(rt: &HostRuntime, name: &str) -> Result<Bytes, StageFault>
    ensures { IfOk result (λ file. length file ≤ 2 ^ 27) }
{
    let mut shelf = DiskShelf::new(rt, rt.alloc());
    let mut file = Bytes::new(rt.alloc());
    let mut piece = [0u8; PIECE];
    while file.len() <= LIMIT {
        let room = (LIMIT + 1 - file.len()).min(PIECE);
        let Ok(count) = shelf.read(name, file.len() as u64, &mut piece[..room]) else {
            return Err(StageFault::Unread);
        };
        if count == 0 {
            return Ok(file);
        }
        file.extend(&piece[..count])?;
    }
    Err(StageFault::Unread)
}

/// Reads a source of at most 2^27 bytes as far as a stage.
///
/// # Errors
///
/// The source has a fault that shows up to that stage, or there was no memory.
pub fn read_source(alloc: Global, source: &[u8], stage: Stage) -> Result<(), StageFault>
    requires { length source.now ≤ 2 ^ 27 }
{
    let spans = spans(alloc, source)?;
    if stage == Stage::Tokens {
        return Ok(());
    }
    let tree = parse_spans(alloc, source, &spans)?;
    match stage {
        Stage::Tokens | Stage::Derivation => Ok(()),
        Stage::Rules => ask_rules(alloc, source, &spans, &tree),
        Stage::Assembly => {
            let _ = elaborate_spans(alloc, source, &spans, &tree)?;
            Ok(())
        }
    }
}

// Whether the source keeps all rules on declarations, names and bounds.
fn ask_rules(alloc: Global, source: &[u8], spans: &Spans, tree: &Tree) -> Result<(), StageFault>
    requires short { length source.now ≤ 2 ^ 27 }
    requires accepted { IsAccepted source.now (all_placed source.now spans.now) }
    requires derived { IsTreeOf (all_placed source.now spans.now) tree.now }
{
    derivations_are_forests();
    one_derivation();
    let reader = Reader {
        source,
        spans: spans.as_slice(),
        nodes: tree.as_slice(),
    };
    match first_fault(alloc, &reader)? {
        Some(_) => Err(StageFault::Faulty),
        None => Ok(()),
    }
}
