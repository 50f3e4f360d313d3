//! From the bytes of a source to what it says.
ghost use Rattle.std.specs.Prelude.{◌≡◌, ◌≤◌, ◌^◌, length, IfErr, IfOk, IsTrue};
ghost use Rattle.assembly_tree.specs.WellFormed.{is_well_formed};
ghost use Rattle.il_lexer.specs.Lexing.{IsAccepted, all_placed};
ghost use Rattle.ilasm_grammar.specs.Parsing.{IsTreeOf};
ghost use Rattle.source_assembly.specs.Reading.{IsAssemblyOf, IsCause};

use crate::fault::{ReadFault, SourceFault};
use assembly_tree::Assembly;
use elaborate::{NameFault, elaborate_spans};
use il_lexer::types::Spans;
use il_lexer::{LexFault, lexes_in_one_way, spans};
use ilasm_grammar::{SyntaxFault, Tree, parse_spans};
use std::alloc::Global;

/// The assembly that a source of at most 2^27 bytes denotes, which is well formed. Takes time and memory in proportion to the
/// source.
///
/// # Errors
///
/// `Faulty`: the first fault of the source, of its tokens (L), else of its derivation (S), else of declarations (D), else of
/// names (N), else of bounds (B). `NoMemory`: there was no memory.
pub fn assembly_of(alloc: Global, source: &[u8]) -> Result<Assembly, ReadFault>
    requires { length source.now ≤ 2 ^ 27 }
    ensures assembly { IfOk result (IsAssemblyOf source.now) }
    ensures formed { IfOk result (λ a. IsTrue (is_well_formed a)) }
    ensures cause { IfErr result (IsCause source.now) }
{
    match spans(alloc, source) {
        Ok(spans) => of_spans(alloc, source, &spans),
        Err(LexFault::Bad { pos, rule }) => Err(ReadFault::Faulty(SourceFault::Lexical {
            line: pos.line,
            rule,
        })),
        Err(LexFault::NoMemory) => Err(ReadFault::NoMemory),
    }
}

/// The same from the spans of the source's tokens.
fn of_spans(alloc: Global, source: &[u8], spans: &Spans) -> Result<Assembly, ReadFault>
    requires short { length source.now ≤ 2 ^ 27 }
    requires accepted { IsAccepted source.now (all_placed source.now spans.now) }
    ensures assembly { IfOk result (IsAssemblyOf source.now) }
    ensures formed { IfOk result (λ a. IsTrue (is_well_formed a)) }
    ensures cause { IfErr result (IsCause source.now) }
{
    match parse_spans(alloc, source, spans) {
        Ok(tree) => of_tree(alloc, source, spans, &tree),
        Err(SyntaxFault::Bad { pos, rule }) => Err(ReadFault::Faulty(SourceFault::Syntax {
            line: pos.line,
            rule,
        })),
        Err(SyntaxFault::NoMemory) => Err(ReadFault::NoMemory),
    }
}

/// The same from the spans of the source's tokens and their derivation.
fn of_tree(alloc: Global, source: &[u8], spans: &Spans, tree: &Tree) -> Result<Assembly, ReadFault>
    requires short { length source.now ≤ 2 ^ 27 }
    requires accepted { IsAccepted source.now (all_placed source.now spans.now) }
    requires derived { IsTreeOf (all_placed source.now spans.now) tree.now }
    ensures assembly { IfOk result (IsAssemblyOf source.now) }
    ensures formed { IfOk result (λ a. IsTrue (is_well_formed a)) }
    ensures cause { IfErr result (IsCause source.now) }
{
    lexes_in_one_way();
    match elaborate_spans(alloc, source, spans, tree) {
        Ok(assembly) => Ok(assembly),
        Err(NameFault::Bad { pos, class, rule }) => Err(ReadFault::Faulty(SourceFault::Named {
            line: pos.line,
            class,
            rule,
        })),
        Err(NameFault::NoMemory) => Err(ReadFault::NoMemory),
    }
}
