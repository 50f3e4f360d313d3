//! The first fault of a source that has a derivation: the rules of each class in turn, all over the source (ECMA-335 II.5 to
//! II.19, II.21).

ghost use Rattle.std.specs.Prelude.{◌≡◌, ◌<◌, ◌≤◌, ◌^◌, IfOk, length, option_map};
ghost use Rattle.source_model.specs.Source.{Source, place_at};
ghost use Rattle.source_nodes.specs.Readers.{Reads};
ghost use Rattle.source_nodes.specs.Walk.{IsForest};
ghost use Rattle.check_source.specs.AllDeclared.{AreDeclarations};
ghost use Rattle.check_source.specs.Census.{IsCensusOf};
ghost use Rattle.check_source.specs.SourceFaults.{IsFault, IsFirst, classed};

use crate::all_declared::{Declarations, collect_declarations};
use crate::census::{Census, census_of};
use crate::declared_twice::declared_twice;
use crate::not_declared::not_declared;
use crate::out_of_bounds::out_of_bounds;
use crate::passes::pass_fault;
use check_names::merging::Breach;
use il_base::{NoMemory, Pos};
use il_lexer::{end_place, place_of};
use source_model::{NameClass, the_first_is_least};
use source_nodes::reader::Reader;
use std::alloc::Global;

/// The first rule that a source breaks: its class, its number in that class, and where.
#[derive(Debug, Clone, Copy, PartialEq, Eq, Drop)]
pub struct Fault {
    /// The place of the token at fault, or the end of the source.
    pub pos: Pos,
    /// Whether something is declared twice, isn't declared, or is out of its bounds.
    pub class: NameClass,
    /// The rule, from 1.
    pub rule: u8,
}

// The class of a rule that is broken.
#[derive(Clone, Copy, Drop)]
struct Classed {
    class: NameClass,
    breach: Breach,
}

/// The first fault of a source that has tokens and a derivation, or None where it breaks no rule, so that it denotes an
/// assembly. Class D is asked before N and N before B; in a class the least token counts, and of several rules there the
/// first.
pub fn first_fault(alloc: Global, reader: &Reader) -> Result<Option<Fault>, NoMemory>
    requires forest { IsForest reader.now.nodes.now }
    requires short { length reader.now.source.now ≤ 2 ^ 27 }
    requires few { length reader.now.spans.now ≤ 2 ^ 24 }
    requires few_nodes { length reader.now.nodes.now < 2 ^ 32 }
    ensures { (s : Source) → Reads reader.now s → IfOk result (λ f. IsFault s f) }
{
    let census = census_of(reader.nodes);
    first_fault_by(alloc, reader, census)
}

/// The same of a source whose nodes have this census.
pub fn first_fault_by(
    alloc: Global,
    reader: &Reader,
    census: Census,
) -> Result<Option<Fault>, NoMemory>
    requires forest { IsForest reader.now.nodes.now }
    requires short { length reader.now.source.now ≤ 2 ^ 27 }
    requires few { length reader.now.spans.now ≤ 2 ^ 24 }
    requires few_nodes { length reader.now.nodes.now < 2 ^ 32 }
    requires counted { IsCensusOf reader.now.nodes.now census }
    ensures { (s : Source) → Reads reader.now s → IfOk result (λ f. IsFault s f) }
{
    match first_broken(alloc, reader, census)? {
        Some(first) => Ok(Some(Fault {
            pos: token_place(reader, first.breach.token),
            class: first.class,
            rule: first.breach.rule,
        })),
        None => Ok(None),
    }
}

// Where a token stands; with the number of tokens, the end of the source.
fn token_place(reader: &Reader, token: u32) -> Pos
    requires { length reader.now.source.now ≤ 2 ^ 27 }
    ensures { (s : Source) → Reads reader.now s → result ≡ place_at s token }
{
    match reader.spans.get(token as usize) {
        Some(span) => place_of(reader.source, span.start as usize),
        None => end_place(reader.source),
    }
}

// The first rule that is broken, with its class.
fn first_broken(alloc: Global, reader: &Reader, census: Census) -> Result<Option<Classed>, NoMemory>
    requires forest { IsForest reader.now.nodes.now }
    requires few { length reader.now.spans.now < 2 ^ 32 }
    requires few_nodes { length reader.now.nodes.now < 2 ^ 32 }
    requires counted { IsCensusOf reader.now.nodes.now census }
    ensures { (s : Source) → Reads reader.now s → IfOk result (λ f. IsFirst s f) }
{
    let declared = collect_declarations(alloc, reader, census)?;
    let first = first_of_all(alloc, reader, &declared)?;
    Ok(first)
}

// The same, from what the source declares.
fn first_of_all(
    alloc: Global,
    reader: &Reader,
    declared: &Declarations,
) -> Result<Option<Classed>, NoMemory>
    requires forest { IsForest reader.now.nodes.now }
    requires few { length reader.now.spans.now < 2 ^ 32 }
    requires few_nodes { length reader.now.nodes.now < 2 ^ 32 }
    ensures { (s : Source) → Reads reader.now s → AreDeclarations s declared.now → IfOk result (λ f. IsFirst s f) }
{
    the_first_is_least();
    let found = pass_fault(alloc, reader, declared)?;
    if let Some(breach) = declared_twice(alloc, reader, declared, found)? {
        return Ok(Some(Classed {
            class: NameClass::D,
            breach,
        }));
    }
    if let Some(breach) = not_declared(alloc, reader, declared, found)? {
        return Ok(Some(Classed {
            class: NameClass::N,
            breach,
        }));
    }
    let breach = out_of_bounds(alloc, reader, declared, found)?;
    Ok(in_class(NameClass::B, breach))
}

fn in_class(class: NameClass, breach: Option<Breach>) -> Option<Classed>
    ensures { result ≡ option_map (classed class) breach }
{
    match breach {
        Some(breach) => Some(Classed { class, breach }),
        None => None,
    }
}
