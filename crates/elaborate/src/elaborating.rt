//! The assembly that a source denotes, or the first rule that it breaks (ECMA-335 II.5 to II.19, II.21).

ghost use Rattle.std.specs.Prelude.{◌≡◌, ◌⊎◌, ℕ, List, ◌<◌, ◌≤◌, ◌^◌, Err, IfErr, IfOk, IsTrue, Ok, length, true};
ghost use Rattle.assembly_tree.specs.WellFormed.{is_well_formed};
ghost use Rattle.assembly_tree.specs.declared.assembly.Assembly.{Assembly};
ghost use Rattle.elaborate.specs.Elaborated.{IsCause};
ghost use Rattle.elaborate.specs.SourceMembers.{ReadsSome};
ghost use Rattle.elaborate.specs.Standing.{HaveNeither};
ghost use Rattle.elaborate.specs.declared.name_fault.NameFault.TheVariants.{Bad, NoMemory};
ghost use Rattle.il_base.specs.declared.pos.Pos.{Pos};
ghost use Rattle.il_lexer.specs.Lexing.{Lexes, all_placed};
ghost use Rattle.ilasm_grammar.specs.Parsing.{IsTreeOf};
ghost use Rattle.ilasm_grammar.specs.declared.productions.TheConstants.{DATA, MEMBER_SIZE};
ghost use Rattle.ilasm_grammar.specs.declared.tree.TreeNode.{TreeNode};
ghost use Rattle.check_source.specs.Census.{IsCensus};
ghost use Rattle.source_model.specs.Denotes.{Denotes, HasNameFault};
ghost use Rattle.source_model.specs.declared.fault.NameClass.{NameClass};

use crate::faultless_sources::read_faultless;
use crate::name_fault::NameFault;
use assembly_tree::Assembly;
use check_source::census::{Census, census_of};
use check_source::faults::first_fault_by;
use il_lexer::types::{Spans, Tokens};
use il_lexer::{spans_are_tokens, spans_of};
use ilasm_grammar::productions::{DATA, MEMBER_SIZE};
use ilasm_grammar::{Tree, one_derivation};
use laws_formed_sources::laws::what_is_denoted_is_formed;
use lower_methods::laws::faultless_sources_are_whole;
use source_model::{derivations_are_forests, one_meaning};
use source_nodes::reader::Reader;
use std::alloc::Global;

/// The assembly that a source of at most 2^27 bytes denotes, which is well formed, from its at most 2^24 tokens and their
/// derivation; or exactly the first rule of class D, N or B that it breaks, and where (ECMA-335 II.5 to II.19, II.21).
///
/// # Errors
///
/// `Bad` where the source breaks a rule, with the first one and the place of the token at fault; `NoMemory` where there was no memory.
pub fn elaborate(
    alloc: Global,
    source: &[u8],
    tokens: &Tokens,
    tree: &Tree,
) -> Result<Assembly, NameFault>
    requires short { length source.now ≤ 2 ^ 27 }
    requires few { length tokens.now ≤ 2 ^ 24 }
    requires lexes { Lexes source.now tokens.now }
    requires derives { IsTreeOf tokens.now tree.now }
    ensures assembly { IfOk result (Denotes source.now) }
    ensures formed { IfOk result (λ a. IsTrue (is_well_formed a)) }
    ensures cause { IfErr result (IsCause source.now) }

    // It answers the assembly or the fault wherever there is one, and memory.
    ensures denoted { (a : Assembly) → Denotes source.now a → (result ≡ Ok a) ⊎ (result ≡ Err NoMemory) }
    ensures faulty { (pos : Pos) (class : NameClass) (rule : ℕ) → HasNameFault source.now pos class rule →
        (result ≡ Err (Bad pos class rule)) ⊎ (result ≡ Err NoMemory) }
{
    spans_are_tokens();
    let spans = spans_of(alloc, tokens.as_slice())?;
    elaborate_spans(alloc, source, &spans, tree)
}

/// The same by the spans of the source's tokens.
///
/// # Errors
///
/// Those of `elaborate`.
pub fn elaborate_spans(
    alloc: Global,
    source: &[u8],
    spans: &Spans,
    tree: &Tree,
) -> Result<Assembly, NameFault>
    requires short { length source.now ≤ 2 ^ 27 }
    requires few { length spans.now ≤ 2 ^ 24 }
    requires lexes { Lexes source.now (all_placed source.now spans.now) }
    requires derives { IsTreeOf (all_placed source.now spans.now) tree.now }
    ensures assembly { IfOk result (Denotes source.now) }
    ensures formed { IfOk result (λ a. IsTrue (is_well_formed a)) }
    ensures cause { IfErr result (IsCause source.now) }
    ensures denoted { (a : Assembly) → Denotes source.now a → (result ≡ Ok a) ⊎ (result ≡ Err NoMemory) }
    ensures faulty { (pos : Pos) (class : NameClass) (rule : ℕ) → HasNameFault source.now pos class rule →
        (result ≡ Err (Bad pos class rule)) ⊎ (result ≡ Err NoMemory) }
{
    derivations_are_forests();
    one_derivation();
    one_meaning();
    what_is_denoted_is_formed();
    let reader = Reader {
        source,
        spans: spans.as_slice(),
        nodes: tree.as_slice(),
    };
    read_source(alloc, &reader)
}

// The assembly that a source denotes, or the first rule that it breaks.
fn read_source(alloc: Global, reader: &Reader) -> Result<Assembly, NameFault>
    requires reads { ReadsSome reader.now }
    requires short { length reader.now.source.now ≤ 2 ^ 27 }
    requires few { length reader.now.spans.now ≤ 2 ^ 24 }
    requires few_nodes { length reader.now.nodes.now < 2 ^ 32 }
    ensures assembly { IfOk result (Denotes reader.now.source.now) }
    ensures cause { IfErr result (IsCause reader.now.source.now) }
{
    faultless_sources_are_whole();
    let census = census_of(reader.nodes);
    let plain = is_plain(&census);
    if let Some(fault) = first_fault_by(alloc, reader, census)? {
        return Err(NameFault::Bad {
            pos: fault.pos,
            class: fault.class,
            rule: fault.rule,
        });
    }
    let found = read_faultless(alloc, reader, plain)?;
    Ok(found)
}

// Whether a source has neither data nor sizes of classes.
fn is_plain(census: &Census) -> bool
    ensures { (nodes : List TreeNode) → IsCensus nodes census.now → result ≡ true → HaveNeither DATA MEMBER_SIZE nodes }
{
    census.count(DATA) == 0 && census.count(MEMBER_SIZE) == 0
}
