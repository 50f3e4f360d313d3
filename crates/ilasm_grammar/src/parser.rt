ghost use Rattle.std.specs.Prelude.{◌≡◌, ◌⊎◌, ℕ, ◌≤◌, ◌^◌, Err, IfErr, IfOk, List, Ok, length, slice_get};
ghost use Rattle.il_lexer.specs.Lexing.{all_placed, place_of};
ghost use Rattle.ilasm_grammar.specs.Parsing.{IsCause, IsSyntaxFaultAt, IsTreeOf, position_of, rule_at};
ghost use Rattle.ilasm_grammar.specs.declared.fault.SyntaxFault.TheVariants.{Bad, NoMemory};
ghost use Rattle.ilasm_grammar.specs.declared.tree.TreeNode.{TreeNode};

use crate::fault::{fault_at, fault_in};
use crate::leftmost::Outcome;
use crate::outcome::parsed;
use crate::{SyntaxFault, Tree};
use il_base::Pos;
use il_lexer::spans_of;
use il_lexer::types::{Spans, Tokens};
use std::alloc::Global;

/// The derivation of the tokens of a source (II.5), or the first token with which no source goes on:
/// the tokens before it are the beginning of some source, and with it of none. Where they all are the
/// beginning of a source and none themselves, the fault stands at `end`, the place of the source's end.
/// Takes time and memory in proportion to the tokens: a tree has at most seven nodes for each.
pub fn parse(alloc: Global, tokens: &Tokens, end: Pos) -> Result<Tree, SyntaxFault>
    requires { length tokens.now ≤ 2 ^ 24 }
    ensures tree { IfOk result (IsTreeOf tokens.now) }
    ensures cause { IfErr result (IsCause tokens.now end) }

    // It answers the tree or the fault wherever there is one, and memory.
    ensures derived { (tree : List TreeNode) → IsTreeOf tokens.now tree →
        (result ≡ Ok tree) ⊎ (result ≡ Err NoMemory) }
    ensures faulty { (at : ℕ) → IsSyntaxFaultAt tokens.now at →
        (result ≡ Err (Bad (position_of (slice_get tokens.now at) end) (rule_at (slice_get tokens.now at)))) ⊎ (result ≡ Err NoMemory) }
{
    let spans = spans_of(alloc, tokens.as_slice())?;
    match parsed(alloc, spans.as_slice())? {
        Outcome::Whole(tree) => Ok(tree),
        Outcome::Stops(at) => Err(fault_at(tokens.as_slice(), end, at)),
    }
}

/// The derivation of the tokens of a source by their spans, or the first token with which no source goes on, as `parse` answers
/// it; a fault behind the last token stands at the source's end. Takes time and memory in proportion to the tokens and, for
/// the place of a fault, to the source.
pub fn parse_spans(alloc: Global, source: &[u8], spans: &Spans) -> Result<Tree, SyntaxFault>
    requires short { length source.now ≤ 2 ^ 27 }
    requires few { length spans.now ≤ 2 ^ 24 }
    ensures tree { IfOk result (IsTreeOf (all_placed source.now spans.now)) }
    ensures cause { IfErr result (IsCause (all_placed source.now spans.now) (place_of source.now (length source.now))) }
    ensures derived { (tree : List TreeNode) → IsTreeOf (all_placed source.now spans.now) tree →
        (result ≡ Ok tree) ⊎ (result ≡ Err NoMemory) }
    ensures faulty { (at : ℕ) → IsSyntaxFaultAt (all_placed source.now spans.now) at →
        (result ≡ Err (Bad (position_of (slice_get (all_placed source.now spans.now) at) (place_of source.now (length source.now)))
        (rule_at (slice_get (all_placed source.now spans.now) at)))) ⊎ (result ≡ Err NoMemory) }
{
    match parsed(alloc, spans.as_slice())? {
        Outcome::Whole(tree) => Ok(tree),
        Outcome::Stops(at) => Err(fault_in(source, spans.as_slice(), at)),
    }
}
