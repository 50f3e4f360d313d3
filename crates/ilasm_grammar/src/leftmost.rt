ghost use Rattle.std.specs.Prelude.{◌≡◌, ◌<◌, ◌≤◌, ◌^◌, [], ◌∷◌, ◌++◌, length, drop, IfOk, OnOk};
ghost use Rattle.ilasm_grammar.specs.Choice.{next_of};
ghost use Rattle.ilasm_grammar.specs.Parsing.{terminals_of_spans, HasApplied, IsOutcome, IsStep, IsTurn, IsUnderWay};
ghost use Rattle.ilasm_grammar.specs.Stacked.{symbol_in, symbols_at, IsCellOf};
ghost use Rattle.ilasm_grammar.specs.declared.symbol.Symbol.TheVariants.{Nonterminal};
ghost use Rattle.ilasm_grammar.specs.declared.tree.TreeNode.TheVariants.{Branch};

use crate::stack::{NOWHERE, drop_first, replace_first, symbol_at};
use crate::table::{CELLS, choice_in, fallback_choice, inner_of, own_cell};
use crate::terminals::{END, terminal_of};
use crate::{Symbol, Tree, TreeNode};
use il_base::{Items, NoMemory};
use il_lexer::types::Span;
use std::alloc::Global;

/// What the tokens are: the nodes of their derivation, counted by `parsed`, not yet by `derive`, or the token at fault.
#[derive(Drop)]
pub(crate) enum Outcome {
    /// The nodes in preorder.
    Whole(Tree),
    /// The number of the token at fault; behind the last one, the number of tokens.
    Stops(usize),
}

/// What becomes of the first symbol, a nonterminal.
#[derive(Clone, Copy, Drop)]
pub(crate) enum Step {
    /// A production is applied to it, and symbols are left.
    Applies,
    /// A production is applied to it, and none are left.
    Ends,
    /// No source goes on with the token.
    Stops,
}

/// What becomes of a token.
#[derive(Clone, Copy, Drop)]
pub(crate) enum Turn {
    /// It is derived.
    Takes,
    /// No symbols are left.
    Ends,
    /// No source goes on with it.
    Stops,
}

/// The place of the symbol from which a source is derived, alone.
const START: usize = 886;

/// Derives the tokens from the top: the nodes are made in preorder, the next token picking each production.
#[inline(never)]
pub(crate) fn derive(alloc: Global, spans: &[Span]) -> Result<Outcome, NoMemory>
    requires { length spans.now ≤ 2 ^ 24 }
    ensures { IfOk result (IsOutcome (terminals_of_spans spans.now)) }
{
    let mut nodes = Tree::with_capacity(alloc, 7 * spans.len())?;
    let mut next = START;
    let mut behind = Items::new(alloc);
    let mut at = 0;
    loop {
        if next >= NOWHERE {
            return Ok(ended(spans, nodes, at));
        }
        let terminal = terminal_at(spans, at);
        match advance(&mut next, &mut behind, &mut nodes, terminal, at as u32)? {
            Turn::Takes => at += 1,
            Turn::Ends => return Ok(ended(spans, nodes, at)),
            Turn::Stops => return Ok(Outcome::Stops(at)),
        }
    }
}

/// What the tokens are if no symbols are left after the first `at` of them.
fn ended(spans: &[Span], nodes: Tree, at: usize) -> Outcome
    requires within { at ≤ length spans.now }
    requires under { IsUnderWay (terminals_of_spans spans.now) at [] nodes }
    ensures { IsOutcome (terminals_of_spans spans.now) result }
{
    if at == spans.len() {
        Outcome::Whole(nodes)
    } else {
        Outcome::Stops(at)
    }
}

/// The terminal of the token at a place, or the end.
fn terminal_at(spans: &[Span], at: usize) -> u16
    ensures is { result ≡ next_of END (drop at (terminals_of_spans spans.now)) }
    ensures low { at < length spans.now → result < END }
    ensures fits { result ≤ 410 }
{
    match spans.get(at) {
        Some(span) => terminal_of(span.kind),
        None => END,
    }
}

/// Derives the token at place `at`, or the end of the tokens: applies productions to the first symbol until that
/// is a terminal, and takes it if it is the token.
fn advance(
    next: &mut usize,
    behind: &mut Items<u16>,
    nodes: &mut Tree,
    terminal: u16,
    at: u32,
) -> Result<Turn, NoMemory>
    requires terminal { terminal ≤ 410 }
    requires some { next.old < 887 }
    ensures turned { IfOk result (IsTurn terminal at (symbols_at next.old behind.old) nodes.old (symbols_at next.new behind.new) nodes.new) }
    ensures none { IfOk result (λ _. 887 ≤ next.new → symbols_at next.new behind.new ≡ []) }
{
    loop {
        match symbol_at(*next) {
            Symbol::Terminal(symbol) => {
                if symbol != terminal {
                    return Ok(Turn::Stops);
                }
                nodes.push_long(TreeNode::Leaf { token: at })?;
                drop_first(next, behind);
                return Ok(Turn::Takes);
            }
            Symbol::Nonterminal(nonterminal) => {
                match expand(next, behind, nodes, nonterminal, terminal)? {
                    Step::Applies => {}
                    Step::Ends => return Ok(Turn::Ends),
                    Step::Stops => return Ok(Turn::Stops),
                }
            }
        }
    }
}

/// Applies the production that the terminal picks to the first symbol, a nonterminal.
fn expand(
    next: &mut usize,
    behind: &mut Items<u16>,
    nodes: &mut Tree,
    nonterminal: u16,
    terminal: u16,
) -> Result<Step, NoMemory>
    requires terminal { terminal ≤ 410 }
    requires some { next.old < 887 }
    requires first { symbol_in next.old ≡ Nonterminal nonterminal }
    requires known { nonterminal < 165 }
    ensures { IfOk result (IsStep terminal next.new (symbols_at next.old behind.old) nodes.old (symbols_at next.new behind.new) nodes.new) }
{
    if let Some(cell) = own_cell(nonterminal, terminal) {
        descend(next, behind, nodes, terminal, cell)?;
        return Ok(Step::Applies);
    }
    let Some(choice) = fallback_choice(nonterminal) else {
        return Ok(Step::Stops);
    };
    push_branch(nodes, choice.production)?;
    if (choice.begin as usize) < NOWHERE {
        replace_first(next, behind, choice.begin)?;
        return Ok(Step::Applies);
    }
    drop_first(next, behind);
    if *next < NOWHERE {
        Ok(Step::Applies)
    } else {
        Ok(Step::Ends)
    }
}

/// Applies the production of a cell to the first symbol, and then those of the cells of what the bodies begin with.
fn descend(
    next: &mut usize,
    behind: &mut Items<u16>,
    nodes: &mut Tree,
    terminal: u16,
    first: usize,
) -> Result<(), NoMemory>
    requires terminal { terminal ≤ 410 }
    requires some { next.old < 887 }
    requires cell { IsCellOf terminal (symbol_in next.old) first }
    ensures { OnOk result (HasApplied terminal next.new (symbols_at next.old behind.old) nodes.old (symbols_at next.new behind.new) nodes.new) }
{
    let mut cell = first;
    loop {
        let choice = choice_in(cell);
        push_branch(nodes, choice.production)?;
        replace_first(next, behind, choice.begin)?;
        let inner = inner_of(cell);
        if inner >= CELLS {
            return Ok(());
        }
        cell = inner;
    }
}

/// Adds a branch, whose nodes aren't counted yet.
fn push_branch(nodes: &mut Tree, production: u16) -> Result<(), NoMemory>
    ensures { OnOk result (nodes.new ≡ nodes.old ++ Branch production 0 ∷ []) }
{
    nodes.push_long(TreeNode::Branch {
        production,
        nodes: 0,
    })
}
