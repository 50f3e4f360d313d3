ghost use Rattle.std.specs.Prelude.{◌≡◌, ◌+◌, ◌*◌, ◌<◌, ◌≤◌, None, MatchOption, length, slice_index};
ghost use Rattle.ilasm_grammar.specs.Counts.{arity_of};
ghost use Rattle.ilasm_grammar.specs.Ilasm.{ilasm, picked};
ghost use Rattle.ilasm_grammar.specs.Stacked.{begin_in, fallback_of, inner_in, owner_in, pick_in, row_in, IsCellOf, IsChoice};
ghost use Rattle.ilasm_grammar.specs.declared.symbol.Symbol.TheVariants.{Nonterminal};

use crate::cells::CELL_NUMBERS;
use crate::choices::{FALLBACKS, ROWS};
use crate::places::{ARITIES, BEGINS};

/// The number of cells.
pub(crate) const CELLS: usize = 2856;

/// The number of productions.
const PRODUCTIONS: u16 = 641;

/// A production, and the place where its body begins.
#[derive(Clone, Copy, Drop)]
pub(crate) struct Choice {
    /// The production's place in the table.
    pub production: u16,
    /// The place of the first symbol of its body.
    pub begin: u16,
}

/// The cell of `nonterminal` before `terminal`, if it has one.
#[tactic(auto, using(crate::proofs::PlaceLemmas::own_cell, crate::proofs::PlaceLemmas::no_cell, crate::proofs::PlaceLemmas::row_low))]
pub(crate) fn own_cell(nonterminal: u16, terminal: u16) -> Option<usize>
    requires nonterminal { nonterminal < 165 }
    requires terminal { terminal ≤ 410 }
    ensures { MatchOption result (picked nonterminal terminal ≡ fallback_of nonterminal) (IsCellOf terminal (Nonterminal nonterminal)) }
{
    let cell = row_of(nonterminal) as usize + terminal as usize;
    if owner_of(cell) == nonterminal {
        Some(cell)
    } else {
        None
    }
}

/// The production in a cell of a nonterminal. Its body has symbols.
#[tactic(auto, using(crate::proofs::PlaceLemmas::pick_number, crate::proofs::PlaceLemmas::begin_number))]
pub(crate) fn choice_in(cell: usize) -> Choice
    requires { cell < 2856 }
    ensures production { result.production ≡ pick_in cell }
    ensures begin { result.begin ≡ begin_in (pick_in cell) }
{
    Choice {
        production: number_in(&CELL_NUMBERS, cell, 1),
        begin: number_in(&CELL_NUMBERS, cell, 2),
    }
}

/// The cell of what the body of a cell's production begins with, before the same terminal, or the number of cells
/// where it has none.
#[tactic(auto, using(crate::proofs::PlaceLemmas::inner_number))]
pub(crate) fn inner_of(cell: usize) -> usize
    requires { cell < 2856 }
    ensures { result ≡ inner_in cell }
{
    number_in(&CELL_NUMBERS, cell, 3) as usize
}

/// The production that `nonterminal` goes on with before the terminals for which it has no cell, if there is one.
#[tactic(auto, using(crate::proofs::PlaceLemmas::fallback_rule, crate::proofs::PlaceLemmas::has_no_rule))]
pub(crate) fn fallback_choice(nonterminal: u16) -> Option<Choice>
    requires { nonterminal < 165 }
    ensures { MatchOption result (ilasm (fallback_of nonterminal) ≡ None) (λ c. (c.production ≡ fallback_of nonterminal) × IsChoice nonterminal c.production c.begin) }
{
    let production = fallback_pick(nonterminal);
    if production >= PRODUCTIONS {
        return None;
    }
    Some(Choice {
        production,
        begin: begin_of(production),
    })
}

/// The number of symbols in the body of a production.
#[tactic(auto, using(crate::proofs::PlaceLemmas::has_arity))]
pub(crate) fn arity_of(production: u16) -> usize
    requires { production < 641 }
    ensures { result ≡ arity_of (ilasm production) }
{
    ARITIES[production as usize] as usize
}

/// The place where the body of a production begins.
#[tactic(auto, unfolding(crate::specs::Stacked::begin_in))]
fn begin_of(production: u16) -> u16
    requires { production < 641 }
    ensures { result ≡ begin_in production }
{
    BEGINS[production as usize]
}

/// The production of a nonterminal where it has no cell, or a number that none has.
#[tactic(auto, unfolding(crate::specs::Stacked::fallback_of))]
fn fallback_pick(nonterminal: u16) -> u16
    requires { nonterminal < 165 }
    ensures { result ≡ fallback_of nonterminal }
{
    FALLBACKS[nonterminal as usize]
}

/// The place of a nonterminal's first cell.
#[tactic(auto, unfolding(crate::specs::Stacked::row_in))]
fn row_of(nonterminal: u16) -> u16
    requires { nonterminal < 165 }
    ensures { result ≡ row_in nonterminal }
{
    ROWS[nonterminal as usize]
}

/// The nonterminal whose row has a cell, or none.
#[tactic(auto, using(crate::proofs::PlaceLemmas::owner_number))]
fn owner_of(cell: usize) -> u16
    requires { cell < 2856 }
    ensures { result ≡ owner_in cell }
{
    number_in(&CELL_NUMBERS, cell, 0)
}

/// The number in a column of the row of numbers of a cell.
fn number_in(numbers: &[u16], cell: usize, column: usize) -> u16
    requires { 4 * cell + column < length numbers.now }
    ensures { result ≡ slice_index numbers.now (4 * cell + column) }
{
    numbers[4 * cell + column]
}
