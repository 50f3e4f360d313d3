//! The symbols that are still to be derived, as the rests of bodies, none of which is copied: the place where the
//! next one begins, and the places of those behind it, that of the last one first.

ghost use Rattle.std.specs.Prelude.{◌≡◌, [], ◌++◌, ◌+◌, ◌*◌, ◌<◌, ◌≤◌, length, slice_index, OnOk};
ghost use Rattle.ilasm_grammar.specs.Stacked.{symbol_of, symbol_in, behind_in, rest_at, symbols_at, IsKnown};

use crate::Symbol;
use crate::cells::PLACE_NUMBERS;
use il_base::{Items, NoMemory};

/// The place of no symbols.
pub(crate) const NOWHERE: usize = 887;

/// The symbol at a place.
#[tactic(auto, using(crate::proofs::PlaceLemmas::symbol_number, crate::proofs::PlaceLemmas::symbol_known))]
pub(crate) fn symbol_at(place: usize) -> Symbol
    requires { place < 887 }
    ensures is { result ≡ symbol_in place }
    ensures known { IsKnown result }
{
    symbol_of(number_in(&PLACE_NUMBERS, place, 0))
}

/// Takes the first symbol off. Where none are left, the next place is that of no symbols, and only there.
pub(crate) fn drop_first(next: &mut usize, behind: &mut Items<u16>)
    requires { next.old < 887 }
    ensures is { symbols_at next.new behind.new ≡ symbols_at (behind_in next.old) behind.old }
    ensures none { 887 ≤ next.new → symbols_at next.new behind.new ≡ [] }
{
    *next = place_behind(*next);
    while *next >= NOWHERE {
        match behind.pop() {
            Some(place) => *next = place as usize,
            None => return,
        }
    }
}

/// Puts the symbols of the body that begins at a place in the place of the first symbol.
pub(crate) fn replace_first(
    next: &mut usize,
    behind: &mut Items<u16>,
    begin: u16,
) -> Result<(), NoMemory>
    requires { next.old < 887 }
    ensures is { OnOk result (symbols_at next.new behind.new ≡ rest_at begin ++ symbols_at (behind_in next.old) behind.old) }
    ensures next { OnOk result (next.new ≡ begin) }
{
    let rest = place_behind(*next);
    if rest < NOWHERE {
        behind.push_long(rest as u16)?;
    }
    *next = begin as usize;
    Ok(())
}

/// The place behind a place, or that of no symbols at the end of a body.
#[tactic(auto, using(crate::proofs::PlaceLemmas::next_number))]
fn place_behind(place: usize) -> usize
    requires { place < 887 }
    ensures { result ≡ behind_in place }
{
    number_in(&PLACE_NUMBERS, place, 1) as usize
}

/// The number in a column of the row of numbers of a place.
fn number_in(numbers: &[u16], place: usize, column: usize) -> u16
    requires { 2 * place + column < length numbers.now }
    ensures { result ≡ slice_index numbers.now (2 * place + column) }
{
    numbers[2 * place + column]
}

/// The symbol with this number.
fn symbol_of(number: u16) -> Symbol
    ensures { result ≡ symbol_of number }
{
    if number < 256 {
        Symbol::Nonterminal(number)
    } else {
        Symbol::Terminal(number - 256)
    }
}
