//! The grammar: a row without a blank before it is a nonterminal, its name in code and its spelling; a row behind one blank is a
//! production of it, its name in code and its body, `nothing` where that is empty.

use crate::fault::Fault;
use crate::rows::{differs, is_row, told};
use crate::symbols::{Nonterminals, spelling_length, symbol_of};
use ilasm_grammar::rules::{BODIES, HEADS, STARTS};
use std::collections::BTreeMap;

/// Compares the rows of a text with the table of productions.
///
/// # Errors
///
/// A row doesn't fit, an answer can't be written, or there was no memory.
pub fn compare(rt: &HostRuntime, name: &str, text: &str) -> Result<(), Fault> {
    let nonterminals = nonterminals_of(rt, text)?;
    let mut heads: usize = 0;
    let mut productions: usize = 0;
    for line in text.lines() {
        if is_row(line) {
            match line.strip_prefix(" ") {
                Some(production) => {
                    let Some((_, body)) = production.split_once(' ') else {
                        return Err(Fault::Line);
                    };
                    if !is_production(&nonterminals, productions, heads, body) {
                        differs(rt, name, productions.saturating_add(1), production)?;
                    }
                    productions = productions.saturating_add(1);
                }
                None => heads = heads.saturating_add(1),
            }
        }
    }
    told(rt, name, productions, HEADS.len())
}

/// The nonterminals, by their spellings, in the order of their rows.
fn nonterminals_of<'a>(rt: &HostRuntime, text: &'a str) -> Result<Nonterminals<'a>, Fault> {
    let mut found = BTreeMap::new(rt.alloc());
    let mut count: u16 = 0;
    for line in text.lines() {
        if is_row(line) && !line.starts_with(" ") {
            let Some((_, spelling)) = line.split_once(' ') else {
                return Err(Fault::Line);
            };
            if found.insert(spelling, count).is_err() {
                return Err(Fault::NoMemory);
            }
            count = count.saturating_add(1);
        }
    }
    Ok(found)
}

/// Whether the production with this number has the body, under the nonterminal with a number one less than `heads`.
fn is_production(nonterminals: &Nonterminals<'_>, number: usize, heads: usize, body: &str) -> bool {
    let (Some(head), Some(start)) = (HEADS.get(number), STARTS.get(number)) else {
        return false;
    };
    let Some(end) = STARTS.get(number.saturating_add(1)) else {
        return false;
    };
    let is_under = usize::from(*head).saturating_add(1) == heads;
    let is_spelled = spelled(nonterminals, usize::from(*start), usize::from(*end), body);
    is_under && is_spelled
}

/// Whether a body spells the symbols from `start` to `end`.
fn spelled(nonterminals: &Nonterminals<'_>, start: usize, end: usize, body: &str) -> bool {
    let mut rest = if body == "nothing" { "" } else { body };
    let Some(symbols) = BODIES.get(start..end) else {
        return false;
    };
    for symbol in symbols {
        let length = spelling_length(rest);
        let (Some(spelling), Some(after)) = (rest.get(..length), rest.get(length..)) else {
            return false;
        };
        if symbol_of(nonterminals, spelling) != Some(*symbol) {
            return false;
        }
        rest = after.strip_prefix(" ").unwrap_or(after);
    }
    rest.is_empty()
}
