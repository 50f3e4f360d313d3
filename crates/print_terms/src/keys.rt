//! By which text another assembly is named (ECMA-335 II.6.3).
ghost use Rattle.std.specs.Prelude.{◌≡◌, ◌<◌, length, IfOk, OnOk, map, slice_get, option_map, Some, string_bytes};
ghost use Rattle.il_lexer.specs.Classes.{first_is};
ghost use Rattle.listing_model.specs.Shown.{none};
ghost use Rattle.listing_model.specs.Types.{has_alias, alias, extern_scope};
ghost use Rattle.hash_places.specs.Slots.{place_of};
ghost use Rattle.print_leaves.specs.Page.{drawn};
ghost use Rattle.print_terms.specs.Chains.{IsChained};
ghost use Rattle.print_terms.specs.Names.{name_hash};

use crate::repeats::{Chains, chains_of, is_repeated};
use assembly_tree::ExternAssembly;
use il_lists::{Items, NoMemory};
use print_leaves::Paper;
use std::alloc::Global;
use std::marker::Model;

/// The assemblies that an assembly names, with which of them have a key of their own: those with the name of another one, and those
/// whose name begins with `#`. Contracts see the list of them.
#[derive(Drop)]
pub struct ExternKeys<'a> {
    alloc: Global,
    externs: &'a [ExternAssembly],
    aliased: Items<bool>,
}

impl<'a> Model for ExternKeys<'a> {
    ghost use Rattle.std.specs.Prelude.{List, ◌≡◌, map};
    ghost use Rattle.assembly_tree.specs.declared.assembly.ExternAssembly.{ExternAssembly};
    ghost use Rattle.listing_model.specs.Types.{has_alias};

    ghost Value = { List ExternAssembly };

    ghost view = { λ k. k.externs.now };

    ghost invariant = { λ k. k.aliased ≡ map (has_alias k.externs.now) k.externs.now };
}

impl<'a> ExternKeys<'a> {
    /// The assemblies of this list with their keys.
    pub fn new(alloc: Global, externs: &'a [ExternAssembly]) -> Result<ExternKeys<'a>, NoMemory>
        ensures { IfOk result (λ keys. keys ≡ externs.now) }
    {
        let aliased = aliased_of(alloc, externs)?;
        Ok(ExternKeys {
            alloc,
            externs,
            aliased,
        })
    }

    /// Whether the assembly with this number has a key of its own.
    pub fn is_aliased(&self, number: usize) -> bool
        requires { number < length self.now }
        ensures { Some result ≡ option_map (has_alias self.now) (slice_get self.now number) }
    {
        *self.aliased.at(number)
    }

    /// Writes the assembly with this number in brackets, by its key.
    pub fn write_scope(&self, paper: &mut Paper, number: u32) -> Result<(), NoMemory>
        ensures { OnOk result (paper.new ≡ drawn paper.old (extern_scope self.now number none)) }
    {
        let place = number as usize;
        if place < self.externs.len() && !self.is_aliased(place) {
            paper.scope(self.externs[place].name.as_str())?;
            return Ok(());
        }
        let alias = alias_of(self.alloc, number)?;
        paper.scope(alias.as_str())?;
        Ok(())
    }
}

// For each assembly whether it has a key of its own.
fn aliased_of(alloc: Global, externs: &[ExternAssembly]) -> Result<Items<bool>, NoMemory>
    ensures { IfOk result (λ aliased. aliased ≡ map (has_alias externs.now) externs.now) }
{
    let chains = chains_of(alloc, externs)?;
    let mut aliased = Items::with_capacity(alloc, externs.len())?;
    for k in 0..externs.len() {
        let own = has_alias(externs, &chains, k);
        aliased.push(own)?;
    }
    Ok(aliased)
}

// Whether the assembly with this number has a key of its own.
fn has_alias(externs: &[ExternAssembly], chains: &Chains, number: usize) -> bool
    requires within { number < length externs.now }
    requires chained { IsChained name_hash (place_of chains.now.newest) externs.now chains.now.nexts }
    ensures { Some result ≡ option_map (has_alias externs.now) (slice_get externs.now number) }
{
    if is_marked(&externs[number]) {
        return true;
    }
    let twice = is_repeated(externs, chains, number);
    twice
}

// Whether the name begins with `#`.
fn is_marked(e: &ExternAssembly) -> bool
    ensures { result ≡ first_is 35 e.now.name }
{
    match e.name.as_bytes() {
        [first, ..] => *first == b'#',
        [] => false,
    }
}

/// The key of an assembly by its number.
#[tactic(auto, unfolding(listing_leaves::specs::Numbers::natural))]
pub fn alias_of(alloc: Global, number: u32) -> Result<String, NoMemory>
    ensures { IfOk result (λ text. string_bytes text ≡ alias number) }
{
    let text = format!(in alloc; "#{number}")?;
    Ok(text)
}
