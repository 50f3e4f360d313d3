//! The labels of a method by the tokens of their names (ECMA-335 II.5.4). Few of them lie in the value itself.

ghost use Rattle.std.specs.Prelude.{◌≡◌, ◌++◌, ◌∷◌, [], IfOk, OnOk};

use il_base::{Items, NoMemory};
use std::alloc::Global;
use std::marker::Model;

// How many lie in the value itself. Most methods have no more.
const FEW: usize = 8;

/// The tokens of the names of labels, in order. Contracts see the list of them.
#[derive(Drop)]
pub struct Labels {
    // How many lie here.
    count: usize,
    few: [u32; FEW],
    // All of them, where they are more.
    many: Items<u32>,
}

impl Model for Labels {
    ghost use Rattle.std.specs.Prelude.{ℕ, List, ◌≤◌};
    ghost use Rattle.lower_bodies.specs.LabelLists.{listed};

    ghost Value = { List ℕ };

    ghost view = { λ x. listed x.count x.few x.many };

    ghost invariant = { λ x. x.count ≤ 8 };
}

impl Labels {
    /// No labels. Takes no memory.
    pub fn new(alloc: Global) -> Labels
        ensures { result ≡ [] }
    {
        Labels {
            count: 0,
            few: [0; FEW],
            many: Items::new(alloc),
        }
    }

    /// Lends the tokens.
    pub fn as_slice(&self) -> &[u32]
        ensures { result.now ≡ self.now }
    {
        if self.many.is_empty() {
            &self.few[..self.count]
        } else {
            self.many.as_slice()
        }
    }

    /// Adds one at the end.
    pub fn push(&mut self, alloc: Global, token: u32) -> Result<(), NoMemory>
        ensures { OnOk result (self.new ≡ self.old ++ token ∷ []) }
    {
        if !self.many.is_empty() {
            self.many.push(token)
        } else if self.count < FEW {
            self.few[self.count] = token;
            self.count += 1;
            Ok(())
        } else {
            self.many = with_one_more(alloc, &self.few, token)?;
            Ok(())
        }
    }
}

// These tokens and one more.
#[cold]
#[inline(never)]
fn with_one_more(alloc: Global, tokens: &[u32], token: u32) -> Result<Items<u32>, NoMemory>
    ensures { IfOk result (λ all. all ≡ tokens.now ++ token ∷ []) }
{
    let mut all = Items::with_capacity(alloc, 4 * FEW)?;
    all.extend(tokens)?;
    all.push(token)?;
    Ok(all)
}
