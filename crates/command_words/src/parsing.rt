//! The whole command line.
ghost use Rattle.std.specs.Prelude.{◌≡◌, ℕ, None, Some, IfOk};
ghost use Rattle.command_words.specs.Words.{usage_fault, command_of};

use crate::asked::command_by;
use crate::command::Command;
use crate::fault::WordFault;
use crate::fitting::misfit;
use crate::shape::shape_of;
use il_base::Words;
use std::alloc::Global;

/// What the words behind the program's name ask for.
///
/// # Errors
///
/// `At`: the number, counted from 1, of the first word that doesn't fit, or of a word that is missing.
/// `NoMemory`: there was no memory for a text.
#[tactic(auto, unfolding(crate::specs::Words::usage_fault))]
pub fn parse_words(alloc: Global, words: &Words) -> Result<Command, WordFault>
    ensures command { IfOk result (λ command. (usage_fault words.now ≡ None) × (command ≡ command_of words.now)) }
    ensures misfit { (word : ℕ) → result ≡ Err (WordFault.At word) → usage_fault words.now ≡ Some word }
    ensures fits { (word : ℕ) → usage_fault words.now ≡ Some word → (result ≡ Err (WordFault.At word)) }
{
    let Some((first, words)) = words.as_slice().split_first() else {
        return Err(WordFault::At { word: 1 });
    };
    let Some(shape) = shape_of(first.as_str()) else {
        return Err(WordFault::At { word: 1 });
    };
    match misfit(shape, words) {
        Some(word) => Err(WordFault::At { word }),
        None => {
            let command = command_by(alloc, shape, words)?;
            Ok(command)
        }
    }
}
