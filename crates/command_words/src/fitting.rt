//! Whether words fit behind a command.
ghost use Rattle.std.specs.Prelude.{◌≡◌, []};
ghost use Rattle.command_words.specs.Words.{count, fits_behind, lacks, misfit_behind};

use crate::shape::{Shape, least, most};
use crate::slot::{Slot, is_slot, slot_of};
use il_base::Text;

/// How many of the words are of this kind.
fn count(slot: Slot, words: &[Text]) -> usize
    ensures { result ≡ count slot words.now }
{
    words
        .iter()
        .filter(|word| is_slot(slot, word.as_str()))
        .count()
}

/// Whether a word fits behind those before it: fewer of its kind stand there than may stand behind the command.
fn fits_behind(shape: Shape, before: &[Text], word: &str) -> bool
    ensures { result ≡ fits_behind shape before.now word.now }
{
    match slot_of(word) {
        Some(slot) => count(slot, before) < most(shape, slot),
        None => false,
    }
}

/// Whether a word is missing.
fn lacks(shape: Shape, words: &[Text]) -> bool
    ensures { result ≡ lacks shape words.now }
{
    count(Slot::File, words) < least(shape, Slot::File)
        || count(Slot::Kind, words) < least(shape, Slot::Kind)
        || count(Slot::Output, words) < least(shape, Slot::Output)
        || count(Slot::Optimize, words) < least(shape, Slot::Optimize)
}

/// The number of the first word that doesn't fit, where the command is word 1; or, where all fit and one is missing, the
/// number behind the last.
///
/// Each word is compared with all before it. As many as the table allows can fit at most, which are few.
pub(crate) fn misfit(shape: Shape, words: &[Text]) -> Option<u32>
    ensures { result ≡ misfit_behind shape 2 [] words.now }
{
    let mut number: u32 = 2;
    for (k, word) in words.iter().enumerate() {
        if !fits_behind(shape, &words[..k], word.as_str()) {
            return Some(number);
        }
        number += 1;
    }
    if lacks(shape, words) {
        return Some(number);
    }
    None
}
