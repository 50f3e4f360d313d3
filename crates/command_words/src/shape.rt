//! The table of commands: how often each kind of word stands behind them.
ghost use Rattle.std.specs.Prelude.{◌≡◌};
ghost use Rattle.command_words.specs.Words.{shape_of, least, most};

use crate::slot::Slot;

/// A command, by what may stand behind it.
#[derive(Clone, Copy)]
pub(crate) enum Shape {
    /// `ilasm FILE [-dll or -exe] [-output=NAME] [-optimize]`
    Ilasm,
}

/// The command that a first word names.
pub(crate) fn shape_of(word: &str) -> Option<Shape>
    ensures { result ≡ shape_of word.now }
{
    match word {
        "ilasm" => Some(Shape::Ilasm),
        _ => None,
    }
}

/// How many words of this kind stand behind the command at least.
pub(crate) fn least(shape: Shape, slot: Slot) -> usize
    ensures { result ≡ least shape slot }
{
    match shape {
        Shape::Ilasm => match slot {
            Slot::File => 1,
            Slot::Kind | Slot::Output | Slot::Optimize => 0,
        },
    }
}

/// How many words of this kind stand behind the command at most.
pub(crate) fn most(shape: Shape, slot: Slot) -> usize
    ensures { result ≡ most shape slot }
{
    match shape {
        Shape::Ilasm => match slot {
            Slot::File | Slot::Kind | Slot::Output | Slot::Optimize => 1,
        },
    }
}
