//! Endings that only say something on standard error.
ghost use Rattle.std.specs.Prelude.{◌≡◌, IfOk, string_bytes};
ghost use Rattle.run_endings.specs.Ends.{says_only, prints_only, makes_only};
ghost use Rattle.run_endings.specs.Texts.{usage_text, unread_text, long_text};

use crate::{Ending, Input, Made, Written};
use il_base::{NoMemory, Text};
use std::alloc::Global;

/// The ending with this status and this text on standard error alone.
pub fn says(alloc: Global, number: u8, text: String) -> Result<Ending, NoMemory>
    ensures { IfOk result (λ e. e ≡ says_only number (string_bytes text)) }
{
    let err = Text::from_string(alloc, text)?;
    let out = Text::new(alloc, "")?;
    Ok(Ending {
        number,
        file: None,
        out,
        err,
    })
}

/// The ending with this status and this text on standard output alone.
pub fn prints(alloc: Global, number: u8, text: Text) -> Result<Ending, NoMemory>
    ensures { IfOk result (λ e. e ≡ prints_only number text) }
{
    let err = Text::new(alloc, "")?;
    Ok(Ending {
        number,
        file: None,
        out: text,
        err,
    })
}

/// The ending that makes a file and says nothing.
pub fn makes(alloc: Global, name: Text, bytes: Written) -> Result<Ending, NoMemory>
    ensures { IfOk result (λ e. e ≡ makes_only name bytes) }
{
    let out = Text::new(alloc, "")?;
    let err = Text::new(alloc, "")?;
    Ok(Ending {
        number: 0,
        file: Some(Made { name, bytes }),
        out,
        err,
    })
}

/// The ending of a run whose words don't fit, the first of them being the word of this number.
pub fn usage_said(alloc: Global, word: u32) -> Result<Ending, NoMemory>
    ensures { IfOk result (λ e. e ≡ says_only 2 (usage_text word)) }
{
    let text = format!(in alloc; "usage fault at word {word}\n")?;
    says(alloc, 2, text)
}

/// The ending of a run that can't read this input.
pub fn unread_said(alloc: Global, input: &Input) -> Result<Ending, NoMemory>
    ensures { IfOk result (λ e. e ≡ says_only 3 (unread_text input.now.name)) }
{
    let name = input.name.as_str();
    let text = format!(in alloc; "{name}: cannot be read\n")?;
    says(alloc, 3, text)
}

/// The ending of a run of which this input is too long.
pub fn too_long_said(alloc: Global, input: &Input) -> Result<Ending, NoMemory>
    ensures { IfOk result (λ e. e ≡ says_only 5 (long_text input.now.name input.now.limit)) }
{
    let name = input.name.as_str();
    let limit = input.limit;
    let text = format!(in alloc; "{name}: longer than {limit} bytes\n")?;
    says(alloc, 5, text)
}
