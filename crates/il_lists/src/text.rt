ghost use Rattle.std.specs.Prelude.{◌≡◌, ◌++◌, ◌↔◌, [], length, string_bytes, IsTrue, IfOk, OnOk, OnErr};

use crate::short_text::{MOST, ShortText};
use crate::{Copies, NoMemory};
use std::alloc::Global;
use std::marker::Model;

/// A UTF-8 text that contracts see as the list of its bytes. A text of up to 22 bytes, as most names are, takes no
/// memory of its own.
#[derive(Debug, Drop)]
pub struct Text {
    held: Held,
}

/// The bytes of a text, in the value itself or in memory of their own.
#[derive(Debug, Drop)]
enum Held {
    Short { text: ShortText, alloc: Global },
    Long(Box<String>),
}

impl Model for Text {
    ghost use Rattle.std.specs.Prelude.{List, ℕ};
    ghost use Rattle.il_lists.specs.Held.{held_bytes};

    ghost Value = { List ℕ };

    ghost view = { λ t. held_bytes t.held };
}

impl Text {
    /// A text with the bytes of `s`.
    pub fn new(alloc: Global, s: &str) -> Result<Text, NoMemory>
        ensures { IfOk result (λ t. t ≡ s.now) }
    {
        if s.len() <= MOST {
            let text = ShortText::new(s);
            return Ok(Text {
                held: Held::Short { text, alloc },
            });
        }
        let text = String::from_str(alloc, s)?;
        let text = Box::new(alloc, text)?;
        Ok(Text {
            held: Held::Long(text),
        })
    }

    /// The text that `s` holds, whose bytes aren't copied.
    pub fn from_string(alloc: Global, s: String) -> Result<Text, NoMemory>
        ensures { IfOk result (λ t. t ≡ string_bytes s) }
    {
        let text = Box::new(alloc, s)?;
        Ok(Text {
            held: Held::Long(text),
        })
    }

    /// Lends the text.
    pub fn as_str(&self) -> &str
        ensures { result.now ≡ self.now }
    {
        match &self.held {
            Held::Short { text, .. } => text.as_str(),
            Held::Long(text) => text.as_str(),
        }
    }

    /// Lends the text's bytes.
    pub fn as_bytes(&self) -> &[u8]
        ensures { result.now ≡ self.now }
    {
        self.as_str().as_bytes()
    }

    /// The number of its bytes.
    pub fn len(&self) -> usize
        ensures { result ≡ length self.now }
    {
        self.as_str().len()
    }

    /// Whether it has no bytes.
    pub fn is_empty(&self) -> bool
        ensures { IsTrue result ↔ (self.now ≡ []) }
    {
        self.as_str().is_empty()
    }

    /// Adds `more` at the end.
    pub fn push_str(&mut self, more: &str) -> Result<(), NoMemory>
        ensures ok { OnOk result (self.new ≡ self.old ++ more.now) }
        ensures err { OnErr result (self.new ≡ self.old) }
    {
        match &mut self.held {
            Held::Long(text) => text.push_str(more)?,
            Held::Short { text, alloc } => {
                let mut long = String::from_str(*alloc, text.as_str())?;
                long.push_str(more)?;
                let long = Box::new(*alloc, long)?;
                self.held = Held::Long(long);
            }
        }
        Ok(())
    }
}

impl Copies for Text {
    fn copy(&self, alloc: Global) -> Result<Text, NoMemory> {
        Text::new(alloc, self.as_str())
    }
}
