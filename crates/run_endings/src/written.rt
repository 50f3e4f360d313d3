ghost use Rattle.std.specs.Prelude.{◌≡◌};

use il_base::{Bytes, Text};
use std::marker::Model;

/// What a file is to hold: bytes, or a text that isn't copied for it. Contracts see the bytes.
#[derive(Drop)]
pub struct Written {
    held: Held,
}

/// The bytes, as they were made.
#[derive(Drop)]
enum Held {
    Plain(Bytes),
    Lines(Text),
}

impl Model for Written {
    ghost use Rattle.std.specs.Prelude.{List, ℕ};
    ghost use Rattle.run_endings.specs.Held.{held_bytes};

    ghost Value = { List ℕ };

    ghost view = { λ w. held_bytes w.held };
}

impl Written {
    /// These bytes, such as an image's.
    pub fn from_bytes(bytes: Bytes) -> Written
        ensures { result ≡ bytes }
    {
        Written {
            held: Held::Plain(bytes),
        }
    }

    /// The bytes of this text, such as a listing.
    pub fn from_text(text: Text) -> Written
        ensures { result ≡ text }
    {
        Written {
            held: Held::Lines(text),
        }
    }

    /// Lends the bytes.
    pub fn as_slice(&self) -> &[u8]
        ensures { result.now ≡ self.now }
    {
        match &self.held {
            Held::Plain(bytes) => bytes.as_slice(),
            Held::Lines(text) => text.as_bytes(),
        }
    }
}
