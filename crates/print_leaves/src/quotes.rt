//! Texts in quotes.
ghost use Rattle.std.specs.Prelude.{◌≡◌, ◌+◌, ◌<◌, length, take, drop, slice_index, position, IsTrue, OnOk, MatchOption};
ghost use Rattle.std.specs.List.{flat_map};
ghost use Rattle.il_lexer.specs.declared.types.TokenKind.TheVariants as kind;
ghost use Rattle.listing_leaves.specs.Texts.{quoted, quoted_units, is_simple, is_simple_string, is_control, escaped, escaped_unit};
ghost use Rattle.listing_model.specs.Shown.{none, token};
ghost use Rattle.print_leaves.specs.Escapes.{IsFirstEscape};
ghost use Rattle.print_leaves.specs.Page.{added, drawn, wants_escape, units_drawn};

use crate::paper::Paper;
use il_lexer::TokenKind;
use il_lists::NoMemory;

impl Paper {
    /// A text of UTF-8 as one text in double quotes.
    #[tactic(auto, unfolding(crate::specs::Page::written))]
    pub fn string(&mut self, text: &str) -> Result<(), NoMemory>
        ensures { OnOk result (self.new ≡ drawn self.old (token kind.QString (quoted 34 text.now) none)) }
    {
        self.begin(false, TokenKind::QString)?;
        self.quoted(b'"', text)?;
        Ok(())
    }

    /// A string of UTF-16 units: in double quotes where they are all simple, else by its bytes.
    #[tactic(auto, using(crate::proofs::Pages::added_twice), unfolding(crate::specs::Page::written, listing_leaves::specs::Texts::quoted_units))]
    pub fn units(&mut self, units: &[u16]) -> Result<(), NoMemory>
        ensures { OnOk result (self.new ≡ units_drawn self.old units.now) }
    {
        if !are_simple(units) {
            self.unit_array(units)?;
            return Ok(());
        }
        self.begin(false, TokenKind::QString)?;
        self.add_ascii(b'"')?;
        self.add_units(units)?;
        self.add_ascii(b'"')?;
        Ok(())
    }

    // Simple units between the quotes.
    fn add_units(&mut self, units: &[u16]) -> Result<(), NoMemory>
        requires { IsTrue (is_simple_string units.now) }
        ensures { OnOk result (self.new ≡ added self.old (flat_map escaped_unit units.now)) }
    {
        for unit in units {
            self.add_unit(*unit)?;
        }
        Ok(())
    }

    fn add_unit(&mut self, unit: u16) -> Result<(), NoMemory>
        requires { IsTrue (is_simple unit) }
        ensures { OnOk result (self.new ≡ added self.old (escaped_unit unit)) }
    {
        if unit == 34 || unit == 92 {
            self.add_ascii(b'\\')?;
            self.add_ascii(unit as u8)?;
        } else if unit == 9 {
            self.add("\\t")?;
        } else if unit == 10 {
            self.add("\\n")?;
        } else {
            self.add_ascii(unit as u8)?;
        }
        Ok(())
    }

    /// A text between quotes. Runs of bytes without an escape are added at once.
    pub(crate) fn quoted(&mut self, quote: u8, text: &str) -> Result<(), NoMemory>
        requires { quote < 128 }
        ensures { OnOk result (self.new ≡ added self.old (quoted quote text.now)) }
    {
        self.add_ascii(quote)?;
        let mut rest = text;
        while let Some(place) = first_escape(quote, rest) {
            let byte = rest.as_bytes()[place];
            let (front, back) = cut(rest, place);
            self.add(front)?;
            self.escape(quote, byte)?;
            rest = back;
        }
        self.add(rest)?;
        self.add_ascii(quote)?;
        Ok(())
    }

    // A byte by its escape.
    fn escape(&mut self, quote: u8, byte: u8) -> Result<(), NoMemory>
        requires quote { quote < 128 }
        requires wants { IsTrue (wants_escape quote byte) }
        ensures { OnOk result (self.new ≡ added self.old (escaped quote byte)) }
    {
        self.add_ascii(b'\\')?;
        if byte == b'\\' || byte == quote {
            self.add_ascii(byte)?;
            return Ok(());
        }
        self.add_ascii(b'0' + byte / 64)?;
        self.add_ascii(b'0' + byte / 8 % 8)?;
        self.add_ascii(b'0' + byte % 8)?;
        Ok(())
    }
}

// The place of the first byte between such quotes that is spelled by an escape.
fn first_escape(quote: u8, text: &str) -> Option<usize>
    ensures { MatchOption result (flat_map (escaped quote) text.now ≡ text.now) (IsFirstEscape quote text.now) }
{
    let place = place_of_escape(quote, text.as_bytes());
    place
}

fn place_of_escape(quote: u8, bytes: &[u8]) -> Option<usize>
    ensures { result ≡ position (wants_escape quote) bytes.now }
{
    bytes.iter().position(|byte| wants_escape(quote, *byte))
}

/// A text before and behind the character of one byte at this place.
pub(crate) fn cut(text: &str, place: usize) -> (&str, &str)
    requires within { place < length text.now }
    requires ascii { slice_index text.now place < 128 }
    ensures front { result.0.now ≡ take place text.now }
    ensures back { result.1.now ≡ drop (place + 1) text.now }
{
    let front = &text[..place];
    let back = &text[place + 1..];
    (front, back)
}

// Whether a byte between such quotes is spelled by an escape.
fn wants_escape(quote: u8, byte: u8) -> bool
    ensures { result ≡ wants_escape quote byte }
{
    byte == b'\\' || byte == quote || (byte >= 1 && byte <= 31) || byte == 127
}

fn are_simple(units: &[u16]) -> bool
    ensures { result ≡ is_simple_string units.now }
{
    units.iter().all(|unit| is_simple(*unit))
}

fn is_simple(unit: u16) -> bool
    ensures { result ≡ is_simple unit }
{
    (unit >= 32 && unit <= 126) || unit == 9 || unit == 10
}
