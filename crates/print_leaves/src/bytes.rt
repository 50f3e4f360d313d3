//! Lists of bytes.
ghost use Rattle.std.specs.Prelude.{◌≡◌, OnOk};
ghost use Rattle.std.specs.List.{flat_map};
ghost use Rattle.il_lexer.specs.declared.types.TokenKind.TheVariants as kind;
ghost use Rattle.listing_leaves.specs.Bytes.{equals_bytes, byte_array, parenthesized, pair, pairs};
ghost use Rattle.listing_leaves.specs.Texts.{unit_bytes};
ghost use Rattle.listing_model.specs.Shown.{none, token};
ghost use Rattle.print_leaves.specs.Page.{added, drawn};
ghost use Rattle.print_leaves.specs.Spaced.{spaced, two_pairs, spaced_unit};

use crate::numbers::glyph;
use crate::paper::Paper;
use il_lexer::TokenKind;
use il_lists::NoMemory;

impl Paper {
    /// `= (01 0A)`.
    #[tactic(auto, using(crate::proofs::Pages::added_twice), unfolding(crate::specs::Page::written, listing_leaves::specs::Bytes::equals_bytes))]
    pub fn equals_bytes(&mut self, bytes: &[u8]) -> Result<(), NoMemory>
        ensures { OnOk result (self.new ≡ drawn self.old (token kind.EqBytes (equals_bytes bytes.now) none)) }
    {
        self.begin(false, TokenKind::EqBytes)?;
        self.add("= ")?;
        self.parenthesized(bytes)?;
        Ok(())
    }

    /// `bytearray (01 0A)`.
    #[tactic(auto, using(crate::proofs::Pages::added_twice), unfolding(crate::specs::Page::written, listing_leaves::specs::Bytes::byte_array))]
    pub fn byte_array(&mut self, bytes: &[u8]) -> Result<(), NoMemory>
        ensures { OnOk result (self.new ≡ drawn self.old (token kind.ByteArray (byte_array bytes.now) none)) }
    {
        self.begin(false, TokenKind::ByteArray)?;
        self.add("bytearray ")?;
        self.parenthesized(bytes)?;
        Ok(())
    }

    /// The bytes of UTF-16 units, the low byte of each first, behind `bytearray`.
    #[tactic(auto, using(crate::proofs::Pages::added_twice), unfolding(crate::specs::Page::written, listing_leaves::specs::Bytes::byte_array))]
    pub(crate) fn unit_array(&mut self, units: &[u16]) -> Result<(), NoMemory>
        ensures { OnOk result (self.new ≡ drawn self.old (token kind.ByteArray (byte_array (unit_bytes units.now)) none)) }
    {
        self.begin(false, TokenKind::ByteArray)?;
        self.add("bytearray (")?;
        self.unit_pairs(units)?;
        self.add_ascii(b')')?;
        Ok(())
    }

    // The bytes of units with blanks between them.
    fn unit_pairs(&mut self, units: &[u16]) -> Result<(), NoMemory>
        ensures { OnOk result (self.new ≡ added self.old (pairs (unit_bytes units.now))) }
    {
        match units {
            [] => Ok(()),
            [first, more @ ..] => {
                self.two_pairs(*first)?;
                self.more_units(more)?;
                Ok(())
            }
        }
    }

    // The bytes of units, each behind a blank.
    fn more_units(&mut self, units: &[u16]) -> Result<(), NoMemory>
        ensures { OnOk result (self.new ≡ added self.old (flat_map spaced_unit units.now)) }
    {
        for unit in units {
            self.spaced_unit(*unit)?;
        }
        Ok(())
    }

    #[tactic(auto, using(crate::proofs::Pages::added_twice))]
    fn spaced_unit(&mut self, unit: u16) -> Result<(), NoMemory>
        ensures { OnOk result (self.new ≡ added self.old (spaced_unit unit)) }
    {
        self.add_ascii(b' ')?;
        self.two_pairs(unit)?;
        Ok(())
    }

    #[tactic(auto, using(crate::proofs::Pages::added_twice))]
    fn parenthesized(&mut self, bytes: &[u8]) -> Result<(), NoMemory>
        ensures { OnOk result (self.new ≡ added self.old (parenthesized bytes.now)) }
    {
        self.add_ascii(b'(')?;
        self.pairs(bytes)?;
        self.add_ascii(b')')?;
        Ok(())
    }

    // Bytes with blanks between them.
    fn pairs(&mut self, bytes: &[u8]) -> Result<(), NoMemory>
        ensures { OnOk result (self.new ≡ added self.old (pairs bytes.now)) }
    {
        match bytes {
            [] => Ok(()),
            [first, more @ ..] => {
                self.pair(*first)?;
                self.more_pairs(more)?;
                Ok(())
            }
        }
    }

    // Bytes, each behind a blank.
    fn more_pairs(&mut self, bytes: &[u8]) -> Result<(), NoMemory>
        ensures { OnOk result (self.new ≡ added self.old (flat_map spaced bytes.now)) }
    {
        for byte in bytes {
            self.spaced(*byte)?;
        }
        Ok(())
    }

    #[tactic(auto, using(crate::proofs::Pages::added_twice))]
    fn spaced(&mut self, byte: u8) -> Result<(), NoMemory>
        ensures { OnOk result (self.new ≡ added self.old (spaced byte)) }
    {
        self.add_ascii(b' ')?;
        self.pair(byte)?;
        Ok(())
    }

    // The two bytes of a unit.
    #[tactic(auto, using(crate::proofs::Pages::added_twice))]
    fn two_pairs(&mut self, unit: u16) -> Result<(), NoMemory>
        ensures { OnOk result (self.new ≡ added self.old (two_pairs unit)) }
    {
        self.pair((unit % 256) as u8)?;
        self.add_ascii(b' ')?;
        self.pair((unit / 256) as u8)?;
        Ok(())
    }

    // Two hexadecimal digits.
    #[tactic(auto, using(crate::proofs::Pages::added_twice))]
    fn pair(&mut self, byte: u8) -> Result<(), NoMemory>
        ensures { OnOk result (self.new ≡ added self.old (pair byte)) }
    {
        self.add_ascii(glyph(true, byte / 16))?;
        self.add_ascii(glyph(true, byte % 16))?;
        Ok(())
    }
}
