//! Numbers and labels.
ghost use Rattle.std.specs.Prelude.{◌≡◌, ◌<◌, ◌++◌, ◌∷◌, false, true, OnOk};
ghost use Rattle.std.specs.Fmt.{decimal, digits, digit_glyph};
ghost use Rattle.il_lexer.specs.declared.types.TokenKind.TheVariants as kind;
ghost use Rattle.listing_leaves.specs.Numbers.{at_least, hexadecimal, natural, integer, label, data_label};
ghost use Rattle.listing_model.specs.Shown.{none, token};
ghost use Rattle.listing_model.specs.Bodies.{label_line};
ghost use Rattle.print_leaves.specs.Page.{added, drawn};

use crate::paper::Paper;
use il_lexer::{TokenKind, word};
use il_lists::NoMemory;

impl Paper {
    /// A number in decimal digits.
    #[tactic(auto, unfolding(crate::specs::Page::written, listing_leaves::specs::Numbers::natural))]
    pub fn natural(&mut self, number: u64) -> Result<(), NoMemory>
        ensures { OnOk result (self.new ≡ drawn self.old (token kind.Int (natural number) none)) }
    {
        self.begin(false, TokenKind::Int)?;
        self.add_decimal(number)?;
        Ok(())
    }

    /// One that may have a sign.
    #[tactic(auto, using(crate::proofs::Pages::added_twice), unfolding(crate::specs::Page::written, listing_leaves::specs::Numbers::integer))]
    pub fn integer(&mut self, number: i128) -> Result<(), NoMemory>
        ensures { OnOk result (self.new ≡ drawn self.old (token kind.Int (integer number) none)) }
    {
        self.begin(false, TokenKind::Int)?;
        if number < 0 {
            self.add_ascii(b'-')?;
        }
        self.add_wide(number.unsigned_abs())?;
        Ok(())
    }

    /// A number in at least so many hexadecimal digits.
    #[tactic(auto, using(crate::proofs::Pages::added_twice), unfolding(crate::specs::Page::written, listing_leaves::specs::Numbers::hexadecimal))]
    pub fn hexadecimal(&mut self, width: u32, number: u64) -> Result<(), NoMemory>
        ensures { OnOk result (self.new ≡ drawn self.old (token kind.Int (hexadecimal width number) none)) }
    {
        self.begin(false, TokenKind::Int)?;
        self.add("0x")?;
        self.add_hex(true, width, number)?;
        Ok(())
    }

    /// The label of a code offset, within a line.
    #[tactic(auto, unfolding(crate::specs::Page::written))]
    pub fn label(&mut self, offset: u64) -> Result<(), NoMemory>
        ensures { OnOk result (self.new ≡ drawn self.old (token kind.Name (label offset) none)) }
    {
        self.begin(false, TokenKind::Name)?;
        self.add_label(offset)?;
        Ok(())
    }

    /// The label of a code offset at the begin of a line, and its `:`.
    #[tactic(auto, unfolding(crate::specs::Page::written))]
    pub fn label_line(&mut self, offset: u64) -> Result<(), NoMemory>
        ensures { OnOk result (self.new ≡ drawn self.old (label_line offset).below) }
    {
        self.begin(true, TokenKind::Name)?;
        self.add_label(offset)?;
        self.word(word::COLON)?;
        Ok(())
    }

    /// The label of the data with this number.
    #[tactic(auto, using(crate::proofs::Pages::added_twice), unfolding(crate::specs::Page::written, listing_leaves::specs::Numbers::data_label))]
    pub fn data_label(&mut self, number: u64) -> Result<(), NoMemory>
        ensures { OnOk result (self.new ≡ drawn self.old (token kind.Name (data_label number) none)) }
    {
        self.begin(false, TokenKind::Name)?;
        self.add("D_")?;
        self.add_decimal(number)?;
        Ok(())
    }

    #[tactic(auto, using(crate::proofs::Pages::added_twice), unfolding(listing_leaves::specs::Numbers::label))]
    fn add_label(&mut self, offset: u64) -> Result<(), NoMemory>
        ensures { OnOk result (self.new ≡ added self.old (label offset)) }
    {
        self.add("IL_")?;
        self.add_hex(false, 4, offset)?;
        Ok(())
    }

    /// Adds decimal digits, and nothing before them.
    pub fn add_decimal(&mut self, number: u64) -> Result<(), NoMemory>
        ensures { OnOk result (self.new ≡ added self.old (decimal number)) }
    {
        if number < 10 {
            self.add_ascii(b'0' + number as u8)?;
            return Ok(());
        }
        self.add_decimal(number / 10)?;
        self.add_ascii(b'0' + (number % 10) as u8)?;
        Ok(())
    }

    // The same of a number with more bits.
    fn add_wide(&mut self, number: u128) -> Result<(), NoMemory>
        ensures { OnOk result (self.new ≡ added self.old (decimal number)) }
    {
        if number <= 0xFFFF_FFFF_FFFF_FFFF {
            self.add_decimal(number as u64)?;
            return Ok(());
        }
        self.add_wide(number / 10)?;
        self.add_ascii(b'0' + (number % 10) as u8)?;
        Ok(())
    }

    /// Adds at least so many hexadecimal digits, with capital letters where `upper` is set, and nothing before them.
    pub fn add_hex(&mut self, upper: bool, width: u32, number: u64) -> Result<(), NoMemory>
        ensures { OnOk result (self.new ≡ added self.old (at_least width (digits 16 upper number))) }
    {
        if width <= 1 && number < 16 {
            self.add_ascii(glyph(upper, number as u8))?;
            return Ok(());
        }
        self.add_hex(upper, width.saturating_sub(1), number / 16)?;
        self.add_ascii(glyph(upper, (number % 16) as u8))?;
        Ok(())
    }
}

/// A hexadecimal digit.
pub(crate) fn glyph(upper: bool, digit: u8) -> u8
    requires { digit < 16 }
    ensures digit { result ≡ digit_glyph upper digit }
    ensures ascii { result < 128 }
{
    if digit < 10 {
        b'0' + digit
    } else if upper {
        b'A' - 10 + digit
    } else {
        b'a' - 10 + digit
    }
}
