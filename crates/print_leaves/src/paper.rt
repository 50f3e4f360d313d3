//! The text of a listing so far, to which tokens are added.
ghost use Rattle.std.specs.Prelude.{◌≡◌, ◌<◌, ◌≤◌, ◌++◌, ◌∷◌, false, [], length, drop, take, slice_index, slice_index_or, string_bytes, OnOk, IsTrue};
ghost use Rattle.il_lexer.specs.WordList.{words};
ghost use Rattle.listing_model.specs.Shown.{none, w, line, bracket};
ghost use Rattle.print_leaves.specs.Page.{blank, added, begun, drawn, leaf_of, word_leaf, written, is_no_word, depth_of_line};

use crate::blanks::push_lead;
use il_lexer::{TokenKind, word, word_text};
use il_lists::NoMemory;
use std::alloc::Global;
use std::marker::Model;

/// A text that tokens are added to, each behind the blanks or the line's end that stand before it. Contracts see the text, and what
/// the next token's blanks depend on.
#[derive(Drop)]
pub struct Paper {
    text: String,
    depth: usize,
    last: Option<TokenKind>,
}

impl Model for Paper {
    ghost use Rattle.std.specs.Prelude.{◌≤◌, length, string_bytes};
    ghost use Rattle.print_leaves.specs.Page.{Page};

    ghost Value = { Page };

    ghost view = { λ p. record { text = string_bytes p.text; state = record { depth = p.depth; last = p.last } } };

    ghost invariant = { λ p. p.depth ≤ length (string_bytes p.text) };
}

impl Paper {
    /// An empty text. Takes no memory.
    pub fn new(alloc: Global) -> Paper
        ensures { result ≡ blank }
    {
        Paper {
            text: String::new(alloc),
            depth: 0,
            last: None,
        }
    }

    /// The text.
    pub fn into_string(self) -> String
        ensures { string_bytes result ≡ self.text }
    {
        let Paper { text, .. } = self;
        text
    }

    /// The end of the last line.
    pub fn end_line(&mut self) -> Result<(), NoMemory>
        ensures { OnOk result (self.new ≡ added self.old (10 ∷ [])) }
    {
        self.text.push('\n')?;
        Ok(())
    }

    /// The word with this number, within a line. A `{` and the `}` to it begin lines.
    pub fn word(&mut self, number: u16) -> Result<(), NoMemory>
        ensures { OnOk result (self.new ≡ drawn self.old (w number none)) }
    {
        self.push_word(false, false, number)
    }

    /// The word with this number, at the begin of a line.
    pub fn line(&mut self, number: u16) -> Result<(), NoMemory>
        ensures { OnOk result (self.new ≡ drawn self.old (line number none)) }
    {
        self.push_word(true, false, number)
    }

    /// A `[` apart from what stands before it.
    pub fn bracket(&mut self) -> Result<(), NoMemory>
        ensures { OnOk result (self.new ≡ drawn self.old (bracket none)) }
    {
        self.push_word(false, true, word::OPEN_BRACKET)
    }

    // A word, by whether it begins a line and whether it stands apart.
    #[tactic(auto, unfolding(crate::specs::Page::begun, crate::specs::Page::written))]
    fn push_word(&mut self, starts: bool, apart: bool, number: u16) -> Result<(), NoMemory>
        ensures { OnOk result (self.new ≡ written self.old (word_leaf starts apart number)) }
    {
        let kind = TokenKind::Word(number);
        let depth = depth_of_line(self.depth, number);
        push_lead(&mut self.text, depth, self.last, starts, apart, kind)?;
        self.text.push_str(spelling_of(number))?;
        if number == word::OPEN_BRACE {
            self.depth += 1;
        } else {
            self.depth = depth;
        }
        self.last = Some(kind);
        Ok(())
    }

    /// What stands before a token that is no word; its bytes are added after it.
    #[tactic(auto, unfolding(crate::specs::Page::begun))]
    pub(crate) fn begin(&mut self, starts: bool, kind: TokenKind) -> Result<(), NoMemory>
        requires { IsTrue (is_no_word kind) }
        ensures { OnOk result (self.new ≡ begun self.old (leaf_of starts false kind)) }
    {
        push_lead(&mut self.text, self.depth, self.last, starts, false, kind)?;
        self.last = Some(kind);
        Ok(())
    }

    /// Adds a text as it is, and nothing before it: more of the last token, or a text that is no listing.
    pub fn add(&mut self, more: &str) -> Result<(), NoMemory>
        ensures { OnOk result (self.new ≡ added self.old more.now) }
    {
        self.text.push_str(more)?;
        Ok(())
    }

    /// One more character of it.
    pub(crate) fn add_ascii(&mut self, byte: u8) -> Result<(), NoMemory>
        requires { byte < 128 }
        ensures { OnOk result (self.new ≡ added self.old (byte ∷ [])) }
    {
        self.text.push(byte as char)?;
        Ok(())
    }

    /// The number of bytes so far.
    pub(crate) fn len(&self) -> usize
        ensures length { result ≡ length self.now.text }
        ensures deep { self.now.state.depth ≤ result }
    {
        self.text.len()
    }

    /// Takes the bytes from this place on back.
    pub(crate) fn take_back(&mut self, place: usize)
        requires within { place ≤ length self.old.text }
        requires ascii { slice_index self.old.text place < 128 }
        requires deep { self.old.state.depth ≤ place }
        ensures { self.new ≡ record { text = take place self.old.text; state = self.old.state } }
    {
        self.text.truncate(place);
    }

    /// The bytes from this place on.
    pub(crate) fn bytes_from(&self, start: usize) -> &[u8]
        requires { start ≤ length self.now.text }
        ensures { result.now ≡ drop start self.now.text }
    {
        &self.text.as_bytes()[start..]
    }
}

// The depth of a word's line: a `}` stands as deep as its `{`.
fn depth_of_line(depth: usize, number: u16) -> usize
    ensures { result ≡ depth_of_line depth number }
{
    if number == word::CLOSE_BRACE && depth > 0 {
        return depth - 1;
    }
    depth
}

// The text of the word with this number.
fn spelling_of(number: u16) -> &'static str
    ensures { result.now ≡ slice_index_or words number [] }
{
    if number < 401 { word_text(number) } else { "" }
}
