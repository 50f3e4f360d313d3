//! Names: bare where they can be, else with parts in quotes.
ghost use Rattle.std.specs.Prelude.{◌≡◌, ◌≤◌, ◌<◌, ◌++◌, ◌∷◌, [], ◌==◌, length, drop, position, OnOk, IfOk, MatchOption};
ghost use Rattle.std.specs.List.{list_any, list_all};
ghost use Rattle.il_lexer.specs.Classes.{is_id_start, is_id_part};
ghost use Rattle.il_lexer.specs.declared.types.TokenKind.TheVariants as kind;
ghost use Rattle.listing_leaves.specs.Names.{name, type_name, scope, part, parts_of, pieces, is_empty, is_id, is_bare, is_bracketed, spelled};
ghost use Rattle.listing_leaves.specs.Texts.{quoted};
ghost use Rattle.listing_model.specs.Shown.{none, token};
ghost use Rattle.listing_model.specs.Types.{type_id};
ghost use Rattle.print_leaves.specs.Page.{added, drawn};
ghost use Rattle.print_leaves.specs.Parts.{fronts, last_part, ending, space_front, IsFirstDot};

use crate::paper::Paper;
use crate::quotes::cut;
use il_lexer::{TokenKind, word_number};
use il_lists::NoMemory;
use type_terms::TypeId;

impl Paper {
    /// A name.
    #[tactic(auto, unfolding(crate::specs::Page::written))]
    pub fn name(&mut self, text: &str) -> Result<(), NoMemory>
        ensures { OnOk result (self.new ≡ drawn self.old (token kind.Name (name text.now) none)) }
    {
        self.begin(false, TokenKind::Name)?;
        self.add_name(text)?;
        Ok(())
    }

    /// A type's name: its space and its name, the latter as one part.
    #[tactic(auto, unfolding(crate::specs::Page::written))]
    pub fn type_id(&mut self, id: &TypeId) -> Result<(), NoMemory>
        ensures { OnOk result (self.new ≡ drawn self.old (type_id id.now none)) }
    {
        self.begin(false, TokenKind::Name)?;
        self.add_type_name(id.space.as_str(), id.name.as_str())?;
        Ok(())
    }

    /// A name in brackets.
    #[tactic(auto, using(crate::proofs::Pages::added_twice), unfolding(crate::specs::Page::written, listing_leaves::specs::Names::scope))]
    pub fn scope(&mut self, text: &str) -> Result<(), NoMemory>
        ensures { OnOk result (self.new ≡ drawn self.old (token kind.Scope (scope text.now) none)) }
    {
        self.begin(false, TokenKind::Scope)?;
        self.add_ascii(b'[')?;
        self.add_name(text)?;
        self.add_ascii(b']')?;
        Ok(())
    }

    // The spelling of a name.
    fn add_name(&mut self, text: &str) -> Result<(), NoMemory>
        ensures { OnOk result (self.new ≡ added self.old (name text.now)) }
    {
        let start = self.len();
        let last = self.add_fronts(text)?;
        self.add_ending(start, last)?;
        Ok(())
    }

    // The spelling of a type's name.
    fn add_type_name(&mut self, space: &str, text: &str) -> Result<(), NoMemory>
        ensures { OnOk result (self.new ≡ added self.old (type_name space.now text.now)) }
    {
        let start = self.len();
        self.add_space(space)?;
        self.add_ending(start, text)?;
        Ok(())
    }

    // The space of a type's name and a dot, where it has one.
    fn add_space(&mut self, space: &str) -> Result<(), NoMemory>
        ensures { OnOk result (self.new ≡ added self.old (space_front space.now)) }
    {
        if space.is_empty() {
            return Ok(());
        }
        let last = self.add_fronts(space)?;
        self.add_part(last)?;
        self.add_ascii(b'.')?;
        Ok(())
    }

    // The parts of a name before the last, each with its dot; the last is answered.
    fn add_fronts<'a>(&mut self, text: &'a str) -> Result<&'a str, NoMemory>
        ensures before { OnOk result (self.new ≡ added self.old (fronts (parts_of text.now))) }
        ensures last { IfOk result (λ last. last.now ≡ last_part (parts_of text.now)) }
    {
        if has_empty_piece(text.as_bytes()) {
            return Ok(text);
        }
        let mut rest = text;
        while let Some(place) = first_dot(rest) {
            let (piece, more) = cut(rest, place);
            self.add_part(piece)?;
            self.add_ascii(b'.')?;
            rest = more;
        }
        Ok(rest)
    }

    // A part of a name.
    fn add_part(&mut self, text: &str) -> Result<(), NoMemory>
        ensures { OnOk result (self.new ≡ added self.old (part text.now)) }
    {
        if is_bare(text.as_bytes()) {
            self.add(text)?;
            return Ok(());
        }
        self.quoted(b'\'', text)?;
        Ok(())
    }

    // The last part of the name that begins at `start`: in quotes too where the name would be a reserved word.
    fn add_ending(&mut self, start: usize, text: &str) -> Result<(), NoMemory>
        requires start { start ≤ length self.old.text }
        requires deep { self.old.state.depth ≤ start }
        ensures { OnOk result (self.new ≡ added self.old (ending (drop start self.old.text) text.now)) }
    {
        let place = self.len();
        self.add_part(text)?;
        if word_number(self.bytes_from(start)).is_some() {
            self.take_back(place);
            self.quoted(b'\'', text)?;
        }
        Ok(())
    }
}

// The place of the first dot.
fn first_dot(text: &str) -> Option<usize>
    ensures { MatchOption result (pieces text.now ≡ text.now ∷ []) (IsFirstDot text.now) }
{
    let place = place_of_dot(text.as_bytes());
    place
}

fn place_of_dot(text: &[u8]) -> Option<usize>
    ensures { result ≡ position (λ b. b == 46) text.now }
{
    text.iter().position(|byte| *byte == b'.')
}

/// Whether a text that is split at its dots has an empty piece.
fn has_empty_piece(text: &[u8]) -> bool
    ensures { result ≡ list_any is_empty (pieces text.now) }
{
    let mut is_new = true;
    for byte in text {
        if *byte != b'.' {
            is_new = false;
        } else if is_new {
            return true;
        } else {
            is_new = true;
        }
    }
    is_new
}

/// Whether a part of a name needs no quotes.
fn is_bare(text: &[u8]) -> bool
    ensures { result ≡ is_bare text.now }
{
    is_id(text) && word_number(text).is_none() && !is_bracketed(text)
}

// `in`, `out` and `opt`, of which brackets make words.
fn is_bracketed(text: &[u8]) -> bool
    ensures { result ≡ is_bracketed text.now }
{
    text == b"in".as_slice() || text == b"out".as_slice() || text == b"opt".as_slice()
}

fn is_id(text: &[u8]) -> bool
    ensures { result ≡ is_id text.now }
{
    match text {
        [] => false,
        [first, more @ ..] => is_id_start(*first) && are_parts(more),
    }
}

fn are_parts(bytes: &[u8]) -> bool
    ensures { result ≡ list_all is_id_part bytes.now }
{
    bytes.iter().all(|byte| is_id_part(*byte))
}

fn is_id_start(byte: u8) -> bool
    ensures { result ≡ is_id_start byte }
{
    byte.is_ascii_alphabetic()
        || byte == b'_'
        || byte == b'$'
        || byte == b'@'
        || byte == b'?'
        || byte == b'`'
}

fn is_id_part(byte: u8) -> bool
    ensures { result ≡ is_id_part byte }
{
    is_id_start(byte) || (byte >= b'0' && byte <= b'9')
}
