//! A source with its tokens and its derivation, and what each of its tokens spells.

ghost use Rattle.std.specs.Prelude.{◌≡◌, ℕ, pos, ◌<◌, ◌≤◌, ◌^◌, ◌⊎◌, IfOk, IfSome, IsUtf8, MatchOption};
ghost use Rattle.il_lexer.specs.declared.types.TokenKind.{TokenKind};
ghost use Rattle.il_lexer.specs.declared.types.TokenKind.TheVariants.{Name, Scope, EqBytes, ByteArray, RealBytes};
ghost use Rattle.il_lexer.specs.Spelled.{IsSpelling};
ghost use Rattle.source_model.specs.Constants.{wrapped};
ghost use Rattle.source_model.specs.Nodes.{type_id};
ghost use Rattle.source_model.specs.Source.{Source, spelling, word_at, is_word};
ghost use Rattle.source_model.specs.Values.{array_bytes, equals_bytes, int_at, name_text, real_bytes, scope_text};
ghost use Rattle.source_nodes.specs.Integers.{distance};
ghost use Rattle.source_nodes.specs.NameTexts.{id_with};
ghost use Rattle.source_nodes.specs.Readers.{IsOf, Reads};

use crate::narrowing::word_of;
use crate::values::type_names::PlainId;
use crate::values::{byte_lists, integers, spellings, type_names};
use il_base::{Bytes, NoMemory, Text};
use il_lexer::{Span, the_longest_spelling_is_taken, tokens_are_spellings};
use ilasm_grammar::TreeNode;
use std::alloc::Global;
use type_terms::TypeId;

/// A source, the spans of its tokens and the nodes of its derivation.
#[derive(Clone, Copy)]
pub struct Reader<'a> {
    pub source: &'a [u8],
    pub spans: &'a [Span],
    pub nodes: &'a [TreeNode],
}

impl<'a> Reader<'a> {
    /// The bytes of a token; none where there is no such token.
    pub fn spelling(&self, token: u32) -> &'a [u8]
        ensures value { (s : Source) → Reads self.now s → result.now ≡ spelling s token }
        ensures spelled { (s : Source) → Reads self.now s → (kind : TokenKind) → IsOf s kind token → IsSpelling kind result.now }
        ensures utf8 { (s : Source) → Reads self.now s → IsOf s Name token ⊎ IsOf s Scope token → IsUtf8 result.now }
    {
        the_longest_spelling_is_taken();
        tokens_are_spellings();
        spellings::spelling(self.source, self.spans, token as usize)
    }

    /// The number of the word that a token is.
    pub fn word_at(&self, token: u32) -> Option<u16>
        ensures { (s : Source) → Reads self.now s → result ≡ word_at s token }
    {
        spellings::word_at(self.spans, token as usize)
    }

    /// Whether a token is the word with this number.
    pub fn is_word(&self, word: u16, token: u32) -> bool
        ensures { (s : Source) → Reads self.now s → result ≡ is_word s word token }
    {
        spellings::is_word(self.spans, word, token as usize)
    }

    /// The number that an INT spells, or None where it lies 2^64 or more from 0.
    pub fn integer(&self, token: u32) -> Option<i128>
        ensures { (s : Source) → Reads self.now s → MatchOption result (2 ^ 64 ≤ distance (int_at s token)) (λ value. value ≡ int_at s token) }
    {
        integers::integer(self.spelling(token))
    }

    /// The number that an INT spells, where it has 32 bits and no sign.
    pub fn natural(&self, token: u32) -> u32
        ensures { (s : Source) → Reads self.now s → (n : ℕ) → int_at s token ≡ pos n → n < 2 ^ 32 → result ≡ n }
    {
        word_of(self.wrapped_integer(token) as usize)
    }

    /// The number that an INT spells, modulo 2^64.
    pub fn wrapped_integer(&self, token: u32) -> u64
        ensures { (s : Source) → Reads self.now s → result ≡ wrapped 64 (int_at s token) }
    {
        integers::wrapped_integer(self.spelling(token))
    }

    /// The text of a name.
    pub fn name_text(&self, alloc: Global, token: u32) -> Result<Text, NoMemory>
        ensures { (s : Source) → Reads self.now s → IsOf s Name token → IfOk result (λ text. text ≡ name_text s token) }
    {
        type_names::name_text(alloc, self.spelling(token))
    }

    /// The text of a name that is spelled by itself; None where it may have quotes.
    pub fn plain_name(&self, token: u32) -> Option<&'a [u8]>
        ensures { (s : Source) → Reads self.now s → IsOf s Name token → IfSome result (λ text. text.now ≡ name_text s token) }
    {
        type_names::plain_name(self.spelling(token))
    }

    /// The text of a name in brackets, without them.
    pub fn scope_text(&self, alloc: Global, token: u32) -> Result<Text, NoMemory>
        ensures { (s : Source) → Reads self.now s → IsOf s Scope token → IfOk result (λ text. text ≡ scope_text s token) }
    {
        type_names::scope_text(alloc, self.spelling(token))
    }

    /// A name as that of a type: its space and its last part.
    pub fn type_id(&self, alloc: Global, token: u32) -> Result<TypeId, NoMemory>
        ensures { (s : Source) → Reads self.now s → IsOf s Name token → IfOk result (λ id. id ≡ type_id s token) }
    {
        type_names::type_id(alloc, self.spelling(token))
    }

    /// A name as that of a type, where it is spelled by itself; None where it may have quotes. Takes no memory.
    pub fn plain_id(&self, token: u32) -> Option<PlainId<'a>>
        ensures { (s : Source) → Reads self.now s → IsOf s Name token → IfSome result (λ id. id_with id.space.now id.name.now ≡ type_id s token) }
    {
        type_names::plain_id(self.spelling(token))
    }

    /// The bytes of `= ( .. )`.
    pub fn equals_bytes(&self, alloc: Global, token: u32) -> Result<Bytes, NoMemory>
        ensures { (s : Source) → Reads self.now s → IsOf s EqBytes token → IfOk result (λ bytes. bytes ≡ equals_bytes s token) }
    {
        byte_lists::equals_bytes(alloc, self.spelling(token))
    }

    /// The bytes of `bytearray ( .. )`.
    pub fn array_bytes(&self, alloc: Global, token: u32) -> Result<Bytes, NoMemory>
        ensures { (s : Source) → Reads self.now s → IsOf s ByteArray token → IfOk result (λ bytes. bytes ≡ array_bytes s token) }
    {
        byte_lists::array_bytes(alloc, self.spelling(token))
    }

    /// The bytes of `( .. )`, which are the bits of a real number.
    pub fn real_bytes(&self, alloc: Global, token: u32) -> Result<Bytes, NoMemory>
        ensures { (s : Source) → Reads self.now s → IsOf s RealBytes token → IfOk result (λ bytes. bytes ≡ real_bytes s token) }
    {
        byte_lists::real_bytes(alloc, self.spelling(token))
    }
}
