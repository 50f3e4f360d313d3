//! The flags of declarations, from the rows of words and `flags(n)` in their heads (ECMA-335 II.10.1, II.15.4.2, II.16.1,
//! II.23.1).

ghost use Rattle.std.specs.Prelude.{◌≡◌, ◌%◌, ◌^◌, Option};
ghost use Rattle.ilasm_grammar.specs.declared.productions.TheConstants.{FLAGS};
ghost use Rattle.source_model.specs.Flags.{FlagWord, flags_number, replaced, with_flag};
ghost use Rattle.source_model.specs.Forest.{Forest, has, last_token, part, preorder};
ghost use Rattle.source_model.specs.Source.{Source, word_at};
ghost use Rattle.source_flags.specs.FlagRows.{end_of, more_of, row_flags, words_at, words_of, Replaces};
ghost use Rattle.source_flags.specs.FlagWords.{IsFlagOf};
ghost use Rattle.source_nodes.specs.Readers.{Reads};
ghost use Rattle.source_nodes.specs.Walk.{IsForest};

use crate::flags::{
    Bits, assembly_word, field_word, implementation_word, method_word, nested_word, parameter_word,
    property_word, typar_word, type_word,
};
use crate::naturals::natural;
use ilasm_grammar::{TreeNode, productions};
use source_model::{derivations_are_forests, forests_join, forests_open};
use source_nodes::reader::Reader;
use source_nodes::walk::{child, has, last_token, leaf_at, next, the};

/// The rows of flags, each in the head of a declaration of its kind.
#[derive(Debug, Clone, Copy, PartialEq, Eq, Drop)]
pub enum Row {
    Assembly,
    Class,
    Field,
    Method,
    Implementation,
    Parameter,
    /// A property or an event.
    Property,
    Typar,
}

impl Row {
    /// What a word of the row stands for.
    fn bits(self, word: u16) -> Option<Bits>
        ensures { IsFlagOf (words_of self) word result }
    {
        match self {
            Row::Assembly => assembly_word(word),
            Row::Class => type_word(word),
            Row::Field => field_word(word),
            Row::Method => method_word(word),
            Row::Implementation => implementation_word(word),
            Row::Parameter => parameter_word(word),
            Row::Property => property_word(word),
            Row::Typar => typar_word(word),
        }
    }

    /// The production that goes on with the row.
    fn more(self) -> u16
        ensures { result ≡ more_of self }
    {
        match self {
            Row::Assembly => productions::ASSEMBLY_ATTR_STAR_MORE,
            Row::Class => productions::CLASS_ATTR_STAR_MORE,
            Row::Field => productions::FIELD_ATTR_STAR_MORE,
            Row::Method => productions::METHOD_ATTR_STAR_MORE,
            Row::Implementation => productions::IMPL_ATTR_STAR_MORE,
            Row::Parameter => productions::PARAM_ATTR_STAR_MORE,
            Row::Property => productions::PROPERTY_ATTR_STAR_MORE,
            Row::Typar => productions::TYPAR_ATTR_STAR_MORE,
        }
    }

    /// The production that ends the row.
    fn end(self) -> u16
        ensures { result ≡ end_of self }
    {
        match self {
            Row::Assembly => productions::ASSEMBLY_ATTR_STAR_END,
            Row::Class => productions::CLASS_ATTR_STAR_END,
            Row::Field => productions::FIELD_ATTR_STAR_END,
            Row::Method => productions::METHOD_ATTR_STAR_END,
            Row::Implementation => productions::IMPL_ATTR_STAR_END,
            Row::Parameter => productions::PARAM_ATTR_STAR_END,
            Row::Property => productions::PROPERTY_ATTR_STAR_END,
            Row::Typar => productions::TYPAR_ATTR_STAR_END,
        }
    }
}

/// The flags that a row of a declaration gives, their lowest 32 bits, from the nodes below its production. They are all of
/// them where each number in the row has 32 bits.
pub fn row_flags(reader: &Reader, row: Row, nodes: &[TreeNode]) -> u32
    requires { IsForest nodes.now }
    ensures { (s : Source) (f : Forest) → Reads reader.now s → preorder f ≡ nodes.now → result ≡ row_flags s row f % 2 ^ 32 }
{
    derivations_are_forests();
    forests_open();
    forests_join();
    let mut left = child(nodes, row.more());
    let mut flags = 0;
    while let Some((node, rest)) = next(left) {
        match node {
            TreeNode::Branch {
                production,
                nodes: count,
            } => {
                if production == row.more() {
                    left = rest;
                } else {
                    let (below, after) = rest.split_at(count as usize);
                    if production == row.end() {
                        left = after;
                    } else {
                        flags = with_flag(reader, row, flags, production, below);
                        left = after;
                    }
                }
            }
            TreeNode::Leaf { .. } => left = rest,
        }
    }
    flags
}

// What a flag makes of the bits before it: a word replaces the bits of its group, `flags(n)` adds its own.
fn with_flag(reader: &Reader, row: Row, flags: u32, production: u16, below: &[TreeNode]) -> u32
    requires { IsForest below.now }
    ensures { (s : Source) (f : Forest) → Reads reader.now s → preorder f ≡ below.now → result ≡ with_flag s (words_of row) flags (part production f) % 2 ^ 32 }
{
    if is_number(below) {
        flags | flags_number(reader, below)
    } else {
        replaced(bits_at(reader, row, production, word_of(below)), flags)
    }
}

// Whether a flag is `flags(n)`. Most flags are a word alone, which is one node.
fn is_number(below: &[TreeNode]) -> bool
    requires { IsForest below.now }
    ensures { (f : Forest) → preorder f ≡ below.now → result ≡ has FLAGS f }
{
    forests_open();
    if let [node] = below {
        if let TreeNode::Leaf { .. } = *node {
            return false;
        }
    }
    has(below, productions::FLAGS)
}

// The word of a flag, which is its last token.
fn word_of(below: &[TreeNode]) -> u32
    requires { IsForest below.now }
    ensures { (f : Forest) → preorder f ≡ below.now → result ≡ last_token f }
{
    forests_open();
    if let [node] = below {
        if let TreeNode::Leaf { token } = *node {
            return token;
        }
    }
    last_token(below)
}

// The number of `flags(n)`, its lowest 32 bits.
fn flags_number(reader: &Reader, nodes: &[TreeNode]) -> u32
    requires { IsForest nodes.now }
    ensures { (s : Source) (f : Forest) → Reads reader.now s → preorder f ≡ nodes.now → result ≡ flags_number s f % 2 ^ 32 }
{
    let flags = the(nodes, productions::FLAGS);
    (natural(reader, leaf_at(flags, 2)) % 0x1_0000_0000) as u32
}

// What the word that a token is stands for.
fn bits_at(reader: &Reader, row: Row, production: u16, token: u32) -> Option<Bits>
    ensures { (s : Source) → Reads reader.now s → Replaces (words_at row production (word_at s token)) result }
{
    let word = reader.word_at(token)?;
    if production == productions::CLASS_ATTR_NESTED {
        let bits = nested_word(word)?;
        Some(bits)
    } else {
        let bits = row.bits(word)?;
        Some(bits)
    }
}

// A word replaces the bits of its group by its value.
fn replaced(bits: Option<Bits>, flags: u32) -> u32
    ensures { (w : Option FlagWord) → Replaces w bits → result ≡ replaced w flags }
{
    match bits {
        None => flags,
        Some(Bits { group, value }) => (flags - (flags & group)) | value,
    }
}
