//! Strings, whose pieces `+` joins (ECMA-335 II.5.2, II.16.2).

ghost use Rattle.std.specs.Prelude.{◌≡◌, ◌++◌, IfOk, IsUtf8};
ghost use Rattle.lower_manifest.specs.Texts.{later_bytes, piece_bytes};
ghost use Rattle.il_lexer.specs.declared.types.TokenKind.TheVariants.{QString};
ghost use Rattle.ilasm_grammar.specs.declared.productions.TheConstants.{TEXT};
ghost use Rattle.source_model.specs.Constants.{text_in};
ghost use Rattle.source_model.specs.Forest.{Forest, preorder};
ghost use Rattle.source_model.specs.Source.{Source};
ghost use Rattle.source_nodes.specs.Derived.{FitsBody, HasBodies};
ghost use Rattle.source_nodes.specs.Readers.{IsOf, Reads};
ghost use Rattle.source_nodes.specs.Walk.{IsForest};

use il_base::{Bytes, NoMemory, Text};
use il_lexer::{the_longest_spelling_is_taken, tokens_are_spellings};
use ilasm_grammar::TreeNode;
use ilasm_grammar::productions::PLUS_STRING;
use source_model::forests_join;
use source_nodes::reader::Reader;
use source_nodes::values::texts::push_string;
use source_nodes::walk::{is_of, leaf_at, open};
use std::alloc::Global;
use std::str;

/// A string in UTF-8, from what stands below its production.
pub fn text_in(alloc: Global, reader: &Reader, nodes: &[TreeNode]) -> Result<Text, NoMemory>
    requires { IsForest nodes.now }
    ensures { (s : Source) (f : Forest) → Reads reader.now s → preorder f ≡ nodes.now → FitsBody s TEXT f → HasBodies s f → IfOk result (λ text. text ≡ text_in s f) }
{
    the_longest_spelling_is_taken();
    tokens_are_spellings();
    let first = first_piece(alloc, reader, leaf_at(nodes, 0))?;
    let bytes = with_pieces(reader, nodes, first)?;
    text_of(alloc, bytes.as_slice())
}

// Bytes as a text, where they are UTF-8; no others come here.
fn text_of(alloc: Global, bytes: &[u8]) -> Result<Text, NoMemory>
    ensures { IsUtf8 bytes.now → IfOk result (λ text. text ≡ bytes.now) }
{
    match str::from_utf8(bytes) {
        Ok(text) => Text::new(alloc, text),
        Err(_) => Text::new(alloc, ""),
    }
}

// The bytes of one piece.
fn first_piece(alloc: Global, reader: &Reader, token: u32) -> Result<Bytes, NoMemory>
    ensures { (s : Source) → Reads reader.now s → IsOf s QString token → IfOk result (λ bytes. bytes ≡ piece_bytes s token) }
{
    let mut bytes = Bytes::new(alloc);
    push_piece(&mut bytes, reader, token)?;
    Ok(bytes)
}

// Adds the bytes of a piece.
fn push_piece(bytes: &mut Bytes, reader: &Reader, token: u32) -> Result<(), NoMemory>
    ensures { (s : Source) → Reads reader.now s → IsOf s QString token → IfOk result (λ _. bytes.new ≡ bytes.old ++ piece_bytes s token) }
{
    push_string(bytes, reader.spelling(token))
}

// The bytes of a string, from those of its first piece.
fn with_pieces(reader: &Reader, nodes: &[TreeNode], first: Bytes) -> Result<Bytes, NoMemory>
    requires { IsForest nodes.now }
    ensures { (s : Source) (f : Forest) → Reads reader.now s → preorder f ≡ nodes.now → HasBodies s f → IfOk result (λ bytes. bytes ≡ first ++ later_bytes s f) }
{
    forests_join();
    let mut found = first;
    let mut left = nodes;
    while let Some(x) = open(left) {
        if is_of(x.node, PLUS_STRING) {
            push_piece(&mut found, reader, leaf_at(x.below, 1))?;
            left = x.after;
        } else {
            left = x.behind;
        }
    }
    Ok(found)
}
