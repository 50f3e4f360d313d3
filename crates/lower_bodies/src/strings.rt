//! The strings of instructions, in units of UTF-16 (ECMA-335 II.16.2, III.4.16).

ghost use Rattle.std.specs.Prelude.{◌≡◌, ◌++◌, IfOk, OnOk};
ghost use Rattle.std.specs.Char.Escape.{encode_utf16};
ghost use Rattle.ilasm_grammar.specs.declared.productions.TheConstants.{INSTRUCTION_LDSTR, TEXT};
ghost use Rattle.il_lexer.specs.declared.types.TokenKind.TheVariants.{ByteArray};
ghost use Rattle.source_model.specs.Constants.{units_in};
ghost use Rattle.source_model.specs.Forest.{Forest, preorder};
ghost use Rattle.source_model.specs.Operands.{string_units};
ghost use Rattle.source_model.specs.Source.{Source};
ghost use Rattle.source_model.specs.Values.{array_bytes, units, units_of_bytes};
ghost use Rattle.source_nodes.specs.Derived.{FitsBody, HasBodies};
ghost use Rattle.source_nodes.specs.Readers.{IsOf, Reads};
ghost use Rattle.source_nodes.specs.Walk.{IsForest};

use il_base::{Items, NoMemory, Units};
use ilasm_grammar::TreeNode;
use ilasm_grammar::productions::{STRING_OPERAND_BYTES, STRING_OPERAND_TEXT, TEXT};
use lower_manifest::texts::text_in;
use source_nodes::reader::Reader;
use source_nodes::walk::{has, leaf_at, the};
use std::alloc::Global;

/// The units of the string of an instruction, from the nodes below its production: those of a text, or those that bytes spell.
pub fn string_units(alloc: Global, reader: &Reader, nodes: &[TreeNode]) -> Result<Units, NoMemory>
    requires { IsForest nodes.now }
    ensures { (s : Source) (f : Forest) → Reads reader.now s → FitsBody s INSTRUCTION_LDSTR f → HasBodies s f → preorder f ≡ nodes.now →
        IfOk result (λ all. all ≡ string_units s f) }
{
    if has(nodes, STRING_OPERAND_TEXT) {
        units_in(alloc, reader, the(the(nodes, STRING_OPERAND_TEXT), TEXT))
    } else {
        array_units(alloc, reader, leaf_at(the(nodes, STRING_OPERAND_BYTES), 0))
    }
}

// The units of a text, from the nodes below its production.
fn units_in(alloc: Global, reader: &Reader, nodes: &[TreeNode]) -> Result<Units, NoMemory>
    requires { IsForest nodes.now }
    ensures { (s : Source) (f : Forest) → Reads reader.now s → preorder f ≡ nodes.now → FitsBody s TEXT f → HasBodies s f → IfOk result (λ all. all ≡ units_in s f) }
{
    let text = text_in(alloc, reader, nodes)?;
    units(alloc, text.as_str())
}

// A text in units of UTF-16.
fn units(alloc: Global, text: &str) -> Result<Units, NoMemory>
    ensures { IfOk result (λ all. all ≡ units text.now) }
{
    let mut all = Items::new(alloc);
    for c in text.chars() {
        push_units(&mut all, c)?;
    }
    Ok(all)
}

// Pushes the one or two units of a character.
fn push_units(all: &mut Units, c: char) -> Result<(), NoMemory>
    ensures { OnOk result (all.new ≡ all.old ++ encode_utf16 c) }
{
    let code = c as u32;
    if code < 0x1_0000 {
        all.push(code as u16)
    } else {
        let over = code - 0x1_0000;
        all.push((0xD800 + over / 0x400) as u16)?;
        all.push((0xDC00 + over % 0x400) as u16)
    }
}

// The units that the bytes of `bytearray ( .. )` spell.
fn array_units(alloc: Global, reader: &Reader, token: u32) -> Result<Units, NoMemory>
    ensures { (s : Source) → Reads reader.now s → IsOf s ByteArray token → IfOk result (λ all. all ≡ units_of_bytes (array_bytes s token)) }
{
    let bytes = reader.array_bytes(alloc, token)?;
    units_of_bytes(alloc, bytes.as_slice())
}

// Bytes as units of UTF-16, the low byte of each first; a last byte without a partner is a unit too.
fn units_of_bytes(alloc: Global, bytes: &[u8]) -> Result<Units, NoMemory>
    ensures { IfOk result (λ all. all ≡ units_of_bytes bytes.now) }
{
    let mut all = Items::with_capacity(alloc, bytes.len() / 2 + 1)?;
    let mut rest = bytes;
    while let [low, high, more @ ..] = rest {
        all.push(u16::from(*low) + 256 * u16::from(*high))?;
        rest = more;
    }
    if let [low] = rest {
        all.push(u16::from(*low))?;
    }
    Ok(all)
}
