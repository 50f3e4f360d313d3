//! Strings in units of UTF-16 (ECMA-335 II.16.2, II.24.2.4).

ghost use Rattle.std.specs.Prelude.{◌≡◌, IfOk};
ghost use Rattle.ilasm_grammar.specs.declared.productions.TheConstants.{TEXT};
ghost use Rattle.source_model.specs.Constants.{units_in};
ghost use Rattle.source_model.specs.Forest.{Forest, preorder};
ghost use Rattle.source_model.specs.Source.{Source};
ghost use Rattle.source_model.specs.Values.{units, units_of_bytes};
ghost use Rattle.source_nodes.specs.Derived.{FitsBody, HasBodies};
ghost use Rattle.source_nodes.specs.Readers.{Reads};
ghost use Rattle.source_nodes.specs.Walk.{IsForest};

use il_base::{Items, NoMemory, Units};
use ilasm_grammar::TreeNode;
use lower_manifest::texts::text_in;
use source_nodes::reader::Reader;
use std::alloc::Global;

/// A string in units of UTF-16, from what stands below its production.
pub fn units_in(alloc: Global, reader: &Reader, nodes: &[TreeNode]) -> Result<Units, NoMemory>
    requires { IsForest nodes.now }
    ensures { (s : Source) (f : Forest) → Reads reader.now s → preorder f ≡ nodes.now → FitsBody s TEXT f → HasBodies s f → IfOk result (λ all. all ≡ units_in s f) }
{
    let text = text_in(alloc, reader, nodes)?;
    units(alloc, text.as_str())
}

// A text in units of UTF-16.
fn units(alloc: Global, text: &str) -> Result<Units, NoMemory>
    ensures { IfOk result (λ all. all ≡ units text.now) }
{
    let mut all = Items::new(alloc);
    for unit in text.encode_utf16() {
        all.push(unit)?;
    }
    Ok(all)
}

/// Bytes as units of UTF-16, the low byte of each first; a last byte alone is a unit too.
pub fn units_of_bytes(alloc: Global, bytes: &[u8]) -> Result<Units, NoMemory>
    ensures { IfOk result (λ all. all ≡ units_of_bytes bytes.now) }
{
    let mut all = Items::with_capacity(alloc, bytes.len() / 2 + 1)?;
    let mut rest = bytes;
    while let [low, high, more @ ..] = rest {
        all.push(u16::from(*low) + 256 * u16::from(*high))?;
        rest = more;
    }
    if let [low] = rest {
        all.push(u16::from(*low))?;
    }
    Ok(all)
}
