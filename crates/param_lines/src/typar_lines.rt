//! Lines of `.param type`: of what they speak (ECMA-335 II.10.1.7, II.15.4.1.4).

ghost use Rattle.std.specs.Prelude.{◌≡◌, ◌<◌, ◌^◌, IfOk, length, min, true};
ghost use Rattle.param_lines.specs.Ranged.{IsRanged};
ghost use Rattle.source_model.specs.Forest.{Forest, Part, preorder};
ghost use Rattle.source_model.specs.Parameters.{is_typar_line, typar_number};
ghost use Rattle.source_model.specs.Source.{Source};
ghost use Rattle.source_model.specs.Types.{number_of};
ghost use Rattle.source_nodes.specs.Readers.{Reads};
ghost use Rattle.source_nodes.specs.Walk.{IsForest};

use crate::capped::natural;
use il_base::NoMemory;
use ilasm_grammar::TreeNode;
use ilasm_grammar::productions::{
    ITEM_PARAM, MEMBER_PARAM, PARAM_OF_TYPE, TYPAR_KEY_BRACKET, TYPAR_KEY_NAME,
};
use source_nodes::reader::Reader;
use source_nodes::walk::{has, leaf_at, the};
use source_syntax::declared::Declared;
use std::alloc::Global;

/// Whether an item or a member is a line of `.param type` itself, whatever stands in it.
pub fn is_typar_line(production: u16, below: &[TreeNode]) -> bool
    requires { IsForest below.now }
    ensures { (p : Part) → production ≡ p.production → preorder p.below ≡ below.now → result ≡ is_typar_line p }
{
    production == MEMBER_PARAM || (production == ITEM_PARAM && has(below, PARAM_OF_TYPE))
}

/// Of which of these generic parameters a line speaks, by its number, counted from 0, or by its name; counted up to 2^32 - 1.
pub fn typar_number(
    alloc: Global,
    reader: &Reader,
    names: &Declared,
    below: &[TreeNode],
) -> Result<u64, NoMemory>
    requires { IsForest below.now }
    ensures { (s : Source) (p : Part) → Reads reader.now s → preorder p.below ≡ below.now → is_typar_line p ≡ true → IsRanged s p → length names.now < 2 ^ 32 →
        IfOk result (λ n. n ≡ min (typar_number s names.now p.below) 0xFFFFFFFF) }
{
    if has(below, TYPAR_KEY_BRACKET) {
        let number = natural(reader, leaf_at(the(below, TYPAR_KEY_BRACKET), 1));
        return Ok(number.saturating_sub(1));
    }
    let name = reader.name_text(alloc, leaf_at(the(below, TYPAR_KEY_NAME), 0))?;
    Ok(number_of(names, name.as_bytes()))
}

// The number of the first of the names that is the text; that of the names where none is.
fn number_of(names: &Declared, text: &[u8]) -> u64
    ensures { result ≡ number_of names.now text.now }
{
    match names.find(text) {
        Some(k) => k as u64,
        None => names.len() as u64,
    }
}
