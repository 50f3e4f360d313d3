//! The lines of `.param [n]` among the items of a method, by the numbers of the parameters that they speak of (ECMA-335
//! II.15.4.1.4).

ghost use Rattle.std.specs.Prelude.{◌≡◌, ◌<◌, ◌+◌, IfOk, List, length};
ghost use Rattle.std.specs.List.{AllByRecursion};
ghost use Rattle.ilasm_grammar.specs.declared.productions.TheConstants.{PARAM_OF_BRACKET};
ghost use Rattle.lower_members.specs.NumberedLines.{AllLines, AreNumbered, IsLine, appended, no_lines, with_line};
ghost use Rattle.lower_members.specs.Ranged.{IsBodyItem};
ghost use Rattle.source_model.specs.Forest.{Part};
ghost use Rattle.source_model.specs.Source.{Source};
ghost use Rattle.source_nodes.specs.Pieces.{ArePieces, AreParts, piece_of, written};
ghost use Rattle.source_nodes.specs.Readers.{Reads};

use crate::next_pieces::next;
use il_base::{Items, NoMemory};
use ilasm_grammar::TreeNode;
use ilasm_grammar::productions::{ITEM_INSTRUCTION, PARAM_OF_BRACKET};
use param_lines::capped::natural;
use source_nodes::pieces::{Piece, nodes_of};
use source_nodes::reader::Reader;
use source_nodes::walk::{has, leaf_at, the};
use std::alloc::Global;

/// A line of `.param [n]`, and the items behind it.
#[derive(Clone, Copy, Drop)]
pub struct NumberedLine<'a> {
    pub head: Piece,
    pub more: &'a [Piece],
}

/// The lines that speak of the return value, and of each of so many parameters, from the first on.
pub fn numbered_lines<'a>(
    alloc: Global,
    reader: &Reader,
    count: usize,
    nodes: &[TreeNode],
    found: &'a [Piece],
) -> Result<Vec<Items<NumberedLine<'a>>>, NoMemory>
    requires parts { AreParts nodes.now found.now }
    ensures lines { IfOk result (λ bs. AllLines nodes.now (1 + count) bs.items) }
    ensures numbered { (s : Source) → Reads reader.now s → (ps : List Part) → ArePieces nodes.now found.now ps → AllByRecursion (IsBodyItem s) ps →
        count < 0xFFFFFFFF → IfOk result (λ bs. AreNumbered s nodes.now (1 + count) ps bs.items) }
{
    let mut lines = empty_lists(alloc, count)?;
    let mut rest = found;
    while let Some((head, more)) = next(rest) {
        add_line(&mut lines, reader, nodes, NumberedLine { head, more })?;
        rest = more;
    }
    Ok(lines)
}

// So many lists without lines, and one more.
fn empty_lists<'a>(alloc: Global, count: usize) -> Result<Vec<Items<NumberedLine<'a>>>, NoMemory>
    ensures { IfOk result (λ bs. bs.items ≡ no_lines (1 + count)) }
{
    let mut lists = Vec::new(alloc);
    lists.push(Items::new(alloc))?;
    let mut left = count;
    while left > 0 {
        lists.push(Items::new(alloc))?;
        left -= 1;
    }
    Ok(lists)
}

// Adds an item to the lines of its number, where it is a line of `.param [n]`.
fn add_line<'a>(
    lines: &mut Vec<Items<NumberedLine<'a>>>,
    reader: &Reader,
    nodes: &[TreeNode],
    line: NumberedLine<'a>,
) -> Result<(), NoMemory>
    requires { IsLine nodes.now line }
    ensures lines { AllLines nodes.now (length lines.old.items) lines.old.items → IfOk result (λ _. AllLines nodes.now (length lines.old.items) lines.new.items) }
    ensures numbered { (s : Source) → Reads reader.now s → (p : Part) → piece_of nodes.now line.entry.head ≡ written p → IsBodyItem s p → length lines.old.items < 0x100000000 →
        IfOk result (λ _. lines.new.items ≡ with_line s p line.entry lines.old.items) }
{
    if line.head.production == ITEM_INSTRUCTION {
        return Ok(());
    }
    let below = nodes_of(nodes, line.head);
    if has(below, PARAM_OF_BRACKET) {
        let number = natural(reader, leaf_at(the(below, PARAM_OF_BRACKET), 1));
        append_to(lines, number, line)
    } else {
        Ok(())
    }
}

// Adds a line to the list of a number, where there is one.
fn append_to<'a>(
    lines: &mut Vec<Items<NumberedLine<'a>>>,
    number: u64,
    line: NumberedLine<'a>,
) -> Result<(), NoMemory>
    ensures { IfOk result (λ _. lines.new.items ≡ appended lines.old.items number line.entry) }
{
    if number < lines.len() as u64 {
        lines[number as usize].push(line)
    } else {
        Ok(())
    }
}
