//! The attributes that lines of `.param type` give generic parameters (ECMA-335 II.10.1.7, II.21).

ghost use Rattle.std.specs.Prelude.{◌≡◌, ◌<◌, ◌^◌, IfOk, List, length};
ghost use Rattle.std.specs.List.{AllByRecursion};
ghost use Rattle.lower_members.specs.GivenAttributes.{AreGiven, none_given, with_line};
ghost use Rattle.lower_members.specs.ParamLines.{appended};
ghost use Rattle.lower_members.specs.Ranged.{IsRangedItem};
ghost use Rattle.source_model.specs.Forest.{Part};
ghost use Rattle.source_model.specs.Nodes.{Around};
ghost use Rattle.source_model.specs.Source.{Source};
ghost use Rattle.source_nodes.specs.Pieces.{ArePieces, AreParts, nodes_of, piece_of, written};
ghost use Rattle.source_syntax.specs.Places.{IsAt};
ghost use Rattle.source_nodes.specs.Walk.{IsForest};

use crate::next_pieces::next;
use assembly_tree::Attributes;
use il_base::{Items, NoMemory};
use ilasm_grammar::TreeNode;
use lower_manifest::attributes::attributes;
use lower_manifest::runs::run_of;
use param_lines::typar_lines::{is_typar_line, typar_number};
use source_nodes::pieces::{Piece, nodes_of};
use source_syntax::declared::Declared;
use source_syntax::place::Place;
use std::alloc::Global;

/// The attributes that the lines among these items or members give each of these generic parameters, from the last to the first.
pub fn line_attributes(
    alloc: Global,
    place: &Place,
    names: &Declared,
    nodes: &[TreeNode],
    found: &[Piece],
) -> Result<Vec<Attributes>, NoMemory>
    requires parts { AreParts nodes.now found.now }
    requires few { length nodes.now < 2 ^ 32 }
    ensures { (s : Source) (a : Around) → IsAt place.now s a → (ps : List Part) → ArePieces nodes.now found.now ps → AllByRecursion (IsRangedItem s) ps →
        length names.now < 2 ^ 32 → IfOk result (λ bs. AreGiven s a names.now ps bs.items) }
{
    if names.len() == 0 {
        return Ok(Vec::new(alloc));
    }
    let mut given = empty_lists(alloc, names.len())?;
    let mut rest = found;
    while let Some((head, more)) = next(rest) {
        add_line(&mut given, alloc, place, names, nodes, head, more)?;
        rest = more;
    }
    Ok(given)
}

// So many lists without attributes.
fn empty_lists(alloc: Global, count: usize) -> Result<Vec<Attributes>, NoMemory>
    ensures { IfOk result (λ bs. bs.items ≡ none_given count) }
{
    let mut lists = Vec::with_capacity(alloc, count)?;
    let mut left = count;
    while left > 0 {
        lists.push(Items::new(alloc))?;
        left -= 1;
    }
    Ok(lists)
}

// Adds the attributes behind an item or a member, where it is a line of `.param type`.
fn add_line(
    given: &mut Vec<Attributes>,
    alloc: Global,
    place: &Place,
    names: &Declared,
    nodes: &[TreeNode],
    head: Piece,
    more: &[Piece],
) -> Result<(), NoMemory>
    requires head { IsForest (nodes_of nodes.now head) }
    requires parts { AreParts nodes.now more.now }
    requires few { length nodes.now < 2 ^ 32 }
    ensures { (s : Source) (a : Around) → IsAt place.now s a → (p : Part) (ps : List Part) → piece_of nodes.now head ≡ written p → ArePieces nodes.now more.now ps →
        IsRangedItem s p → AllByRecursion (IsRangedItem s) ps → length names.now < 2 ^ 32 → length given.old.items < 2 ^ 32 →
        IfOk result (λ _. given.new.items ≡ with_line s a names.now p ps given.old.items) }
{
    let below = nodes_of(nodes, head);
    if is_typar_line(head.production, below) {
        let number = typar_number(alloc, &place.reader, names, below)?;
        let customs = attributes(alloc, place, nodes, run_of(more))?;
        append_to(given, number, customs)
    } else {
        Ok(())
    }
}

// Adds attributes to the list of a number, where there is one.
fn append_to(given: &mut Vec<Attributes>, number: u64, more: Attributes) -> Result<(), NoMemory>
    ensures { IfOk result (λ _. given.new.items ≡ appended given.old.items number more) }
{
    if number < given.len() as u64 {
        let place = given.len() - 1 - number as usize;
        given[place].append(more)
    } else {
        Ok(())
    }
}
