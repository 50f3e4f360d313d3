//! The rows of a method's parameters (ECMA-335 II.15.4, II.15.4.1.4, II.22.33).

ghost use Rattle.std.specs.Prelude.{◌≡◌, ◌<◌, ◌^◌, ◌++◌, ◌||◌, [], None, IfOk, List, fold, length};
ghost use Rattle.std.specs.List.{AllByRecursion};
ghost use Rattle.ilasm_grammar.specs.declared.productions.TheConstants.{NAME_OPT_SOME, PARAM_ATTR_STAR_MORE};
ghost use Rattle.lower_members.specs.NumberedLines.{AreLines, AreRuns, IsLine, IsRun};
ghost use Rattle.lower_members.specs.Parameters.{IsParameter, row_with};
ghost use Rattle.source_flags.specs.InRange.{AllInRange};
ghost use Rattle.source_model.specs.Constants.{constant_of};
ghost use Rattle.source_model.specs.Flags.{flags_of, parameter_flags_in, parameter_words};
ghost use Rattle.source_model.specs.Forest.{Forest, has, is_any_part, preorder};
ghost use Rattle.source_model.specs.Items.{Run, items_and_ends, runs};
ghost use Rattle.source_model.specs.Manifests.{attributes};
ghost use Rattle.source_model.specs.Nodes.{Around};
ghost use Rattle.source_model.specs.Parameters.{attributes_of, has_row, line_constant, parameter_name, params, row, with_line_flags};
ghost use Rattle.source_model.specs.Source.{Source};
ghost use Rattle.source_nodes.specs.Pieces.{ArePieces, AreParts};
ghost use Rattle.source_syntax.specs.Places.{IsAt};
ghost use Rattle.source_nodes.specs.Readers.{Reads};
ghost use Rattle.source_nodes.specs.Walk.{IsForest};

use crate::constants::constant_of;
use crate::numbered_lines::{NumberedLine, numbered_lines};
use assembly_tree::{Attributes, Constant, Param, Params};
use il_base::{Items, NoMemory, Text};
use ilasm_grammar::TreeNode;
use ilasm_grammar::productions::{
    DEF_ARG, DEF_ARGS_OPT_SOME, FLAGS, NAME_OPT_SOME, PARAM_ATTR_STAR_MORE,
};
use lower_manifest::attributes::attributes;
use lower_manifest::runs::run_of;
use source_flags::declared_flags::parameter_flags;
use source_flags::gathering::{Kind, parts_of};
use source_flags::naturals::natural_16;
use source_model::{derivations_are_forests, forests_join, forests_open};
use source_nodes::pieces::{Piece, nodes_of};
use source_nodes::reader::Reader;
use source_nodes::walk::{child, has, leaf_at, next, the};
use source_syntax::place::Place;
use std::alloc::Global;

/// The rows of a method's parameters, from what stands below its production and its items, with the ends of blocks among them.
pub fn params(
    alloc: Global,
    place: &Place,
    nodes: &[TreeNode],
    found: &[Piece],
) -> Result<Params, NoMemory>
    requires forest { IsForest nodes.now }
    requires parts { AreParts nodes.now found.now }
    requires few { length nodes.now < 2 ^ 32 }
    ensures { (s : Source) (a : Around) → IsAt place.now s a → (f : Forest) → preorder f ≡ nodes.now → AllInRange s f →
        ArePieces nodes.now found.now (items_and_ends f) → IfOk result (λ all. all ≡ params s a f (runs (items_and_ends f))) }
{
    let below = child(nodes, DEF_ARGS_OPT_SOME);
    let parameters = parts_of(alloc, below, Kind::One(DEF_ARG))?;
    let lines = numbered_lines(alloc, &place.reader, parameters.len(), nodes, found)?;
    let mut all = Items::new(alloc);
    let mut number: u16 = 0;
    let own = lines[number as usize].as_slice();
    add_row(&mut all, alloc, place, nodes, own, number, &[])?;
    for parameter in parameters.as_slice() {
        number = number.saturating_add(1);
        let own = lines[number as usize].as_slice();
        add_row(
            &mut all,
            alloc,
            place,
            nodes,
            own,
            number,
            nodes_of(below, *parameter),
        )?;
    }
    Ok(all)
}

/// The same of a method without lines that speak of parameters, from what stands below its production.
pub fn params_without_lines(
    alloc: Global,
    place: &Place,
    nodes: &[TreeNode],
) -> Result<Params, NoMemory>
    requires forest { IsForest nodes.now }
    requires few { length nodes.now < 2 ^ 32 }
    ensures { (s : Source) (a : Around) → IsAt place.now s a → (f : Forest) → preorder f ≡ nodes.now → AllInRange s f → IfOk result (λ all. all ≡ params s a f []) }
{
    let below = child(nodes, DEF_ARGS_OPT_SOME);
    if !has_more(below) {
        return Ok(Items::new(alloc));
    }
    let parameters = parts_of(alloc, below, Kind::One(DEF_ARG))?;
    let mut all = Items::new(alloc);
    let mut number: u16 = 0;
    for parameter in parameters.as_slice() {
        number = number.saturating_add(1);
        let of = nodes_of(below, *parameter);
        add_row(&mut all, alloc, place, nodes, &[], number, of)?;
    }
    Ok(all)
}

// Whether there is a name or a flag among the parameters of a method.
fn has_more(nodes: &[TreeNode]) -> bool
    requires { IsForest nodes.now }
    ensures { (f : Forest) → preorder f ≡ nodes.now → result ≡ (has NAME_OPT_SOME f || has PARAM_ATTR_STAR_MORE f) }
{
    derivations_are_forests();
    forests_open();
    forests_join();
    let mut left = nodes;
    while let Some((node, rest)) = next(left) {
        match node {
            TreeNode::Branch { production, .. } => {
                if production == NAME_OPT_SOME {
                    return true;
                }
                if production == PARAM_ATTR_STAR_MORE {
                    return true;
                }
                left = rest;
            }
            TreeNode::Leaf { .. } => left = rest,
        }
    }
    false
}

// Adds the row of a parameter, where more is said of it than its type.
fn add_row(
    all: &mut Params,
    alloc: Global,
    place: &Place,
    nodes: &[TreeNode],
    own: &[NumberedLine],
    number: u16,
    below: &[TreeNode],
) -> Result<(), NoMemory>
    requires lines { AreLines nodes.now own.now }
    requires forest { IsForest below.now }
    requires few { length nodes.now < 2 ^ 32 }
    ensures { (s : Source) (a : Around) → IsAt place.now s a → (f : Forest) (rs : List Run) → preorder f ≡ below.now → IsParameter s f → AllInRange s f →
        AreRuns s nodes.now own.now rs → IfOk result (λ _. all.new ≡ all.old ++ row_with s a number f rs) }
{
    if has_row(own, below) {
        let one = row(alloc, place, nodes, own, number, below)?;
        all.push(one)
    } else {
        Ok(())
    }
}

// Whether a parameter has a name or a flag, or a line speaks of it.
fn has_row(own: &[NumberedLine], below: &[TreeNode]) -> bool
    requires { IsForest below.now }
    ensures { (s : Source) (nodes : List TreeNode) (f : Forest) (rs : List Run) → preorder f ≡ below.now → AllInRange s f → AreRuns s nodes own.now rs →
        result ≡ has_row rs f }
{
    let named = has(below, NAME_OPT_SOME);
    any(named, has_flags(below), !own.is_empty())
}

fn any(a: bool, b: bool, c: bool) -> bool
    ensures { result ≡ (a || b || c) }
{
    a || b || c
}

// Whether a parameter has a flag.
fn has_flags(below: &[TreeNode]) -> bool
    requires { IsForest below.now }
    ensures { (s : Source) (f : Forest) → preorder f ≡ below.now → AllInRange s f → result ≡ is_any_part (parameter_flags_in f) }
{
    !child(below, PARAM_ATTR_STAR_MORE).is_empty()
}

// The row of a parameter.
fn row(
    alloc: Global,
    place: &Place,
    nodes: &[TreeNode],
    own: &[NumberedLine],
    number: u16,
    below: &[TreeNode],
) -> Result<Param, NoMemory>
    requires lines { AreLines nodes.now own.now }
    requires forest { IsForest below.now }
    requires few { length nodes.now < 2 ^ 32 }
    ensures { (s : Source) (a : Around) → IsAt place.now s a → (f : Forest) (rs : List Run) → preorder f ≡ below.now → IsParameter s f → AllInRange s f →
        AreRuns s nodes.now own.now rs → IfOk result (λ p. p ≡ row s a number f rs) }
{
    let reader = &place.reader;
    let name = name(alloc, reader, below)?;
    let flags = with_lines(reader, nodes, own, parameter_flags(reader, below));
    let constant = last_constant(alloc, reader, nodes, own)?;
    let customs = line_customs(alloc, place, nodes, own)?;
    Ok(Param {
        number,
        flags: flags - (flags & 0x1000),
        name,
        constant,
        attributes: customs,
    })
}

// The name of a parameter, which is empty where it has none.
fn name(alloc: Global, reader: &Reader, below: &[TreeNode]) -> Result<Text, NoMemory>
    requires { IsForest below.now }
    ensures { (s : Source) (f : Forest) → Reads reader.now s → preorder f ≡ below.now → IsParameter s f → AllInRange s f → IfOk result (λ text. text ≡ parameter_name s f) }
{
    if has(below, NAME_OPT_SOME) {
        reader.name_text(alloc, leaf_at(child(below, NAME_OPT_SOME), 0))
    } else {
        Text::new(alloc, "")
    }
}

// The flags of a parameter, and those that lines add to them.
fn with_lines(reader: &Reader, nodes: &[TreeNode], own: &[NumberedLine], declared: u16) -> u16
    requires { AreLines nodes.now own.now }
    ensures { (s : Source) (rs : List Run) → Reads reader.now s → AreRuns s nodes.now own.now rs → result ≡ fold (with_line_flags s) declared rs }
{
    let mut flags = declared;
    for line in own {
        flags = with_line_flags(reader, nodes, *line, flags);
    }
    flags
}

// Flags, and those that a line adds to them.
fn with_line_flags(reader: &Reader, nodes: &[TreeNode], line: NumberedLine, flags: u16) -> u16
    requires { IsLine nodes.now line }
    ensures { (s : Source) (r : Run) → Reads reader.now s → IsRun s nodes.now line.entry r → result ≡ with_line_flags s flags r }
{
    let below = nodes_of(nodes, line.head);
    if has(below, FLAGS) {
        flags | natural_16(reader, leaf_at(the(below, FLAGS), 2))
    } else {
        flags
    }
}

// The constant of the last line that says one.
fn last_constant(
    alloc: Global,
    reader: &Reader,
    nodes: &[TreeNode],
    own: &[NumberedLine],
) -> Result<Option<Constant>, NoMemory>
    requires { AreLines nodes.now own.now }
    ensures { (s : Source) (rs : List Run) → Reads reader.now s → AreRuns s nodes.now own.now rs → IfOk result (λ c. c ≡ fold (line_constant s) None rs) }
{
    let mut last = None;
    for line in own {
        last = line_constant(alloc, reader, nodes, *line, last)?;
    }
    Ok(last)
}

// The constant of a line; where it says none, the one before.
fn line_constant(
    alloc: Global,
    reader: &Reader,
    nodes: &[TreeNode],
    line: NumberedLine,
    before: Option<Constant>,
) -> Result<Option<Constant>, NoMemory>
    requires { IsLine nodes.now line }
    ensures { (s : Source) (r : Run) → Reads reader.now s → IsRun s nodes.now line.entry r → IfOk result (λ c. c ≡ line_constant s before r) }
{
    let own = constant_of(alloc, reader, nodes_of(nodes, line.head))?;
    match own {
        None => Ok(before),
        Some(constant) => Ok(Some(constant)),
    }
}

// The attributes that lines give a parameter.
fn line_customs(
    alloc: Global,
    place: &Place,
    nodes: &[TreeNode],
    own: &[NumberedLine],
) -> Result<Attributes, NoMemory>
    requires lines { AreLines nodes.now own.now }
    requires few { length nodes.now < 2 ^ 32 }
    ensures { (s : Source) (a : Around) → IsAt place.now s a → (rs : List Run) → AreRuns s nodes.now own.now rs → IfOk result (λ all. all ≡ attributes_of s a rs) }
{
    let mut all = Items::new(alloc);
    for line in own {
        let customs = customs_of(alloc, place, nodes, *line)?;
        all.append(customs)?;
    }
    Ok(all)
}

// The attributes behind a line.
fn customs_of(
    alloc: Global,
    place: &Place,
    nodes: &[TreeNode],
    line: NumberedLine,
) -> Result<Attributes, NoMemory>
    requires line { IsLine nodes.now line }
    requires few { length nodes.now < 2 ^ 32 }
    ensures { (s : Source) (a : Around) → IsAt place.now s a → (r : Run) → IsRun s nodes.now line.entry r → IfOk result (λ all. all ≡ attributes s a r.customs) }
{
    attributes(alloc, place, nodes, run_of(line.more))
}
