//! Classes and paths that nest deeper than 100 (ECMA-335 II.7.3, II.10.6).

ghost use Rattle.std.specs.Prelude.{◌≡◌, ℕ, ◌++◌, IfOk};
ghost use Rattle.source_model.specs.Forest.{Forest, preorder};
ghost use Rattle.source_model.specs.Names.{name_and_tail, path_tokens};
ghost use Rattle.source_model.specs.Nodes.{Node};
ghost use Rattle.source_model.specs.OutOfRange.{class_too_deep, nestings_too_deep};
ghost use Rattle.source_model.specs.Source.{Source};
ghost use Rattle.source_model.specs.TypeRules.{past_100_names, path_too_long, path_too_long_in};
ghost use Rattle.source_nodes.specs.Least.{least};
ghost use Rattle.check_visitor.specs.Surroundings.{IsNode};
ghost use Rattle.source_nodes.specs.Readers.{Reads};
ghost use Rattle.source_nodes.specs.Walk.{IsForest};

use check_visitor::asking::{Rule, Surrounding, first_at_all};
use il_base::NoMemory;
use ilasm_grammar::{TreeNode, productions};
use source_nodes::least::sooner;
use source_nodes::reader::Reader;
use source_nodes::walk::{child, count, has, leaf_at};
use std::alloc::Global;

/// The least name of a class, or first name of a path, that nests deeper than 100.
pub fn nesting_too_deep(alloc: Global, reader: &Reader) -> Result<Option<u32>, NoMemory>
    requires { IsForest reader.now.nodes.now }
    ensures { (s : Source) → Reads reader.now s → IfOk result (λ k. k ≡ least (nestings_too_deep s)) }
{
    let first = first_at_all(&Nestings, alloc, reader)?;
    Ok(first)
}

/// Classes and paths that nest deeper than 100.
pub struct Nestings;

impl Rule for Nestings {
    ghost broken = { λ _ s n. class_too_deep n ++ path_too_long n };

    fn first(
        &self,
        alloc: Global,
        _reader: &Reader,
        place: &Surrounding,
        production: u16,
        below: &[TreeNode],
    ) -> Result<Option<u32>, NoMemory> {
        let class = deep_class(place, production, below);
        let path = long_path(alloc, production, below)?;
        Ok(sooner(class, path))
    }
}

/// The name of a class that nests too deep.
pub fn deep_class(place: &Surrounding, production: u16, below: &[TreeNode]) -> Option<u32>
    requires { IsForest below.now }
    ensures { (n : Node) → IsNode place.now production below.now n → result ≡ least (class_too_deep n) }
{
    if production == productions::CLASS && place.depth > 100 {
        Some(leaf_at(below, 1))
    } else {
        None
    }
}

/// The first name of a path that is too long, where this production begins with one.
pub fn long_path(
    alloc: Global,
    production: u16,
    below: &[TreeNode],
) -> Result<Option<u32>, NoMemory>
    requires { IsForest below.now }
    ensures { (n : Node) → n.production ≡ production → preorder n.below ≡ below.now → IfOk result (λ k. k ≡ least (path_too_long n)) }
{
    match production {
        productions::TYPE_NAME_SCOPE
        | productions::TARGET_SCOPE
        | productions::FIELD_TARGET_SCOPE
        | productions::TYPE_NAME_PATH => {
            let first = long_names(alloc, child(below, productions::PATH))?;
            Ok(first)
        }
        productions::TARGET_NAME => {
            let first = long_tail(alloc, below, productions::NAME_TAIL_SLASH)?;
            Ok(first)
        }
        productions::FIELD_TARGET_NAME => {
            let first = long_tail(alloc, below, productions::FIELD_TAIL_SLASH)?;
            Ok(first)
        }
        _ => Ok(None),
    }
}

// The first name of a path that is too long.
fn long_names(alloc: Global, path: &[TreeNode]) -> Result<Option<u32>, NoMemory>
    requires { IsForest path.now }
    ensures { (f : Forest) → preorder f ≡ path.now → IfOk result (λ k. k ≡ least (past_100_names (path_tokens f))) }
{
    let more = count(alloc, path, productions::SLASH_NAME)?;
    if more > 99 {
        Ok(Some(leaf_at(path, 0)))
    } else {
        Ok(None)
    }
}

// The same of a name in a reference and the names behind it.
fn long_tail(alloc: Global, nodes: &[TreeNode], slash: u16) -> Result<Option<u32>, NoMemory>
    requires { IsForest nodes.now }
    ensures { (double_colon : ℕ) (f : Forest) → preorder f ≡ nodes.now → IfOk result (λ k. k ≡ least (path_too_long_in (name_and_tail slash double_colon f))) }
{
    if !has(nodes, slash) {
        return Ok(None);
    }
    let more = count(
        alloc,
        child(child(nodes, slash), productions::PATH),
        productions::SLASH_NAME,
    )?;
    if more > 98 {
        Ok(Some(leaf_at(nodes, 0)))
    } else {
        Ok(None)
    }
}
