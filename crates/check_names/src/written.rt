//! Types' names as they are written: the tokens of their assemblies and of the names of their paths (ECMA-335 II.7.3, II.8.5.2).

ghost use Rattle.std.specs.Prelude.{◌≡◌, ℕ, IfOk, Some};
ghost use Rattle.source_model.specs.Forest.{Forest, preorder};
ghost use Rattle.source_model.specs.Names.{name_and_tail, path_tokens, with_scope, without_scope, written_name};
ghost use Rattle.source_nodes.specs.Walk.{IsForest};
ghost use Rattle.check_names.specs.WrittenTypes.{any_written};

use il_base::{Items, NoMemory};
use ilasm_grammar::TreeNode;
use ilasm_grammar::productions::{
    FIELD_TAIL_DOUBLE_COLON, FIELD_TAIL_SLASH, FIELD_TARGET_NAME, FIELD_TARGET_SCOPE,
    NAME_TAIL_DOUBLE_COLON, NAME_TAIL_SLASH, PATH, TARGET_NAME, TARGET_SCOPE, TYPE_NAME_PATH,
    TYPE_NAME_SCOPE,
};
use source_nodes::walk::{child, has, leaf_at};
use source_syntax::name_lists::{Naming, name_tokens};
use std::alloc::Global;

/// The token of the assembly's name in brackets, where there is one, and those of the names of the path.
#[derive(Drop)]
pub struct WrittenName {
    pub scope: Option<u32>,
    pub path: Items<u32>,
}

/// The type's name that a production begins with, where it has one of its own.
pub fn written_name(
    alloc: Global,
    production: u16,
    below: &[TreeNode],
) -> Result<Option<WrittenName>, NoMemory>
    requires { IsForest below.now }
    ensures { (f : Forest) → preorder f ≡ below.now → IfOk result (λ w. any_written w ≡ written_name production f) }
{
    match production {
        TYPE_NAME_SCOPE | TARGET_SCOPE | FIELD_TARGET_SCOPE => with_scope(alloc, below),
        TYPE_NAME_PATH => without_scope(alloc, below),
        TARGET_NAME => with_tail(alloc, below, NAME_TAIL_SLASH, NAME_TAIL_DOUBLE_COLON),
        FIELD_TARGET_NAME => with_tail(alloc, below, FIELD_TAIL_SLASH, FIELD_TAIL_DOUBLE_COLON),
        _ => Ok(None),
    }
}

fn with_scope(alloc: Global, below: &[TreeNode]) -> Result<Option<WrittenName>, NoMemory>
    requires { IsForest below.now }
    ensures { (f : Forest) → preorder f ≡ below.now → IfOk result (λ w. any_written w ≡ Some (with_scope f)) }
{
    let path = path_tokens(alloc, child(below, PATH))?;
    let scope = Some(leaf_at(below, 0));
    Ok(Some(WrittenName { scope, path }))
}

fn without_scope(alloc: Global, below: &[TreeNode]) -> Result<Option<WrittenName>, NoMemory>
    requires { IsForest below.now }
    ensures { (f : Forest) → preorder f ≡ below.now → IfOk result (λ w. any_written w ≡ Some (without_scope f)) }
{
    let path = path_tokens(alloc, child(below, PATH))?;
    Ok(Some(WrittenName { scope: None, path }))
}

// A name with what may follow it in a reference: more names, or `::`; else it is no type's name.
fn with_tail(
    alloc: Global,
    below: &[TreeNode],
    slash: u16,
    double_colon: u16,
) -> Result<Option<WrittenName>, NoMemory>
    requires { IsForest below.now }
    ensures { (f : Forest) → preorder f ≡ below.now → IfOk result (λ w. any_written w ≡ name_and_tail slash double_colon f) }
{
    if has(below, slash) {
        let mut path = Items::new(alloc);
        path.push(leaf_at(below, 0))?;
        let more = path_tokens(alloc, child(child(below, slash), PATH))?;
        path.append(more)?;
        return Ok(Some(WrittenName { scope: None, path }));
    }
    if has(below, double_colon) {
        let mut path = Items::new(alloc);
        path.push(leaf_at(below, 0))?;
        return Ok(Some(WrittenName { scope: None, path }));
    }
    Ok(None)
}

// The tokens of the names of a path.
fn path_tokens(alloc: Global, path: &[TreeNode]) -> Result<Items<u32>, NoMemory>
    requires { IsForest path.now }
    ensures { (f : Forest) → preorder f ≡ path.now → IfOk result (λ tokens. tokens ≡ path_tokens f) }
{
    let mut tokens = Items::new(alloc);
    tokens.push(leaf_at(path, 0))?;
    let more = name_tokens(alloc, path, Naming::Slash)?;
    tokens.append(more)?;
    Ok(tokens)
}
