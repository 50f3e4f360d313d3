//! Names of data and of generic parameters that aren't declared (ECMA-335 II.10.1.7, II.16.3).

ghost use Rattle.std.specs.Prelude.{◌≡◌, ◌++◌, IfOk, true};
ghost use Rattle.il_lexer.specs.declared.types.TokenKind.TheVariants as kind;
ghost use Rattle.source_model.specs.Forest.{Forest, has, preorder};
ghost use Rattle.source_model.specs.Source.{Source};
ghost use Rattle.source_model.specs.TypeRules.{index_undeclared, name_unless_among, typar_undeclared};
ghost use Rattle.source_model.specs.Undeclared.{data_undeclared, key_undeclared, param_type_undeclared, typars_undeclared};
ghost use Rattle.source_nodes.specs.Derived.{HasBodies};
ghost use Rattle.source_nodes.specs.Least.{least};
ghost use Rattle.check_names.specs.Missing.{label_missing};
ghost use Rattle.source_syntax.specs.Namings.{AreNames};
ghost use Rattle.source_nodes.specs.Readers.{IsOf, Reads};
ghost use Rattle.source_nodes.specs.Walk.{IsForest};
ghost use Rattle.source_syntax.specs.declared.name_lists.Naming.TheVariants as naming;

use check_visitor::asking::{Rule, Surrounding, first_at_all};
use il_base::NoMemory;
use ilasm_grammar::TreeNode;
use ilasm_grammar::productions::{
    AT_NAME, INDEX_NAME, MEMBER_PARAM, PARAM_OF_TYPE, TYPAR_KEY_NAME, TYPE_BASE_BANG,
    TYPE_BASE_DOUBLE_BANG,
};
use source_nodes::reader::Reader;
use source_nodes::walk::{has, leaf_at, the};
use source_syntax::declared::Declared;
use source_syntax::name_lists::Named;
use std::alloc::Global;

/// The least label behind `at` that no data of the source has.
pub fn label_undeclared(
    alloc: Global,
    reader: &Reader,
    labels: &Named,
) -> Result<Option<u32>, NoMemory>
    requires { IsForest reader.now.nodes.now }
    ensures { (s : Source) → Reads reader.now s → AreNames s naming.Label labels.now → IfOk result (λ k. k ≡ least (data_undeclared s)) }
{
    let rule = Labels {
        names: &labels.names,
    };
    let first = first_at_all(&rule, alloc, reader)?;
    Ok(first)
}

/// The least name of a generic parameter that the class or the method around it doesn't have.
pub fn typar_undeclared(alloc: Global, reader: &Reader) -> Result<Option<u32>, NoMemory>
    requires { IsForest reader.now.nodes.now }
    ensures { (s : Source) → Reads reader.now s → IfOk result (λ k. k ≡ least (typars_undeclared s)) }
{
    let first = first_at_all(&Typars, alloc, reader)?;
    Ok(first)
}

/// Labels behind `at` are among these.
#[derive(Clone, Copy)]
pub struct Labels<'a> {
    pub names: &'a Declared,
}

impl<'a> Rule for Labels<'a> {
    ghost broken = { λ rule s n. label_missing rule.names.now s n };

    fn first(
        &self,
        alloc: Global,
        reader: &Reader,
        _place: &Surrounding,
        production: u16,
        below: &[TreeNode],
    ) -> Result<Option<u32>, NoMemory> {
        match production {
            AT_NAME => unless_among(alloc, reader, self.names, leaf_at(below, 1)),
            _ => Ok(None),
        }
    }
}

/// Generic parameters that are named are among those of the class or the method around them.
pub struct Typars;

impl Rule for Typars {
    ghost broken = { λ _ s n. typar_undeclared s n ++ param_type_undeclared s n };

    fn first(
        &self,
        alloc: Global,
        reader: &Reader,
        place: &Surrounding,
        production: u16,
        below: &[TreeNode],
    ) -> Result<Option<u32>, NoMemory> {
        match production {
            TYPE_BASE_BANG => index(alloc, reader, place.class_typars, below),
            TYPE_BASE_DOUBLE_BANG => index(alloc, reader, place.method_typars, below),
            MEMBER_PARAM => key(alloc, reader, place.class_typars, below),
            PARAM_OF_TYPE => key(alloc, reader, place.method_typars, below),
            _ => Ok(None),
        }
    }
}

/// The name behind `!` or `!!` that isn't among these.
pub fn index(
    alloc: Global,
    reader: &Reader,
    names: &Declared,
    below: &[TreeNode],
) -> Result<Option<u32>, NoMemory>
    requires { IsForest below.now }
    ensures { (s : Source) (f : Forest) → Reads reader.now s → preorder f ≡ below.now → HasBodies s f →
        IfOk result (λ k. k ≡ least (index_undeclared s names.now f)) }
{
    if has(below, INDEX_NAME) {
        unless_among(alloc, reader, names, leaf_at(the(below, INDEX_NAME), 0))
    } else {
        Ok(None)
    }
}

// The name behind `.param type` that isn't among these.
fn key(
    alloc: Global,
    reader: &Reader,
    names: &Declared,
    below: &[TreeNode],
) -> Result<Option<u32>, NoMemory>
    requires { IsForest below.now }
    ensures { (s : Source) (f : Forest) → Reads reader.now s → preorder f ≡ below.now → HasBodies s f →
        IfOk result (λ k. k ≡ least (key_undeclared s names.now f)) }
{
    if has(below, TYPAR_KEY_NAME) {
        unless_among(alloc, reader, names, leaf_at(the(below, TYPAR_KEY_NAME), 0))
    } else {
        Ok(None)
    }
}

// The token of a name, unless it is among these.
fn unless_among(
    alloc: Global,
    reader: &Reader,
    names: &Declared,
    token: u32,
) -> Result<Option<u32>, NoMemory>
    ensures { (s : Source) → Reads reader.now s → IsOf s kind.Name token → IfOk result (λ k. k ≡ least (name_unless_among s names.now token)) }
{
    let text = reader.name_text(alloc, token)?;
    match names.find(text.as_bytes()) {
        Some(_) => Ok(None),
        None => Ok(Some(token)),
    }
}
