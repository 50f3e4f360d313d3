//! The classes of a source by their paths, and those that stand there twice (ECMA-335 II.10, II.10.8).

ghost use Rattle.std.specs.Prelude.{◌≡◌, ℕ, ◌++◌, ◌∷◌, [], IfOk, List, Some};
ghost use Rattle.il_lexer.specs.declared.types.TokenKind.TheVariants as kind;
ghost use Rattle.type_terms.specs.declared.name.TypeId.{TypeId};
ghost use Rattle.source_model.specs.Forest.{Forest, preorder};
ghost use Rattle.source_model.specs.Names.{module_id};
ghost use Rattle.source_model.specs.Nodes.{type_id};
ghost use Rattle.source_model.specs.Source.{Source};
ghost use Rattle.source_syntax.specs.ClassNumbers.{IsNumber, Knows, class_numbered};
ghost use Rattle.check_names.specs.DeclaredClasses.{AreAdded, AreClasses, IsEntered, Kept};
ghost use Rattle.source_nodes.specs.Derived.{HasBodies};
ghost use Rattle.source_nodes.specs.Readers.{IsOf, Reads};
ghost use Rattle.source_nodes.specs.Walk.{IsForest};

use il_base::{NoMemory, Text};
use ilasm_grammar::{TreeNode, productions};
use source_model::{derivations_are_forests, forests_join, forests_open};
use source_nodes::derived::derivations_have_bodies;
use source_nodes::least::sooner;
use source_nodes::reader::Reader;
use source_nodes::walk::{leaf_at, next};
use source_syntax::class_paths::ClassPaths;
use std::alloc::Global;
use type_terms::TypeId;

/// The classes of a source by their paths, and the least of their names whose path is that of an earlier one, or of the class
/// that needs no declaration.
#[derive(Drop)]
pub struct Classes {
    pub paths: ClassPaths,
    pub again: Option<u32>,
}

/// The number of a class, and the token of its name where its path was there already.
#[derive(Debug, Clone, Copy, Drop)]
pub struct Entered {
    pub number: usize,
    pub again: Option<u32>,
}

/// The classes of a source.
pub fn collect_classes(alloc: Global, reader: &Reader) -> Result<Classes, NoMemory>
    requires { IsForest reader.now.nodes.now }
    ensures { (s : Source) → Reads reader.now s → IfOk result (λ c. AreClasses s c) }
{
    derivations_have_bodies();
    let mut paths = ClassPaths::new(alloc);
    let module = module_id(alloc)?;
    paths.push(0, module)?;
    let again = add_classes(&mut paths, alloc, reader, 0, reader.nodes)?;
    Ok(Classes { paths, again })
}

// The name of the class that holds what is declared outside of any class.
fn module_id(alloc: Global) -> Result<TypeId, NoMemory>
    ensures { IfOk result (λ id. id ≡ module_id) }
{
    let space = Text::new(alloc, "")?;
    let name = Text::new(alloc, "<Module>")?;
    Ok(TypeId { space, name })
}

// Adds the classes of a forest that stands in the class of a number; the least of their names whose path is there already. Below
// methods none stand.
fn add_classes(
    paths: &mut ClassPaths,
    alloc: Global,
    reader: &Reader,
    outer: usize,
    nodes: &[TreeNode],
) -> Result<Option<u32>, NoMemory>
    requires forest { IsForest nodes.now }
    requires within { IsNumber paths.old outer }
    ensures added { (s : Source) (path : List TypeId) (f : Forest) (seen : List (List TypeId)) → Reads reader.now s → preorder f ≡ nodes.now → HasBodies s f →
        class_numbered paths.old path ≡ Some outer → Knows paths.old seen → IfOk result (λ first. AreAdded s path f seen paths.new first) }
    ensures kept { IfOk result (λ _. Kept paths.old paths.new) }
{
    derivations_are_forests();
    forests_open();
    forests_join();
    let mut left = nodes;
    let mut found = None;
    while let Some((node, rest)) = next(left) {
        match node {
            TreeNode::Branch {
                production,
                nodes: count,
            } => {
                let (below, after) = rest.split_at(count as usize);
                if production == productions::CLASS {
                    let class = enter(paths, alloc, reader, outer, leaf_at(below, 1))?;
                    let within = add_classes(paths, alloc, reader, class.number, below)?;
                    found = sooner(found, sooner(class.again, within));
                    left = after;
                } else if production == productions::METHOD {
                    left = after;
                } else {
                    left = rest;
                }
            }
            TreeNode::Leaf { .. } => left = rest,
        }
    }
    Ok(found)
}

// Enters the class with this name in the class of a number.
fn enter(
    paths: &mut ClassPaths,
    alloc: Global,
    reader: &Reader,
    outer: usize,
    token: u32,
) -> Result<Entered, NoMemory>
    requires { IsNumber paths.old outer }
    ensures entered { (s : Source) (path : List TypeId) (seen : List (List TypeId)) → Reads reader.now s → IsOf s kind.Name token →
        class_numbered paths.old path ≡ Some outer → Knows paths.old seen → IfOk result (λ e. IsEntered seen (path ++ type_id s token ∷ []) token paths.new e) }
    ensures kept { IfOk result (λ _. Kept paths.old paths.new) }
    ensures number { IfOk result (λ e. IsNumber paths.new e.number) }
{
    let id = reader.type_id(alloc, token)?;
    match paths.child(outer, &id) {
        Some(number) => Ok(Entered {
            number,
            again: Some(token),
        }),
        None => {
            paths.push(outer, id)?;
            Ok(Entered {
                number: paths.len(),
                again: None,
            })
        }
    }
}
