//! The class sizes of the classes of a source, found by their paths (ECMA-335 II.10.7, II.22.8).

ghost use Rattle.std.specs.Prelude.{◌≡◌, ◌++◌, IfOk, List, Some, slice_get};
ghost use Rattle.il_lexer.specs.declared.types.TokenKind.TheVariants as kind;
ghost use Rattle.type_terms.specs.declared.name.TypeId.{TypeId};
ghost use Rattle.assembly_tree.specs.DataSize.{is_id};
ghost use Rattle.check_data.specs.DeclaredSizes.{AreFilled, AreKnown, AreSizes, AreUnknown, ClassSize, filled, is_unknown, size_list, size_numbered};
ghost use Rattle.source_model.specs.Forest.{Forest, preorder};
ghost use Rattle.source_model.specs.Nodes.{type_id};
ghost use Rattle.source_model.specs.Source.{Source};
ghost use Rattle.source_syntax.specs.ClassNumbers.{class_in, class_numbered, id_of, outer_of};
ghost use Rattle.source_nodes.specs.Derived.{HasBodies};
ghost use Rattle.source_syntax.specs.Nested.{IsNested};
ghost use Rattle.source_nodes.specs.Readers.{IsOf, Reads};
ghost use Rattle.source_nodes.specs.Walk.{IsForest};
ghost use Rattle.check_names.specs.DeclaredClasses.{AreClasses};

use check_names::class_rules::Classes;
use check_names::class_sizes::class_size;
use il_base::{Items, NoMemory};
use ilasm_grammar::{TreeNode, productions};
use source_model::{derivations_are_forests, forests_join, forests_open};
use source_nodes::derived::derivations_have_bodies;
use source_nodes::reader::Reader;
use source_nodes::walk::{leaf_at, next};
use source_syntax::class_paths::ClassPaths;
use std::alloc::Global;
use type_terms::TypeId;

/// The class sizes of the classes of a source, by the numbers of their paths: where a class with the path stands in the
/// source, that of the first, or None where its layout states none. One that is out of its range is 0.
pub type ClassSizes = Items<Option<Option<u32>>>;

/// The class sizes of a source's classes.
pub fn collect_sizes(
    alloc: Global,
    reader: &Reader,
    classes: &Classes,
) -> Result<ClassSizes, NoMemory>
    requires { IsForest reader.now.nodes.now }
    ensures { (s : Source) → Reads reader.now s → AreClasses s classes.now → IfOk result (λ sizes. AreSizes s classes.now.paths sizes) }
{
    derivations_have_bodies();
    let mut sizes = unknown(alloc, classes.paths.len())?;
    add_sizes(&mut sizes, alloc, reader, &classes.paths, 0, reader.nodes)?;
    Ok(sizes)
}

/// The size of the class with a path, where it stands in the source and its layout states one.
pub fn size_at(classes: &ClassPaths, sizes: &ClassSizes, path: &[TypeId]) -> Option<u32>
    ensures { result ≡ size_numbered sizes.now (class_numbered classes.now path.now) }
{
    match number_at(classes, path) {
        Some(number) => known_size(sizes, number),
        None => None,
    }
}

fn known_size(sizes: &ClassSizes, number: usize) -> Option<u32>
    ensures { result ≡ size_numbered sizes.now (Some number) }
{
    match sizes.get(number) {
        Some(Some(size)) => *size,
        _ => None,
    }
}

// The number of the class with a path.
fn number_at(classes: &ClassPaths, path: &[TypeId]) -> Option<usize>
    ensures { result ≡ class_numbered classes.now path.now }
{
    let mut at = 0;
    let mut k = 0;
    while k < path.len() {
        match classes.child(at, &path[k]) {
            Some(number) => at = number,
            None => return None,
        }
        k += 1;
    }
    Some(at)
}

// No sizes for the outside of all classes and for so many classes.
fn unknown(alloc: Global, classes: usize) -> Result<ClassSizes, NoMemory>
    ensures { IfOk result (λ sizes. AreUnknown classes sizes) }
{
    let mut sizes = Items::new(alloc);
    sizes.push(None)?;
    for _ in 0..classes {
        sizes.push(None)?;
    }
    Ok(sizes)
}

// Enters the sizes of the classes of a forest that stands in the class of a number, unless one is there.
fn add_sizes(
    sizes: &mut ClassSizes,
    alloc: Global,
    reader: &Reader,
    classes: &ClassPaths,
    outer: usize,
    nodes: &[TreeNode],
) -> Result<(), NoMemory>
    requires { IsForest nodes.now }
    ensures { (s : Source) (path : List TypeId) (f : Forest) (seen : List ClassSize) → Reads reader.now s → preorder f ≡ nodes.now → HasBodies s f →
        class_numbered classes.now path ≡ Some outer → AreKnown classes.now (size_list s path f) → AreFilled classes.now sizes.old seen →
        IfOk result (λ _. AreFilled classes.now sizes.new (seen ++ size_list s path f)) }
{
    derivations_are_forests();
    forests_open();
    forests_join();
    let mut left = nodes;
    while let Some((node, rest)) = next(left) {
        match node {
            TreeNode::Branch {
                production,
                nodes: count,
            } => {
                if production == productions::CLASS {
                    let (below, after) = rest.split_at(count as usize);
                    match class_within(alloc, reader, classes, outer, leaf_at(below, 1))? {
                        Some(number) => {
                            enter(sizes, number, class_size(reader, below));
                            add_sizes(sizes, alloc, reader, classes, number, below)?;
                            left = after;
                        }
                        None => left = after,
                    }
                } else {
                    left = rest;
                }
            }
            TreeNode::Leaf { .. } => left = rest,
        }
    }
    Ok(())
}

// The number of the class with a name in the class of a number.
fn class_within(
    alloc: Global,
    reader: &Reader,
    classes: &ClassPaths,
    outer: usize,
    token: u32,
) -> Result<Option<usize>, NoMemory>
    ensures number { (s : Source) → Reads reader.now s → IsOf s kind.Name token → IfOk result (λ n. n ≡ class_in classes.now (type_id s token) outer) }
    ensures nested { IfOk result (λ _. IsNested outer_of id_of is_id classes.now) }
{
    let id = reader.type_id(alloc, token)?;
    Ok(classes.child(outer, &id))
}

// Enters the size of a class, unless one is there.
fn enter(sizes: &mut ClassSizes, number: usize, size: Option<u32>)
    ensures { sizes.new ≡ filled sizes.old number size }
{
    if is_unknown(sizes, number) {
        sizes.set(number, Some(size));
    }
}

fn is_unknown(sizes: &ClassSizes, number: usize) -> bool
    ensures { result ≡ is_unknown (slice_get sizes.now number) }
{
    matches!(sizes.get(number), Some(None))
}
