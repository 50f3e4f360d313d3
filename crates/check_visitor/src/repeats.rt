//! What a source says once: its assembly, its module and its entry point (ECMA-335 II.6.2, II.15.4.1.2).

ghost use Rattle.std.specs.Prelude.{◌≡◌, ◌<◌, ◌≤◌, ◌^◌, length};
ghost use Rattle.source_model.specs.DeclaredTwice.{entries_twice, manifests_twice};
ghost use Rattle.source_model.specs.Forest.{Forest, preorder};
ghost use Rattle.source_model.specs.Source.{Source};
ghost use Rattle.source_model.specs.Undeclared.{assembly_undeclared};
ghost use Rattle.source_nodes.specs.Least.{least};
ghost use Rattle.check_visitor.specs.Picks.{picked, picked_past};
ghost use Rattle.source_nodes.specs.Readers.{Reads};
ghost use Rattle.source_nodes.specs.Walk.{IsForest};

use ilasm_grammar::{TreeNode, productions};
use source_model::{derivations_are_forests, forests_join, forests_open};
use source_nodes::least::sooner;
use source_nodes::reader::Reader;
use source_nodes::walk::{first_token, has, leaf_at, next};

/// Which token stands for a declaration: the first below its production, or one at the top there, counted from 0.
#[derive(Debug, Clone, Copy, PartialEq, Eq, Drop)]
pub enum Pick {
    First,
    At(usize),
}

/// The least name of a second `.assembly` or `.module`.
pub fn manifest_twice(reader: &Reader) -> Option<u32>
    requires { IsForest reader.now.nodes.now }
    ensures { (s : Source) → Reads reader.now s → result ≡ least (manifests_twice s) }
{
    let assembly = first_of_parts(
        reader.nodes,
        productions::ASSEMBLY_ASSEMBLY_ATTR_STAR,
        Pick::At(0),
        1,
    );
    let module = first_of_parts(reader.nodes, productions::DECL_MODULE, Pick::At(1), 1);
    sooner(assembly, module)
}

/// The least `.entrypoint` after the first.
pub fn entry_twice(reader: &Reader) -> Option<u32>
    requires { IsForest reader.now.nodes.now }
    ensures { (s : Source) → Reads reader.now s → result ≡ least (entries_twice s) }
{
    first_of_parts(reader.nodes, productions::ITEM_ENTRYPOINT, Pick::First, 1)
}

/// The end of a source that has no `.assembly`, as the number of its tokens.
pub fn without_assembly(reader: &Reader) -> Option<u32>
    requires forest { IsForest reader.now.nodes.now }
    requires few { length reader.now.spans.now < 2 ^ 32 }
    ensures { (s : Source) → Reads reader.now s → result ≡ least (assembly_undeclared s) }
{
    if has(reader.nodes, productions::ASSEMBLY_ASSEMBLY_ATTR_STAR) {
        None
    } else {
        Some(reader.spans.len() as u32)
    }
}

/// The least token of a part with this production, or of one after the first.
pub fn first_of_parts(nodes: &[TreeNode], production: u16, pick: Pick, skip: usize) -> Option<u32>
    requires forest { IsForest nodes.now }
    requires few { skip ≤ 1 }
    ensures { (f : Forest) → preorder f ≡ nodes.now → result ≡ least (picked_past pick production skip f) }
{
    derivations_are_forests();
    forests_open();
    forests_join();
    let mut left = nodes;
    let mut more = skip;
    let mut found = None;
    while let Some((node, rest)) = next(left) {
        match node {
            TreeNode::Branch {
                production: p,
                nodes: count,
            } => {
                if p == production {
                    let (below, after) = rest.split_at(count as usize);
                    if more == 0 {
                        found = sooner(found, Some(picked(pick, below)));
                        left = after;
                    } else {
                        more = 0;
                        left = after;
                    }
                } else {
                    left = rest;
                }
            }
            TreeNode::Leaf { .. } => left = rest,
        }
    }
    found
}

fn picked(pick: Pick, nodes: &[TreeNode]) -> u32
    requires { IsForest nodes.now }
    ensures { (f : Forest) → preorder f ≡ nodes.now → result ≡ picked pick f }
{
    match pick {
        Pick::First => first_token(nodes),
        Pick::At(k) => leaf_at(nodes, k),
    }
}
