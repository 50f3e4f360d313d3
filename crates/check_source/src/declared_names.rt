//! The names of declarations, where it is known how many of them a source has.

ghost use Rattle.std.specs.Prelude.{◌≡◌, count_by, IfOk};
ghost use Rattle.source_model.specs.Forest.{Forest, preorder};
ghost use Rattle.source_model.specs.Source.{Source};
ghost use Rattle.source_syntax.specs.Namings.{AreNames, names_in, production_of};
ghost use Rattle.source_nodes.specs.Readers.{Reads};
ghost use Rattle.source_nodes.specs.Walk.{IsForest, is_of};

use il_base::{Items, NoMemory};
use ilasm_grammar::TreeNode;
use source_model::forests_join;
use source_nodes::derived::derivations_have_bodies;
use source_nodes::reader::Reader;
use source_nodes::walk::{is_of, open};
use source_syntax::name_lists::{Named, Naming, name_tokens, texts};
use std::alloc::Global;

/// The names of all such declarations of a source, whose production so many nodes have. What stands behind them isn't looked at.
pub fn collect_some(
    alloc: Global,
    reader: &Reader,
    naming: Naming,
    production: u16,
    most: usize,
) -> Result<Named, NoMemory>
    requires { IsForest reader.now.nodes.now }
    ensures { (s : Source) → Reads reader.now s → production ≡ production_of naming → most ≡ count_by (is_of production) reader.now.nodes.now →
        IfOk result (AreNames s naming) }
{
    derivations_have_bodies();
    let tokens = some_tokens(alloc, reader.nodes, naming, production, most)?;
    let names = texts(alloc, reader, tokens.as_slice())?;
    Ok(Named { tokens, names })
}

// The tokens of these names.
fn some_tokens(
    alloc: Global,
    nodes: &[TreeNode],
    naming: Naming,
    production: u16,
    most: usize,
) -> Result<Items<u32>, NoMemory>
    requires { IsForest nodes.now }
    ensures { (f : Forest) → preorder f ≡ nodes.now → production ≡ production_of naming → most ≡ count_by (is_of production) nodes.now →
        IfOk result (λ found. found ≡ names_in naming f) }
{
    forests_join();
    let mut found = Items::new(alloc);
    let mut left = nodes;
    let mut more = most;
    while more > 0 {
        match open(left) {
            None => return Ok(found),
            Some(x) => {
                if is_of(x.node, production) {
                    let (tree, _) = left.split_at(1 + x.below.len());
                    let here = name_tokens(alloc, tree, naming)?;
                    found.append(here)?;
                    left = x.after;
                    more -= 1;
                } else {
                    left = x.behind;
                }
            }
        }
    }
    Ok(found)
}
