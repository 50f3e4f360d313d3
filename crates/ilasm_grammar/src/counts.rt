ghost use Rattle.std.specs.Prelude.{◌≡◌, ◌+◌, ◌<◌, ◌^◌, drop, length};
ghost use Rattle.ilasm_grammar.specs.Counts.{counted, hops, HaveRules};
ghost use Rattle.ilasm_grammar.specs.Ilasm.{ilasm};

use crate::table::arity_of;
use crate::{Tree, TreeNode};

/// Writes the number of nodes below it into each branch, from the last node to the first.
pub(crate) fn count_nodes(nodes: &mut Tree)
    requires few { length nodes.old < 2 ^ 32 }
    requires rules { HaveRules ilasm nodes.old }
    ensures { nodes.new ≡ counted ilasm nodes.old }
{
    // The nodes of the tree that begins behind the node, the first of those below it.
    let mut first = 0;
    for k in (0..nodes.len()).rev() {
        match *nodes.at(k) {
            TreeNode::Leaf { .. } => first = 1,
            TreeNode::Branch { production, .. } => {
                let below = size_of(nodes, k + 1, first, arity_of(production));
                nodes.set(
                    k,
                    TreeNode::Branch {
                        production,
                        nodes: below,
                    },
                );
                first = below + 1;
            }
        }
    }
}

/// The number of nodes in the first `trees` trees from place `at` on, whose branches are counted, and of which
/// the first has `first` nodes.
fn size_of(nodes: &Tree, at: usize, first: u32, trees: usize) -> u32
    requires fits { at + hops trees (drop at nodes.now) < 2 ^ 32 }
    requires first { first ≡ hops 1 (drop at nodes.now) }
    ensures { result ≡ hops trees (drop at nodes.now) }
{
    if trees <= 1 {
        return if trees == 0 { 0 } else { first };
    }
    let mut end = at + first as usize;
    for _k in 1..trees {
        match nodes.get(end) {
            Some(TreeNode::Branch { nodes: below, .. }) => end += 1 + *below as usize,
            Some(TreeNode::Leaf { .. }) => end += 1,
            None => {}
        }
    }
    (end - at) as u32
}
