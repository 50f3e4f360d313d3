//! How many exception clauses a method has (ECMA-335 II.19, II.25.4.5).

ghost use Rattle.std.specs.Prelude.{◌≡◌};
ghost use Rattle.source_model.specs.Forest.{Forest, preorder};
ghost use Rattle.source_model.specs.TypeRules.{past_count};
ghost use Rattle.source_nodes.specs.Least.{least};
ghost use Rattle.source_nodes.specs.Walk.{IsForest};
ghost use Rattle.check_bodies.specs.ClauseCounts.{clauses_in, clauses_left};

use crate::clause_rules::is_clause;
use ilasm_grammar::TreeNode;
use source_model::{derivations_are_forests, forests_join, forests_open};
use source_nodes::walk::{first_token, next};

// How many clauses a method may have.
const MOST: usize = 65_535;

/// The first token of the first clause past 65,535 of a method, where they stand in the order of their last tokens.
pub fn clause_past_most(method: &[TreeNode]) -> Option<u32>
    requires { IsForest method.now }
    ensures { (f : Forest) → preorder f ≡ method.now → result ≡ least (past_count (clauses_in f)) }
{
    match clauses_left(method, MOST) {
        Ok(_) => None,
        Err(token) => Some(token),
    }
}

// Where so many clauses may stand, how many more than those of these nodes; where they are more, the first token of the first
// past that.
fn clauses_left(nodes: &[TreeNode], most: usize) -> Result<usize, u32>
    requires { IsForest nodes.now }
    ensures { (f : Forest) → preorder f ≡ nodes.now → result ≡ clauses_left most (clauses_in f) }
{
    derivations_are_forests();
    forests_open();
    forests_join();
    let mut left = nodes;
    let mut more = most;
    while let Some((node, rest)) = next(left) {
        match node {
            TreeNode::Branch {
                production,
                nodes: count,
            } => {
                if is_clause(production) {
                    let (below, after) = rest.split_at(count as usize);
                    match clauses_left(below, more) {
                        Ok(0) => return Err(first_token(below)),
                        Ok(within) => more = within - 1,
                        Err(token) => return Err(token),
                    }
                    left = after;
                } else {
                    left = rest;
                }
            }
            TreeNode::Leaf { .. } => left = rest,
        }
    }
    Ok(more)
}
