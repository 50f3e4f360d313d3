//! To which declaration an attribute belongs (ECMA-335 II.5.10, II.21).

ghost use Rattle.std.specs.Prelude.{◌≡◌, ◌≤◌, List, IfOk, length, take_while};
ghost use Rattle.std.specs.List.{prefix_len};
ghost use Rattle.lower_manifest.specs.Runs.{begins_run, is_custom};
ghost use Rattle.ilasm_grammar.specs.declared.tree.TreeNode.{TreeNode};
ghost use Rattle.source_model.specs.Forest.{Part};
ghost use Rattle.source_model.specs.Items.{own_customs};
ghost use Rattle.source_nodes.specs.Pieces.{ArePieces};

use il_base::{Items, NoMemory};
use ilasm_grammar::productions::{
    DECL_CUSTOM, DECL_FIELD, ITEM_CUSTOM, ITEM_PARAM, MEMBER_CUSTOM, MEMBER_FIELD, MEMBER_PARAM,
};
use source_nodes::pieces::Piece;
use std::alloc::Global;

// Whether a declaration is an attribute.
fn is_custom(production: u16) -> bool
    ensures { result ≡ is_custom production }
{
    production == DECL_CUSTOM || production == MEMBER_CUSTOM || production == ITEM_CUSTOM
}

// Whether an attribute that directly follows a declaration belongs to it.
fn begins_run(production: u16) -> bool
    ensures { result ≡ begins_run production }
{
    production == DECL_FIELD
        || production == MEMBER_FIELD
        || production == MEMBER_PARAM
        || production == ITEM_PARAM
}

/// The attributes among these declarations that belong to what surrounds them.
pub fn own_customs(alloc: Global, found: &[Piece]) -> Result<Items<Piece>, NoMemory>
    ensures { (nodes : List TreeNode) (ps : List Part) → ArePieces nodes found.now ps → IfOk result (λ own. ArePieces nodes own (own_customs ps)) }
{
    let mut own = Items::new(alloc);
    let mut in_run = false;
    for piece in found {
        if is_custom(piece.production) {
            if !in_run {
                own.push(*piece)?;
            }
        } else {
            in_run = begins_run(piece.production);
        }
    }
    Ok(own)
}

/// The attributes that these declarations begin with.
pub fn run_of(found: &[Piece]) -> &[Piece]
    ensures { result.now ≡ take_while (λ x. is_custom x.production) found.now }
{
    let (run, _) = found.split_at(run_length(found));
    run
}

fn run_length(found: &[Piece]) -> usize
    ensures value { result ≡ prefix_len (λ x. is_custom x.production) found.now }
    ensures fits { result ≤ length found.now }
{
    found.iter().take_while(|x| is_custom(x.production)).count()
}
