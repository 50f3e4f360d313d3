//! Labels of a method that stand there twice, and names that no label of it has, where its instructions and labels are known
//! (ECMA-335 II.5.4, II.15.4.1).

ghost use Rattle.std.specs.Prelude.{◌≡◌, ◌++◌, ℕ, List, None, bytes_eq, count_by, false, map, true, IfOk};
ghost use Rattle.std.specs.List.{flat_map};
ghost use Rattle.source_model.specs.BodyFaults.{label_names};
ghost use Rattle.source_model.specs.DeclaredTwice.{repeats};
ghost use Rattle.source_model.specs.Forest.{Forest, is_among, preorder};
ghost use Rattle.source_model.specs.Instructions.{instructions_of, targets};
ghost use Rattle.source_model.specs.Nodes.{Node};
ghost use Rattle.source_model.specs.Source.{Source};
ghost use Rattle.source_syntax.specs.Labels.{AreLabels};
ghost use Rattle.source_nodes.specs.Least.{least};
ghost use Rattle.source_syntax.specs.Methods.{IsMethod};
ghost use Rattle.source_nodes.specs.Pieces.{ArePieces, AreParts, productions_of};
ghost use Rattle.source_nodes.specs.Readers.{Reads};
ghost use Rattle.source_nodes.specs.Walk.{IsForest};
ghost use Rattle.source_nodes.specs.declared.pieces.Sought.TheVariants.{LabelNames};
ghost use Rattle.check_bodies.specs.AllOfBodies.{twice_in, undeclared_in};
ghost use Rattle.check_bodies.specs.NamingNodes.{is_naming};

use crate::label_rules::first_missing;
use il_base::NoMemory;
use ilasm_grammar::{TreeNode, productions};
use source_nodes::least::sooner;
use source_nodes::pieces::Piece;
use source_nodes::reader::Reader;
use source_syntax::declared::Declared;
use source_syntax::label_numbers::Labels;
use source_syntax::labels::{label_names, label_tokens};
use source_syntax::name_lists::again;
use std::alloc::Global;

/// The least label of a method that has the name of an earlier one, or name that no label of it has. These are the names that its
/// instructions branch to; in a plain method nothing else names labels. Where the method is plain, nothing else in it names labels.
pub fn label_fault(
    alloc: Global,
    reader: &Reader,
    method: &[TreeNode],
    code: &[Piece],
    tokens: &[u32],
    labels: &Labels,
    plain: bool,
) -> Result<Option<u32>, NoMemory>
    requires { IsForest method.now }
    ensures { (s : Source) (n : Node) → Reads reader.now s → IsMethod s n → preorder n.below ≡ method.now → ArePieces method.now code.now (instructions_of n.below) →
        tokens.now ≡ flat_map targets (instructions_of n.below) → AreLabels labels.now s n.below →
        (plain ≡ true → label_names n.below ≡ flat_map targets (instructions_of n.below)) → IfOk result (λ k. k ≡ least (twice_in s n ++ undeclared_in s n)) }
{
    let twice = twice_fault(alloc, method, labels)?;
    let missing = missing_fault(alloc, reader, method, code, tokens, labels, plain)?;
    Ok(sooner(twice, missing))
}

// The least label that has the name of an earlier one.
fn twice_fault(alloc: Global, method: &[TreeNode], labels: &Labels) -> Result<Option<u32>, NoMemory>
    requires { IsForest method.now }
    ensures { (s : Source) (n : Node) → preorder n.below ≡ method.now → AreLabels labels.now s n.below → IfOk result (λ k. k ≡ least (twice_in s n)) }
{
    if !has_repeat(&labels.names) {
        return Ok(None);
    }
    let tokens = label_tokens(alloc, method)?;
    Ok(again(&labels.names, tokens.as_slice()))
}

// Whether a name is that of an earlier one.
fn has_repeat(names: &Declared) -> bool
    ensures { result ≡ false → (text : ℕ → List ℕ) (tokens : List ℕ) → names.now ≡ map text tokens → None ≡ least (repeats (λ j k. bytes_eq (text j) (text k)) tokens) }
{
    let mut k = 0;
    while k < names.len() {
        if names.is_repeat(k) {
            return true;
        }
        k += 1;
    }
    false
}

// The least name that no label of the method has.
fn missing_fault(
    alloc: Global,
    reader: &Reader,
    method: &[TreeNode],
    code: &[Piece],
    tokens: &[u32],
    labels: &Labels,
    plain: bool,
) -> Result<Option<u32>, NoMemory>
    requires { IsForest method.now }
    ensures { (s : Source) (n : Node) → Reads reader.now s → IsMethod s n → preorder n.below ≡ method.now → ArePieces method.now code.now (instructions_of n.below) →
        tokens.now ≡ flat_map targets (instructions_of n.below) → AreLabels labels.now s n.below →
        (plain ≡ true → label_names n.below ≡ flat_map targets (instructions_of n.below)) → IfOk result (λ k. k ≡ least (undeclared_in s n)) }
{
    if plain {
        return first_missing(alloc, reader, &labels.names, tokens);
    }
    if are_all_in_code(method, code) {
        return first_missing(alloc, reader, &labels.names, tokens);
    }
    let named = label_names(alloc, method)?;
    first_missing(alloc, reader, &labels.names, named.as_slice())
}

// Whether no names stand for labels but those behind branches and `switch`.
fn are_all_in_code(method: &[TreeNode], code: &[Piece]) -> bool
    ensures { (f : Forest) → preorder f ≡ method.now → ArePieces method.now code.now (instructions_of f) → result ≡ true → label_names f ≡ flat_map targets (instructions_of f) }
{
    naming_nodes(method) == naming_pieces(code)
}

fn naming_nodes(nodes: &[TreeNode]) -> usize
    ensures { result ≡ count_by is_naming nodes.now }
{
    nodes.iter().filter(|node| is_naming(**node)).count()
}

fn naming_pieces(code: &[Piece]) -> usize
    ensures { result ≡ count_by (λ x. is_among (productions_of LabelNames) x.production) code.now }
{
    code.iter()
        .filter(|piece| names_labels(piece.production))
        .count()
}

fn is_naming(node: TreeNode) -> bool
    ensures { result ≡ is_naming node }
{
    match node {
        TreeNode::Branch { production, .. } => names_labels(production),
        TreeNode::Leaf { .. } => false,
    }
}

// Whether a production names labels.
fn names_labels(production: u16) -> bool
    ensures { result ≡ is_among (productions_of LabelNames) production }
{
    matches!(
        production,
        productions::INSTRUCTION_OP_BRANCH
            | productions::INSTRUCTION_SWITCH
            | productions::TRY_RANGE_NAME
            | productions::HANDLER_HANDLER
            | productions::FILTER_START_NAME
    )
}
