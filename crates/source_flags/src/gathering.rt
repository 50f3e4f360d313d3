//! The outermost parts of some kinds among the nodes of a derivation.

ghost use Rattle.std.specs.Prelude.{◌≡◌, IfOk};
ghost use Rattle.source_flags.specs.Lines.{productions_of};
ghost use Rattle.source_flags.specs.declared.gathering.Kind.TheVariants.{Accessors, Declarations, Members};
ghost use Rattle.source_model.specs.Forest.{Forest, is_among, parts, preorder};
ghost use Rattle.source_nodes.specs.Pieces.{ArePieces};
ghost use Rattle.source_nodes.specs.Walk.{IsForest};

use il_base::{Items, NoMemory};
use ilasm_grammar::{TreeNode, productions};
use source_model::{derivations_are_forests, forests_join, forests_open};
use source_nodes::pieces::Piece;
use std::alloc::Global;

/// The kinds of parts that are gathered.
#[derive(Debug, Clone, Copy, PartialEq, Eq, Drop)]
pub enum Kind {
    /// Those of one production.
    One(u16),
    /// The declarations outside of any class.
    Declarations,
    /// The members of a class.
    Members,
    /// The lines that say a public key or its token.
    Keys,
    /// The lines that say a culture.
    Cultures,
    /// The methods that a method overrides.
    Overrides,
    /// The accessors of a property or an event.
    Accessors,
    /// The items of data.
    DataItems,
}

/// The outermost parts of a kind, in order.
pub fn parts_of(alloc: Global, nodes: &[TreeNode], kind: Kind) -> Result<Items<Piece>, NoMemory>
    requires { IsForest nodes.now }
    ensures { IfOk result (λ found. (f : Forest) → preorder f ≡ nodes.now → ArePieces nodes.now found (parts (productions_of kind) f)) }
{
    derivations_are_forests();
    forests_open();
    forests_join();
    let mut found = Items::new(alloc);
    let mut at = 0;
    while let Some(node) = nodes.get(at) {
        match *node {
            TreeNode::Branch {
                production,
                nodes: count,
            } => {
                let start = at + 1;
                let count = count as usize;
                if is_of_kind(kind, production) {
                    found.push(Piece {
                        production,
                        start,
                        count,
                    })?;
                    at = start + count;
                } else {
                    at = start;
                }
            }
            TreeNode::Leaf { .. } => at += 1,
        }
    }
    Ok(found)
}

/// Whether a production is one of a kind.
pub fn is_of_kind(kind: Kind, production: u16) -> bool
    ensures { result ≡ is_among (productions_of kind) production }
{
    match kind {
        Kind::One(p) => p == production,
        Kind::Declarations => is_declaration(production),
        Kind::Members => is_member(production),
        Kind::Keys => matches!(
            production,
            productions::KEY_PUBLICKEY | productions::KEY_PUBLICKEYTOKEN
        ),
        Kind::Cultures => matches!(
            production,
            productions::KEY_CULTURE | productions::KEY_LOCALE
        ),
        Kind::Overrides => matches!(
            production,
            productions::OVERRIDDEN_METHOD | productions::OVERRIDDEN_SPEC
        ),
        Kind::Accessors => is_accessor(production),
        Kind::DataItems => matches!(
            production,
            productions::DATA_ITEM_BYTES | productions::DATA_ITEM_DATA_NUM
        ),
    }
}

fn is_declaration(production: u16) -> bool
    ensures { result ≡ is_among (productions_of Declarations) production }
{
    matches!(
        production,
        productions::DECL_ASSEMBLY
            | productions::DECL_MODULE
            | productions::DECL_IMAGEBASE
            | productions::DECL_FILE
            | productions::DECL_STACKRESERVE
            | productions::DECL_SUBSYSTEM
            | productions::DECL_CORFLAGS
            | productions::DECL_CLASS
            | productions::DECL_FIELD
            | productions::DECL_METHOD
            | productions::DECL_CUSTOM
            | productions::DECL_DATA
    )
}

fn is_member(production: u16) -> bool
    ensures { result ≡ is_among (productions_of Members) production }
{
    matches!(
        production,
        productions::MEMBER_CLASS
            | productions::MEMBER_FIELD
            | productions::MEMBER_METHOD
            | productions::MEMBER_PROPERTY
            | productions::MEMBER_EVENT
            | productions::MEMBER_CUSTOM
            | productions::MEMBER_DATA
            | productions::MEMBER_PARAM
            | productions::MEMBER_PACK
            | productions::MEMBER_SIZE
    )
}

fn is_accessor(production: u16) -> bool
    ensures { result ≡ is_among (productions_of Accessors) production }
{
    matches!(
        production,
        productions::PROPERTY_ITEM_GET
            | productions::PROPERTY_ITEM_SET
            | productions::PROPERTY_ITEM_OTHER
            | productions::EVENT_ITEM_ADDON
            | productions::EVENT_ITEM_REMOVEON
            | productions::EVENT_ITEM_FIRE
            | productions::EVENT_ITEM_OTHER
    )
}
