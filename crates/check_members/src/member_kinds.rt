//! The kinds of members that a class has by name, and where the parts of each stand (ECMA-335 II.10.2, II.15, II.16, II.17, II.18).

ghost use Rattle.std.specs.Prelude.{◌≡◌};
ghost use Rattle.source_model.specs.DeclaredTwice.{method_token};
ghost use Rattle.source_model.specs.Forest.{Forest, is_among, preorder};
ghost use Rattle.check_members.specs.MemberKinds.{declarers, is_chosen, method_names, places, production_of, signature_parts, token_of};
ghost use Rattle.check_members.specs.declared.member_kinds.Level.TheVariants as level;
ghost use Rattle.source_nodes.specs.Walk.{IsForest};

use ilasm_grammar::{TreeNode, productions};
use source_model::forests_join;
use source_nodes::walk::{is_of, leaf_at, open};

/// The kinds of members that have names.
#[derive(Debug, Clone, Copy, PartialEq, Eq, Drop)]
pub enum Kind {
    Field,
    Method,
    Property,
    Event,
}

/// Where members stand: outside of any class, or in one.
#[derive(Debug, Clone, Copy, PartialEq, Eq, Drop)]
pub enum Level {
    Source,
    Class,
}

impl Kind {
    /// Whether a node is a declaration or a member of this kind.
    pub fn is_declared_by(self, node: TreeNode) -> bool
        ensures { result ≡ is_chosen (declarers self) node }
    {
        match self {
            Kind::Field => {
                is_of(node, productions::DECL_FIELD) || is_of(node, productions::MEMBER_FIELD)
            }
            Kind::Method => {
                is_of(node, productions::DECL_METHOD) || is_of(node, productions::MEMBER_METHOD)
            }
            Kind::Property => is_of(node, productions::MEMBER_PROPERTY),
            Kind::Event => is_of(node, productions::MEMBER_EVENT),
        }
    }

    /// The production of a member of this kind.
    pub fn production(self) -> u16
        ensures { result ≡ production_of self }
    {
        match self {
            Kind::Field => productions::FIELD,
            Kind::Method => productions::METHOD,
            Kind::Property => productions::PROPERTY,
            Kind::Event => productions::EVENT,
        }
    }

    /// Whether a tree at the top of a member of this kind belongs to its signature.
    pub fn is_in_signature(self, production: u16) -> bool
        ensures { result ≡ is_among (signature_parts self) production }
    {
        match self {
            Kind::Field => production == productions::TYPE,
            Kind::Method => {
                production == productions::TYPE || production == productions::DEF_ARGS_OPT_SOME
            }
            Kind::Property => {
                production == productions::TYPE || production == productions::SIGNATURE
            }
            Kind::Event => false,
        }
    }

    /// The token of a member's name.
    pub fn token(self, nodes: &[TreeNode]) -> u32
        requires { IsForest nodes.now }
        ensures { (f : Forest) → preorder f ≡ nodes.now → result ≡ token_of self f }
    {
        match self {
            Kind::Field | Kind::Property | Kind::Event => leaf_at(nodes, 1),
            Kind::Method => method_token(nodes),
        }
    }
}

impl Level {
    /// Whether a node is one of what stands there side by side.
    pub fn is_place(self, node: TreeNode) -> bool
        ensures { result ≡ is_chosen (places self) node }
    {
        match node {
            TreeNode::Branch { production, .. } => self.has_place(production),
            TreeNode::Leaf { .. } => false,
        }
    }

    /// Whether a production is that of one of what stands there side by side.
    pub fn has_place(self, production: u16) -> bool
        ensures { result ≡ is_among (places self) production }
    {
        match self {
            Level::Source => is_declaration(production),
            Level::Class => is_class_member(production),
        }
    }
}

fn is_declaration(production: u16) -> bool
    ensures { result ≡ is_among (places level.Source) production }
{
    matches!(
        production,
        productions::DECL_ASSEMBLY
            | productions::DECL_MODULE
            | productions::DECL_IMAGEBASE
            | productions::DECL_FILE
            | productions::DECL_STACKRESERVE
            | productions::DECL_SUBSYSTEM
            | productions::DECL_CORFLAGS
            | productions::DECL_CLASS
            | productions::DECL_FIELD
            | productions::DECL_METHOD
            | productions::DECL_CUSTOM
            | productions::DECL_DATA
    )
}

fn is_class_member(production: u16) -> bool
    ensures { result ≡ is_among (places level.Class) production }
{
    matches!(
        production,
        productions::MEMBER_CLASS
            | productions::MEMBER_FIELD
            | productions::MEMBER_METHOD
            | productions::MEMBER_PROPERTY
            | productions::MEMBER_EVENT
            | productions::MEMBER_CUSTOM
            | productions::MEMBER_DATA
            | productions::MEMBER_PARAM
            | productions::MEMBER_PACK
            | productions::MEMBER_SIZE
    )
}

// The token of a method's name: the first of a name, `.ctor` or `.cctor`.
fn method_token(nodes: &[TreeNode]) -> u32
    requires { IsForest nodes.now }
    ensures { (f : Forest) → preorder f ≡ nodes.now → result ≡ method_token f }
{
    forests_join();
    let mut left = nodes;
    while let Some(x) = open(left) {
        if is_method_name(x.node) {
            return leaf_at(x.below, 0);
        }
        left = x.behind;
    }
    0
}

// Whether a node is the name of a method.
fn is_method_name(node: TreeNode) -> bool
    ensures { result ≡ is_chosen method_names node }
{
    is_of(node, productions::METHOD_NAME_NAME)
        || is_of(node, productions::METHOD_NAME_CTOR)
        || is_of(node, productions::METHOD_NAME_CCTOR)
}
