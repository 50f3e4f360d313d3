use il_base::Items;

/// A node of a derivation tree.
#[derive(Clone, Copy, Debug, PartialEq, Eq)]
pub enum TreeNode {
    /// A nonterminal to which a production is applied.
    Branch {
        /// The production's place in the table.
        production: u16,
        /// The number of nodes below this one.
        nodes: u32,
    },
    /// A terminal.
    Leaf {
        /// The place in the list of tokens of the token that stands for it.
        token: u32,
    },
}

/// A derivation tree, or several in a row: the nodes in preorder.
pub type Tree = Items<TreeNode>;
