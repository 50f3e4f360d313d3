ghost use Rattle.std.specs.Prelude.{◌≡◌, ℕ, ◌<◌, ◌≤◌, ◌*◌, [], ◌∷◌, List, length};
ghost use Rattle.ilasm_grammar.specs.Grammar.{Derives, Grammar, IsFaultAt, IsSentence};
ghost use Rattle.ilasm_grammar.specs.Ilasm.{ilasm};
ghost use Rattle.ilasm_grammar.specs.Laws.{IsDecidedByOne, IsOpened, IsReached};
ghost use Rattle.ilasm_grammar.specs.declared.symbol.Symbol.{Symbol};
ghost use Rattle.ilasm_grammar.specs.declared.symbol.Symbol.TheVariants.{Nonterminal};
ghost use Rattle.ilasm_grammar.specs.declared.tree.TreeNode.{TreeNode};
ghost use Rattle.ilasm_grammar.specs.declared.tree.TreeNode.TheVariants.{Branch};

use crate::nonterminals::{COUNT, SOURCE};

/// A law: every choice of a production is decided by one token, and each nonterminal is reached from the
/// start and derives something.
pub fn table_facts()
    ensures decided { IsDecidedByOne ilasm }
    ensures derives { (n : ℕ) → n < COUNT → (kinds : List ℕ) × IsSentence ilasm n kinds }
    ensures reached { (n : ℕ) → n < COUNT → IsReached ilasm SOURCE n }
{}

/// A law: a source has at most one derivation, with at most seven nodes for each token.
pub fn one_derivation()
    ensures one { (kinds : List ℕ) (a b : List TreeNode) →
        Derives ilasm 0 (Nonterminal SOURCE ∷ []) kinds a → Derives ilasm 0 (Nonterminal SOURCE ∷ []) kinds b → a ≡ b }
    ensures few { (kinds : List ℕ) (tree : List TreeNode) →
        Derives ilasm 0 (Nonterminal SOURCE ∷ []) kinds tree → length tree ≤ 7 * length kinds }
{}

/// A law: tokens that are a source have no syntax fault, and others have at most one.
pub fn one_fault()
    ensures none { (kinds : List ℕ) (at : ℕ) → IsFaultAt ilasm SOURCE kinds at → IsSentence ilasm SOURCE kinds → ⊥ }
    ensures one { (kinds : List ℕ) (j k : ℕ) → IsFaultAt ilasm SOURCE kinds j → IsFaultAt ilasm SOURCE kinds k → j ≡ k }
{}

/// A law for whoever walks a tree: the nodes below a branch at place i, as many as its count, stand from
/// place i + 1 on, its first child first; what follows it stands behind them.
pub fn branch_opens()
    ensures { (g : Grammar) (at n production count : ℕ) (symbols : List Symbol) (kinds : List ℕ) (nodes : List TreeNode) →
        Derives g at (Nonterminal n ∷ symbols) kinds (Branch production count ∷ nodes) →
        IsOpened g at n production count symbols kinds nodes }
{}
