/// A symbol of a production's body.
#[derive(Clone, Copy, Debug, PartialEq, Eq)]
pub enum Symbol {
    /// A token of the kind with this number.
    Terminal(u16),
    /// What the nonterminal with this number derives.
    Nonterminal(u16),
}
