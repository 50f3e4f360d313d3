ghost use Rattle.std.specs.Prelude.{◌≡◌};
ghost use Rattle.assembly_tree.specs.WellFormedBodies.{has_body_form, names_well, is_body};

use super::branches::short_branches_reach;
use super::clauses::are_clauses;
use super::formed_parts::Formed;
use super::operands::are_instructions;
use super::signatures::is_count;
use crate::{Assembly, Body};

impl Body {
    /// Whether the body by itself, save for short branches, meets its conditions.
    #[tactic(auto, unfolding(crate::specs::WellFormedBodies::has_body_form))]
    fn has_form(&self) -> bool
        ensures { result ≡ has_body_form self.now }
    {
        self.code.len() > 0
            && is_count(self.locals.len())
            && is_count(self.clauses.len())
            && are_instructions(self.code.len(), &self.code)
            && are_clauses(self.code.len(), &self.clauses)
    }

    /// Whether what the body names meets its conditions.
    #[tactic(auto, unfolding(crate::specs::WellFormedBodies::names_well))]
    fn names_well(&self, a: &Assembly) -> bool
        ensures { result ≡ names_well a.now self.now }
    {
        self.locals.is_formed(a) && self.code.is_formed(a) && self.clauses.is_formed(a)
    }
}

impl Formed for Body {
    ghost formed = { is_body };

    #[tactic(auto, unfolding(crate::specs::WellFormedBodies::is_body))]
    fn is_formed(&self, a: &Assembly) -> bool {
        self.has_form() && short_branches_reach(self.code.as_slice()) && self.names_well(a)
    }
}
