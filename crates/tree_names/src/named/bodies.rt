ghost use Rattle.tree_names.specs.Named.{names_in_operand, names_in_instruction, names_in_handled, names_in_clause, names_in_body};

use super::{Looks, Named};
use assembly_tree::{Body, Clause, ClauseKind, Ins, Operand};
use il_lists::NoMemory;

impl Named for Operand {
    ghost names = { names_in_operand };

    #[tactic(auto, using(crate::proofs::Seeing::none_seen), unfolding(crate::specs::Named::names_in_operand))]
    fn show<L: Looks>(&self, to: &mut L) -> Result<(), NoMemory> {
        match self {
            Operand::Method(method) => method.get().show(to),
            Operand::Field(field) => field.get().show(to),
            Operand::Of(owner) => owner.get().show(to),
            Operand::Nothing
            | Operand::Var(_)
            | Operand::Int(_)
            | Operand::Real(_)
            | Operand::Target(_)
            | Operand::Targets(_)
            | Operand::Text(_) => Ok(()),
        }
    }
}

impl Named for Ins {
    ghost names = { names_in_instruction };

    #[tactic(auto, unfolding(crate::specs::Named::names_in_instruction))]
    fn show<L: Looks>(&self, to: &mut L) -> Result<(), NoMemory> {
        self.operand.show(to)
    }
}

impl Named for ClauseKind {
    ghost names = { names_in_handled };

    #[tactic(auto, using(crate::proofs::Seeing::none_seen), unfolding(crate::specs::Named::names_in_handled))]
    fn show<L: Looks>(&self, to: &mut L) -> Result<(), NoMemory> {
        match self {
            ClauseKind::Catch(owner) => owner.show(to),
            ClauseKind::Filter(_) | ClauseKind::Finally | ClauseKind::Fault => Ok(()),
        }
    }
}

impl Named for Clause {
    ghost names = { names_in_clause };

    #[tactic(auto, unfolding(crate::specs::Named::names_in_clause))]
    fn show<L: Looks>(&self, to: &mut L) -> Result<(), NoMemory> {
        self.kind.show(to)
    }
}

impl Named for Body {
    ghost names = { names_in_body };

    #[tactic(auto, using(crate::proofs::Seeing::both_seen), unfolding(crate::specs::Named::names_in_body))]
    fn show<L: Looks>(&self, to: &mut L) -> Result<(), NoMemory> {
        self.locals.show(to)?;
        self.code.show(to)?;
        self.clauses.show(to)
    }
}
