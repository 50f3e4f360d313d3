ghost use Rattle.std.specs.Prelude.{◌≡◌, ◌-◌};
ghost use Rattle.assembly_tree.specs.Weight.{operand_weight, instruction_weight, handled_weight, clause_weight, body_weight};

use super::weighs::{Weighs, charge_each};
use crate::{Body, Clause, ClauseKind, Ins, Operand};

impl Weighs for Operand {
    ghost weight = { operand_weight };

    #[tactic(auto, using(crate::proofs::Charging::both_off), unfolding(crate::specs::Weight::operand_weight))]
    fn charge(&self, left: u64) -> u64 {
        match self {
            Operand::Nothing
            | Operand::Var(_)
            | Operand::Int(_)
            | Operand::Real(_)
            | Operand::Target(_) => left,
            Operand::Targets(targets) => charge_each(left, 4, targets.get().len()),
            Operand::Method(method) => method.get().charge(left),
            Operand::Field(field) => field.get().charge(left),
            Operand::Of(owner) => owner.get().charge(left),
            Operand::Text(units) => charge_each(left, 2, units.get().len()),
        }
    }
}

impl Weighs for Ins {
    ghost weight = { instruction_weight };

    #[tactic(auto, using(crate::proofs::Charging::both_off), unfolding(crate::specs::Weight::instruction_weight))]
    fn charge(&self, left: u64) -> u64 {
        self.operand.charge(left.saturating_sub(16))
    }
}

impl Weighs for ClauseKind {
    ghost weight = { handled_weight };

    #[tactic(auto, using(crate::proofs::Charging::both_off), unfolding(crate::specs::Weight::handled_weight))]
    fn charge(&self, left: u64) -> u64 {
        match self {
            ClauseKind::Catch(owner) => owner.charge(left),
            ClauseKind::Filter(_) | ClauseKind::Finally | ClauseKind::Fault => left,
        }
    }
}

impl Weighs for Clause {
    ghost weight = { clause_weight };

    #[tactic(auto, using(crate::proofs::Charging::both_off), unfolding(crate::specs::Weight::clause_weight))]
    fn charge(&self, left: u64) -> u64 {
        self.kind.charge(left.saturating_sub(64))
    }
}

impl Weighs for Body {
    ghost weight = { body_weight };

    #[tactic(auto, using(crate::proofs::Charging::both_off), unfolding(crate::specs::Weight::body_weight))]
    fn charge(&self, left: u64) -> u64 {
        let left = charge_each(left, 64, self.locals.len());
        let left = self.locals.charge(left);
        let left = self.code.charge(left);
        self.clauses.charge(left)
    }
}
