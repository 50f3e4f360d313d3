ghost use Rattle.type_hierarchy.specs.ValueNames.{in_operand, in_instruction, in_handled, in_clause, in_body};

use super::NamesValues;
use assembly_tree::{Body, Clause, ClauseKind, Ins, Operand};
use il_lists::NoMemory;
use std::alloc::Global;
use type_hierarchy::meanings::Meanings;
use type_hierarchy::names::Names;

impl NamesValues for Operand {
    ghost value_names = { in_operand };

    #[tactic(auto, using(crate::proofs::Gathering::none_in), unfolding(type_hierarchy::specs::ValueNames::in_operand))]
    fn gather(&self, alloc: Global, means: &Meanings, into: &mut Names) -> Result<(), NoMemory> {
        match self {
            Operand::Method(method) => method.get().gather(alloc, means, into),
            Operand::Field(field) => field.get().gather(alloc, means, into),
            Operand::Of(owner) => owner.get().gather(alloc, means, into),
            Operand::Nothing
            | Operand::Var(_)
            | Operand::Int(_)
            | Operand::Real(_)
            | Operand::Target(_)
            | Operand::Targets(_)
            | Operand::Text(_) => Ok(()),
        }
    }
}

impl NamesValues for Ins {
    ghost value_names = { in_instruction };

    #[tactic(auto, unfolding(type_hierarchy::specs::ValueNames::in_instruction))]
    fn gather(&self, alloc: Global, means: &Meanings, into: &mut Names) -> Result<(), NoMemory> {
        self.operand.gather(alloc, means, into)
    }
}

impl NamesValues for ClauseKind {
    ghost value_names = { in_handled };

    #[tactic(auto, using(crate::proofs::Gathering::none_in), unfolding(type_hierarchy::specs::ValueNames::in_handled))]
    fn gather(&self, alloc: Global, means: &Meanings, into: &mut Names) -> Result<(), NoMemory> {
        match self {
            ClauseKind::Catch(owner) => owner.gather(alloc, means, into),
            ClauseKind::Filter(_) | ClauseKind::Finally | ClauseKind::Fault => Ok(()),
        }
    }
}

impl NamesValues for Clause {
    ghost value_names = { in_clause };

    #[tactic(auto, unfolding(type_hierarchy::specs::ValueNames::in_clause))]
    fn gather(&self, alloc: Global, means: &Meanings, into: &mut Names) -> Result<(), NoMemory> {
        self.kind.gather(alloc, means, into)
    }
}

impl NamesValues for Body {
    ghost value_names = { in_body };

    #[tactic(auto, using(crate::proofs::Gathering::both_in), unfolding(type_hierarchy::specs::ValueNames::in_body))]
    fn gather(&self, alloc: Global, means: &Meanings, into: &mut Names) -> Result<(), NoMemory> {
        self.locals.gather(alloc, means, into)?;
        self.code.gather(alloc, means, into)?;
        self.clauses.gather(alloc, means, into)
    }
}
