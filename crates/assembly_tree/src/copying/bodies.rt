ghost use Rattle.std.specs.Prelude.{◌≡◌, IfOk};

use crate::{Body, Clause, ClauseKind, Ins, Operand};
use il_lists::{Copies, NoMemory, three};
use std::alloc::Global;

impl Copies for Body {
    fn copy(&self, alloc: Global) -> Result<Body, NoMemory> {
        let (locals, code, clauses) = three(&self.locals, &self.code, &self.clauses, alloc)?;
        Ok(Body {
            bound: self.bound,
            init: self.init,
            locals,
            code,
            clauses,
        })
    }
}

impl Copies for Ins {
    fn copy(&self, alloc: Global) -> Result<Ins, NoMemory> {
        let operand = self.operand.copy(alloc)?;
        Ok(Ins {
            op: self.op,
            operand,
        })
    }
}

impl Copies for Operand {
    fn copy(&self, alloc: Global) -> Result<Operand, NoMemory> {
        match self {
            Operand::Nothing => Ok(Operand::Nothing),
            Operand::Var(number) => Ok(Operand::Var(*number)),
            Operand::Int(value) => Ok(Operand::Int(*value)),
            Operand::Real(bits) => Ok(Operand::Real(*bits)),
            Operand::Target(at) => Ok(Operand::Target(*at)),
            Operand::Targets(targets) => {
                let targets = targets.copy(alloc)?;
                Ok(Operand::Targets(targets))
            }
            Operand::Method(method) => {
                let method = method.copy(alloc)?;
                Ok(Operand::Method(method))
            }
            Operand::Field(field) => {
                let field = field.copy(alloc)?;
                Ok(Operand::Field(field))
            }
            Operand::Of(owner) => {
                let owner = owner.copy(alloc)?;
                Ok(Operand::Of(owner))
            }
            Operand::Text(units) => {
                let units = units.copy(alloc)?;
                Ok(Operand::Text(units))
            }
        }
    }
}

impl Copies for Clause {
    fn copy(&self, alloc: Global) -> Result<Clause, NoMemory> {
        let kind = self.kind.copy(alloc)?;
        Ok(Clause {
            kind,
            try_start: self.try_start,
            try_end: self.try_end,
            handler_start: self.handler_start,
            handler_end: self.handler_end,
        })
    }
}

impl Copies for ClauseKind {
    fn copy(&self, alloc: Global) -> Result<ClauseKind, NoMemory> {
        match self {
            ClauseKind::Catch(owner) => {
                let owner = owner.copy(alloc)?;
                Ok(ClauseKind::Catch(owner))
            }
            ClauseKind::Filter(at) => Ok(ClauseKind::Filter(*at)),
            ClauseKind::Finally => Ok(ClauseKind::Finally),
            ClauseKind::Fault => Ok(ClauseKind::Fault),
        }
    }
}
