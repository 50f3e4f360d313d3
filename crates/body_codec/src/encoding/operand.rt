ghost use Rattle.std.specs.Prelude.{◌≡◌, ◌<◌, ◌+◌, ◌*◌, ◌++◌, ◌^◌, ℕ, List, [], length, OnOk};
ghost use Rattle.std.specs.List.{All};
ghost use Rattle.assembly_tree.specs.declared.body.Ins.{Ins};
ghost use Rattle.assembly_tree.specs.declared.body.Operand.TheVariants as operands;
ghost use Rattle.opcode_table.specs.declared.kind.OperandKind.TheVariants as kinds;
ghost use Rattle.body_codec.specs.Chains.{IsDraft, IsKept, IsLinked, IsShort, IsWatched, from_on, offsets_of};
ghost use Rattle.body_codec.specs.Encoding.{size_of};
ghost use Rattle.body_codec.specs.Instruction.{opcode_bytes, operand_size};
ghost use Rattle.body_codec.specs.Names.{token_of};
ghost use Rattle.body_codec.specs.Written.{AreWithin, number_bytes, or_zero, tail_of, target_bytes, token_map};

use crate::encoding::draft::Draft;
use crate::encoding::number::{push_number, push_signed};
use crate::encoding::site::{Site, width};
use assembly_tree::Operand;
use il_lists::{Bytes, NoMemory};
use opcode_table::{Op, OperandKind, bytes_of};
use sig_codec::Numberer;

/// The token of what an operand names, or 0.
pub(crate) fn operand_token<N: Numberer>(operand: &Operand, map: &N) -> u32
    ensures { result ≡ or_zero (token_of (token_map (N.owner_tokens map.now) (N.method_tokens map.now) (N.field_tokens map.now) (N.locals_tokens map.now) (N.text_tokens map.now)) operand.now) }
{
    let token = match operand {
        Operand::Method(method) => map.token_of_method(method.get()),
        Operand::Field(field) => map.token_of_field(field.get()),
        Operand::Of(owner) => map.token_of_owner(owner.get()),
        Operand::Text(units) => map.token_of_text(units.get()),
        Operand::Nothing
        | Operand::Var(_)
        | Operand::Int(_)
        | Operand::Real(_)
        | Operand::Target(_)
        | Operand::Targets(_) => None,
    };
    token.unwrap_or(0)
}

/// Adds the bytes of an opcode.
#[tactic(auto, unfolding(crate::specs::Instruction::opcode_bytes))]
pub(crate) fn push_opcode(out: &mut Bytes, op: Op) -> Result<(), NoMemory>
    ensures { OnOk result (out.new ≡ out.old ++ opcode_bytes op) }
{
    match bytes_of(op) {
        (first, None) => out.push(first),
        (first, Some(second)) => {
            out.push(first)?;
            out.push(second)
        }
    }
}

impl Draft {
    /// Adds the operand of instruction `at`, of this kind, with the token of what it names.
    pub fn push_operand(
        &mut self,
        at: u32,
        kind: OperandKind,
        operand: &Operand,
        token: u32,
    ) -> Result<(), NoMemory>
        requires linked { IsLinked self.old }
        requires within { AreWithin (length self.old.latest) operand.now }
        requires some { (to : ℕ) → operand.now ≡ operands.Target to → 0 < operand_size kind [] }
        requires small { length self.old.bytes + size_of kind operand.now < 2 ^ 31 }
        ensures linked { OnOk result (IsLinked self.new) }
        ensures kept { OnOk result (IsKept self.old self.new) }
        ensures draft { (code : List Ins) (done : ℕ) (want : List ℕ) → IsDraft (from_on (length self.old.offsets)) code done want self.old → ((to : ℕ) → kind ≡ kinds.Branch8 → operand.now ≡ operands.Target to → IsShort code at to (length self.old.bytes + size_of kind operand.now)) → OnOk result (IsDraft (from_on (length self.old.offsets)) code done (want ++ tail_of token (offsets_of code) (length self.old.bytes + size_of kind operand.now) kind operand.now) self.new) }
        ensures watched { (code : List Ins) (done : ℕ) (want : List ℕ) → IsDraft (from_on (length self.old.offsets)) code done want self.old → ((to : ℕ) → kind ≡ kinds.Branch8 → operand.now ≡ operands.Target to → IsShort code at to (length self.old.bytes + size_of kind operand.now)) → OnOk result ((to : ℕ) → kind ≡ kinds.Branch8 → operand.now ≡ operands.Target to → IsWatched (from_on (length self.old.offsets)) code self.new.sites self.new.far at to) }
    {
        match operand {
            Operand::Nothing => Ok(()),
            Operand::Var(number) => push_number(&mut self.bytes, width(kind), u64::from(*number)),
            Operand::Int(number) => push_signed(&mut self.bytes, width(kind), *number),
            Operand::Real(bits) => push_number(&mut self.bytes, width(kind), *bits),
            Operand::Target(to) => self.push_branch(at, kind, *to),
            Operand::Targets(targets) => self.push_switch(at, targets.get().as_slice()),
            Operand::Method(_) | Operand::Field(_) | Operand::Of(_) | Operand::Text(_) => {
                push_number(&mut self.bytes, 4, u64::from(token))
            }
        }
    }

    /// Adds the displacement of the branch `at` to instruction `to`.
    fn push_branch(&mut self, at: u32, kind: OperandKind, to: u32) -> Result<(), NoMemory>
        requires linked { IsLinked self.old }
        requires within { to < length self.old.latest }
        requires some { 0 < operand_size kind [] }
        requires small { length self.old.bytes + operand_size kind [] < 2 ^ 31 }
        ensures linked { OnOk result (IsLinked self.new) }
        ensures kept { OnOk result (IsKept self.old self.new) }
        ensures draft { (code : List Ins) (done : ℕ) (want : List ℕ) → IsDraft (from_on (length self.old.offsets)) code done want self.old → (kind ≡ kinds.Branch8 → IsShort code at to (length self.old.bytes + operand_size kind [])) → OnOk result (IsDraft (from_on (length self.old.offsets)) code done (want ++ tail_of 0 (offsets_of code) (length self.old.bytes + operand_size kind []) kind (operands.Target to)) self.new) }
        ensures watched { (code : List Ins) (done : ℕ) (want : List ℕ) → IsDraft (from_on (length self.old.offsets)) code done want self.old → (kind ≡ kinds.Branch8 → IsShort code at to (length self.old.bytes + operand_size kind [])) → OnOk result (kind ≡ kinds.Branch8 → IsWatched (from_on (length self.old.offsets)) code self.new.sites self.new.far at to) }
    {
        let place = self.bytes.len() as u32;
        let end = place + width(kind) as u32;
        self.push_target(Site {
            at,
            kind,
            place,
            end,
            to,
            before: None,
        })
    }

    /// Adds the count of a switch's targets and the displacements to them (III.3.66).
    fn push_switch(&mut self, at: u32, targets: &[u32]) -> Result<(), NoMemory>
        requires linked { IsLinked self.old }
        requires within { All (λ t. t < length self.old.latest) targets.now }
        requires small { length self.old.bytes + (4 + 4 * length targets.now) < 2 ^ 31 }
        ensures linked { OnOk result (IsLinked self.new) }
        ensures kept { OnOk result (IsKept self.old self.new) }
        ensures draft { (code : List Ins) (done : ℕ) (want : List ℕ) → IsDraft (from_on (length self.old.offsets)) code done want self.old → OnOk result (IsDraft (from_on (length self.old.offsets)) code done (want ++ (number_bytes 4 (length targets.now) ++ target_bytes (offsets_of code) (length self.old.bytes + (4 + 4 * length targets.now)) targets.now)) self.new) }
    {
        push_number(&mut self.bytes, 4, targets.len() as u64)?;
        let end = (self.bytes.len() + 4 * targets.len()) as u32;
        for to in targets {
            let place = self.bytes.len() as u32;
            self.push_target(Site {
                at,
                kind: OperandKind::Switch,
                place,
                end,
                to: *to,
                before: None,
            })?;
        }
        Ok(())
    }
}
