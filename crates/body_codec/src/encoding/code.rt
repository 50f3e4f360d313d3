ghost use Rattle.std.specs.Prelude.{◌≡◌, ◌<◌, ◌+◌, ◌++◌, ◌^◌, ℕ, List, [], length, slice_index, slice_index_or, IfErr, OnOk};
ghost use Rattle.std.specs.List.{All};
ghost use Rattle.assembly_tree.specs.declared.body.Ins.{Ins};
ghost use Rattle.assembly_tree.specs.declared.body.Operand.TheVariants as operands;
ghost use Rattle.body_codec.specs.Chains.{IsDraft, IsKept, IsLinked, from_on, offsets_of};
ghost use Rattle.body_codec.specs.Encoding.{IsFarFault, OperandFits, ins_size, offset};
ghost use Rattle.body_codec.specs.Instruction.{kind, operand_size, piece_bytes};
ghost use Rattle.body_codec.specs.Written.{AreOffsets, AreWithin, HasToken, Reaches, code_bytes, piece_of, token_map};

use crate::BodyFault;
use crate::encoding::draft::Draft;
use crate::encoding::operand::{operand_token, push_opcode};
use assembly_tree::Ins;
use il_lists::NoMemory;
use opcode_table::kind_of;
use sig_codec::Numberer;

/// Writes the code of these instructions (III.1.9) in one pass, in the place of what the draft had. `Far` at the first short branch that doesn't reach.
pub(crate) fn draft_of<N: Numberer>(
    draft: &mut Draft,
    code: &[Ins],
    map: &N,
) -> Result<(), BodyFault>
    requires end { offset code.now (length code.now) < 2 ^ 31 }
    requires fits { All (λ ins. OperandFits (token_map (N.owner_tokens map.now) (N.method_tokens map.now) (N.field_tokens map.now) (N.locals_tokens map.now) (N.text_tokens map.now)) (length code.now) (kind ins.op) ins.operand) code.now }
    ensures offsets { OnOk result (AreOffsets code.now draft.new.offsets) }
    ensures written { OnOk result (draft.new.bytes ≡ code_bytes (token_map (N.owner_tokens map.now) (N.method_tokens map.now) (N.field_tokens map.now) (N.locals_tokens map.now) (N.text_tokens map.now)) draft.new.offsets code.now) }
    ensures tokens { OnOk result (All (λ ins. HasToken (token_map (N.owner_tokens map.now) (N.method_tokens map.now) (N.field_tokens map.now) (N.locals_tokens map.now) (N.text_tokens map.now)) ins.operand) code.now) }
    ensures near { OnOk result ((k : ℕ) (i : Ins) → k < length code.now → Reaches draft.new.offsets (slice_index draft.new.offsets (k + 1)) (kind (slice_index_or code.now k i).op) (slice_index_or code.now k i).operand) }
    ensures far { IfErr result (IsFarFault code.now) }
{
    draft.restart(code.len())?;
    for (k, ins) in code.iter().enumerate() {
        draft.begin()?;
        push_ins(draft, ins, k as u32, map)?;
    }
    let end = draft.bytes.len() as u32;
    draft.offsets.push(end)?;
    match draft.far {
        Some(at) => Err(BodyFault::Far { at }),
        None => Ok(()),
    }
}

/// Adds instruction `at`, which has begun.
fn push_ins<N: Numberer>(draft: &mut Draft, ins: &Ins, at: u32, map: &N) -> Result<(), NoMemory>
    requires linked { IsLinked draft.old }
    requires begun { length draft.old.offsets ≡ at + 1 }
    requires within { AreWithin (length draft.old.latest) ins.now.operand }
    requires some { (to : ℕ) → ins.now.operand ≡ operands.Target to → 0 < operand_size (kind ins.now.op) [] }
    requires small { length draft.old.bytes + ins_size ins.now < 2 ^ 31 }
    ensures linked { OnOk result (IsLinked draft.new) }
    ensures kept { OnOk result (IsKept draft.old draft.new) }
    ensures token { OnOk result (HasToken (token_map (N.owner_tokens map.now) (N.method_tokens map.now) (N.field_tokens map.now) (N.locals_tokens map.now) (N.text_tokens map.now)) ins.now.operand) }
    ensures draft { (code : List Ins) (want : List ℕ) → IsDraft (from_on (at + 1)) code at want draft.old → at < length code → ((d : Ins) → slice_index_or code at d ≡ ins.now) → length want ≡ offset code at → OnOk result (IsDraft (from_on (at + 1)) code (at + 1) (want ++ piece_bytes (piece_of (token_map (N.owner_tokens map.now) (N.method_tokens map.now) (N.field_tokens map.now) (N.locals_tokens map.now) (N.text_tokens map.now)) (offsets_of code) at ins.now)) draft.new) }
{
    let token = operand_token(&ins.operand, map);
    push_opcode(&mut draft.bytes, ins.op)?;
    draft.push_operand(at, kind_of(ins.op), &ins.operand, token)
}
