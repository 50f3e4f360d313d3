ghost use Rattle.std.specs.Prelude.{◌≡◌};
ghost use Rattle.il_shrink.specs.Branches.{short_form, long_form};

use opcode_table::Op;

/// The opcode with its target in one byte, where it is a branch with two forms (III.3).
pub fn short_form(op: Op) -> Op
    ensures { result ≡ short_form op }
{
    match op {
        Op::Br => Op::BrS,
        Op::Brfalse => Op::BrfalseS,
        Op::Brtrue => Op::BrtrueS,
        Op::Beq => Op::BeqS,
        Op::Bge => Op::BgeS,
        Op::Bgt => Op::BgtS,
        Op::Ble => Op::BleS,
        Op::Blt => Op::BltS,
        Op::BneUn => Op::BneUnS,
        Op::BgeUn => Op::BgeUnS,
        Op::BgtUn => Op::BgtUnS,
        Op::BleUn => Op::BleUnS,
        Op::BltUn => Op::BltUnS,
        Op::Leave => Op::LeaveS,
        _ => op,
    }
}

/// The opcode with its target in four bytes, where it is a branch with two forms (III.3).
pub fn long_form(op: Op) -> Op
    ensures { result ≡ long_form op }
{
    match op {
        Op::BrS => Op::Br,
        Op::BrfalseS => Op::Brfalse,
        Op::BrtrueS => Op::Brtrue,
        Op::BeqS => Op::Beq,
        Op::BgeS => Op::Bge,
        Op::BgtS => Op::Bgt,
        Op::BleS => Op::Ble,
        Op::BltS => Op::Blt,
        Op::BneUnS => Op::BneUn,
        Op::BgeUnS => Op::BgeUn,
        Op::BgtUnS => Op::BgtUn,
        Op::BleUnS => Op::BleUn,
        Op::BltUnS => Op::BltUn,
        Op::LeaveS => Op::Leave,
        _ => op,
    }
}
