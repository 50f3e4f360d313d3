//! Rows of instructions on arguments and locals (ECMA-335 III.3.38 to III.3.45, III.3.61 to III.3.64).
ghost use Rattle.std.specs.Prelude.{◌≡◌, ◌<◌, ℕ, length, slice_get, unwrap_or, IfOk, IfSome};
ghost use Rattle.sig_pool.specs.Terms.{AllBelow};
ghost use Rattle.type_hierarchy.specs.Meaning.{Means};
ghost use Rattle.type_hierarchy.specs.World.{hierarchy, Stays};
ghost use Rattle.stack_rows.specs.RowMeanings.{type_option, MeansRow};
ghost use Rattle.code_flow.specs.Rows.{operand_variable, variable_by, variable, load_row, store_row, address_of, address_row};

use assembly_tree::{Ins, Operand};
use il_lists::NoMemory;
use opcode_table::Op;
use stack_rows::making::plain;
use stack_rows::row::{Demand, Pushed, Row};
use stack_rows::type_kinds::is_by_reference;
use std::alloc::Global;
use type_order::types::World;
use type_order::{StackType, TypeKey, TypeKeys, id_of, pointer_to, st_of};

/// The number of the variable that a short form names by its opcode.
fn short_form(op: Op) -> Option<u16>
    ensures { (n : ℕ) → unwrap_or result n ≡ variable_by op n }
{
    match op {
        Op::Ldarg0 | Op::Ldloc0 | Op::Stloc0 => Some(0),
        Op::Ldarg1 | Op::Ldloc1 | Op::Stloc1 => Some(1),
        Op::Ldarg2 | Op::Ldloc2 | Op::Stloc2 => Some(2),
        Op::Ldarg3 | Op::Ldloc3 | Op::Stloc3 => Some(3),
        Op::Nop
        | Op::Break
        | Op::LdargS
        | Op::LdargaS
        | Op::StargS
        | Op::LdlocS
        | Op::LdlocaS
        | Op::StlocS
        | Op::Ldnull
        | Op::LdcI4M1
        | Op::LdcI40
        | Op::LdcI41
        | Op::LdcI42
        | Op::LdcI43
        | Op::LdcI44
        | Op::LdcI45
        | Op::LdcI46
        | Op::LdcI47
        | Op::LdcI48
        | Op::LdcI4S
        | Op::LdcI4
        | Op::LdcI8
        | Op::LdcR4
        | Op::LdcR8
        | Op::Dup
        | Op::Pop
        | Op::Call
        | Op::Ret
        | Op::BrS
        | Op::BrfalseS
        | Op::BrtrueS
        | Op::BeqS
        | Op::BgeS
        | Op::BgtS
        | Op::BleS
        | Op::BltS
        | Op::BneUnS
        | Op::BgeUnS
        | Op::BgtUnS
        | Op::BleUnS
        | Op::BltUnS
        | Op::Br
        | Op::Brfalse
        | Op::Brtrue
        | Op::Beq
        | Op::Bge
        | Op::Bgt
        | Op::Ble
        | Op::Blt
        | Op::BneUn
        | Op::BgeUn
        | Op::BgtUn
        | Op::BleUn
        | Op::BltUn
        | Op::Switch
        | Op::LdindI1
        | Op::LdindU1
        | Op::LdindI2
        | Op::LdindU2
        | Op::LdindI4
        | Op::LdindU4
        | Op::LdindI8
        | Op::LdindI
        | Op::LdindR4
        | Op::LdindR8
        | Op::LdindRef
        | Op::StindRef
        | Op::StindI1
        | Op::StindI2
        | Op::StindI4
        | Op::StindI8
        | Op::StindR4
        | Op::StindR8
        | Op::Add
        | Op::Sub
        | Op::Mul
        | Op::Div
        | Op::DivUn
        | Op::Rem
        | Op::RemUn
        | Op::And
        | Op::Or
        | Op::Xor
        | Op::Shl
        | Op::Shr
        | Op::ShrUn
        | Op::Neg
        | Op::Not
        | Op::ConvI1
        | Op::ConvI2
        | Op::ConvI4
        | Op::ConvI8
        | Op::ConvR4
        | Op::ConvR8
        | Op::ConvU4
        | Op::ConvU8
        | Op::Callvirt
        | Op::Cpobj
        | Op::Ldobj
        | Op::Ldstr
        | Op::Newobj
        | Op::Castclass
        | Op::Isinst
        | Op::ConvRUn
        | Op::Unbox
        | Op::Throw
        | Op::Ldfld
        | Op::Ldflda
        | Op::Stfld
        | Op::Ldsfld
        | Op::Ldsflda
        | Op::Stsfld
        | Op::Stobj
        | Op::ConvOvfI1Un
        | Op::ConvOvfI2Un
        | Op::ConvOvfI4Un
        | Op::ConvOvfI8Un
        | Op::ConvOvfU1Un
        | Op::ConvOvfU2Un
        | Op::ConvOvfU4Un
        | Op::ConvOvfU8Un
        | Op::ConvOvfIUn
        | Op::ConvOvfUUn
        | Op::Box
        | Op::Newarr
        | Op::Ldlen
        | Op::Ldelema
        | Op::LdelemI1
        | Op::LdelemU1
        | Op::LdelemI2
        | Op::LdelemU2
        | Op::LdelemI4
        | Op::LdelemU4
        | Op::LdelemI8
        | Op::LdelemI
        | Op::LdelemR4
        | Op::LdelemR8
        | Op::LdelemRef
        | Op::StelemI
        | Op::StelemI1
        | Op::StelemI2
        | Op::StelemI4
        | Op::StelemI8
        | Op::StelemR4
        | Op::StelemR8
        | Op::StelemRef
        | Op::Ldelem
        | Op::Stelem
        | Op::UnboxAny
        | Op::ConvOvfI1
        | Op::ConvOvfU1
        | Op::ConvOvfI2
        | Op::ConvOvfU2
        | Op::ConvOvfI4
        | Op::ConvOvfU4
        | Op::ConvOvfI8
        | Op::ConvOvfU8
        | Op::Refanyval
        | Op::Ckfinite
        | Op::Mkrefany
        | Op::Ldtoken
        | Op::ConvU2
        | Op::ConvU1
        | Op::ConvI
        | Op::ConvOvfI
        | Op::ConvOvfU
        | Op::AddOvf
        | Op::AddOvfUn
        | Op::MulOvf
        | Op::MulOvfUn
        | Op::SubOvf
        | Op::SubOvfUn
        | Op::Endfinally
        | Op::Leave
        | Op::LeaveS
        | Op::StindI
        | Op::ConvU
        | Op::Arglist
        | Op::Ceq
        | Op::Cgt
        | Op::CgtUn
        | Op::Clt
        | Op::CltUn
        | Op::Ldftn
        | Op::Ldvirtftn
        | Op::Ldarg
        | Op::Ldarga
        | Op::Starg
        | Op::Ldloc
        | Op::Ldloca
        | Op::Stloc
        | Op::Localloc
        | Op::Endfilter
        | Op::Unaligned
        | Op::Volatile
        | Op::Tail
        | Op::Initobj
        | Op::Constrained
        | Op::Cpblk
        | Op::Initblk
        | Op::Rethrow
        | Op::Sizeof
        | Op::Refanytype
        | Op::Readonly => None,
    }
}

/// The number in an operand, or 0 where there is none.
fn operand_number(operand: &Operand) -> u16
    ensures { result ≡ operand_variable operand.now }
{
    match operand {
        Operand::Var(number) => *number,
        Operand::Nothing => 0,
        Operand::Int(_) => 0,
        Operand::Real(_) => 0,
        Operand::Target(_) => 0,
        Operand::Targets(_) => 0,
        Operand::Method(_) => 0,
        Operand::Field(_) => 0,
        Operand::Of(_) => 0,
        Operand::Text(_) => 0,
    }
}

/// The number of the argument or local of an instruction. Takes no memory.
#[tactic(auto, unfolding(code_flow::specs::Rows::variable))]
pub fn variable_number(ins: &Ins) -> u16
    ensures { result ≡ variable ins.now }
{
    match short_form(ins.op) {
        Some(number) => number,
        None => operand_number(&ins.operand),
    }
}

/// The key of the type of an instruction's variable; None where there is no such variable. Takes no memory.
pub fn variable_key(keys: &TypeKeys, ins: &Ins) -> Option<TypeKey>
    ensures is { result ≡ slice_get keys.now (variable ins.now) }
    ensures within { (n : ℕ) → AllBelow n keys.now → IfSome result (λ k. k < n) }
{
    match keys.get(variable_number(ins) as usize) {
        Some(key) => Some(*key),
        None => None,
    }
}

/// Of an instruction that loads a variable.
pub fn load_row(alloc: Global, w: &mut World, variable: Option<TypeKey>) -> Result<Row, NoMemory>
    requires { IfSome variable (λ k. k < length w.old.nodes) }
    ensures ok { IfOk result (λ r. MeansRow w.new.nodes r (load_row (hierarchy w.old) (type_option w.old.nodes variable))) }
    ensures stays { Stays w.old w.new }
{
    match variable {
        Some(key) => {
            let value = st_of(w, &key)?;
            plain(alloc, &[], &[Pushed::Always(value)])
        }
        None => plain(alloc, &[], &[Pushed::Always(StackType::Bad)]),
    }
}

/// Of an instruction that stores a variable.
pub fn store_row(alloc: Global, w: &mut World, variable: Option<TypeKey>) -> Result<Row, NoMemory>
    requires { IfSome variable (λ k. k < length w.old.nodes) }
    ensures ok { IfOk result (λ r. MeansRow w.new.nodes r (store_row (hierarchy w.old) (type_option w.old.nodes variable))) }
    ensures stays { Stays w.old w.new }
{
    match variable {
        Some(key) => {
            let value = st_of(w, &key)?;
            plain(alloc, &[Demand::To(value)], &[])
        }
        None => plain(alloc, &[Demand::Nothing], &[]),
    }
}

/// A pointer to a variable; there is none to one of a by-reference type.
fn address_of(w: &mut World, variable: Option<TypeKey>) -> Result<StackType, NoMemory>
    requires { IfSome variable (λ k. k < length w.old.nodes) }
    ensures ok { IfOk result (λ s. Means w.new.nodes s (address_of (hierarchy w.old) (type_option w.old.nodes variable))) }
    ensures stays { Stays w.old w.new }
{
    match variable {
        Some(key) => {
            if is_by_reference(w.pool(), id_of(&key)) {
                return Ok(StackType::Bad);
            }
            let pointer = pointer_to(w, &key)?;
            Ok(pointer)
        }
        None => Ok(StackType::Bad),
    }
}

/// Of an instruction that loads the address of a variable.
pub fn address_row(alloc: Global, w: &mut World, variable: Option<TypeKey>) -> Result<Row, NoMemory>
    requires { IfSome variable (λ k. k < length w.old.nodes) }
    ensures ok { IfOk result (λ r. MeansRow w.new.nodes r (address_row (hierarchy w.old) (type_option w.old.nodes variable))) }
    ensures stays { Stays w.old w.new }
{
    let pointer = address_of(w, variable)?;
    plain(alloc, &[], &[Pushed::Always(pointer)])
}
