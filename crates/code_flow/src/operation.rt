ghost use Rattle.std.specs.Prelude.{◌≡◌};
ghost use Rattle.code_flow.specs.Operations.{operation};

use opcode_table::Op;

/// The numbers of the stack (ECMA-335 III.1.1).
#[derive(Clone, Copy, Drop)]
pub enum Number {
    I4,
    I8,
    N,
    F,
}

/// The primitive types that instructions read and write without naming them as operands (ECMA-335 III.1.1.1).
#[derive(Clone, Copy, Drop)]
pub enum Numeric {
    I1,
    U1,
    I2,
    U2,
    I4,
    U4,
    I8,
    NInt,
    R4,
    R8,
}

/// The prefixes of instructions (ECMA-335 III.2).
#[derive(Clone, Copy, Drop)]
pub enum Prefix {
    Constrained,
    Tail,
    Readonly,
    Unaligned,
    Volatile,
}

/// What an instruction does (ECMA-335 III.3, III.4). Opcodes whose demands and effects are alike are one
/// operation.
#[derive(Clone, Copy, Drop)]
pub enum Operation {
    /// `nop` and `break`.
    Idle,
    Prefix(Prefix),
    LoadArgument,
    StoreArgument,
    ArgumentAddress,
    LoadLocal,
    StoreLocal,
    LocalAddress,
    LoadNull,
    LoadNumber(Number),
    Duplicate,
    Discard,
    /// `add`, `sub`, `mul`, `div` and `rem`.
    Arithmetic,
    /// Those that take no floating-point numbers.
    IntegerArithmetic,
    Shift,
    Negate,
    Complement,
    /// `ceq` and `cgt.un`, which take references and pointers too.
    CompareEqual,
    /// The other comparisons, which take pointers too.
    CompareOrder,
    BranchEqual,
    BranchOrder,
    BranchIf,
    Branch,
    Switch,
    /// A conversion to this number.
    Convert(Number),
    /// `conv.r.un`.
    ConvertUnsigned,
    CheckFinite,
    /// `ldind` of this type.
    LoadIndirect(Numeric),
    LoadIndirectReference,
    StoreIndirect(Numeric),
    StoreIndirectReference,
    LoadObject,
    StoreObject,
    CopyObject,
    InitObject,
    SizeOf,
    LoadFunction,
    LoadVirtualFunction,
    LoadString,
    LoadToken,
    BoxValue,
    /// `castclass` and `isinst`.
    Cast,
    Unbox,
    UnboxAny,
    Throw,
    LoadField,
    FieldAddress,
    StoreField,
    LoadStatic,
    StaticAddress,
    StoreStatic,
    NewArray,
    LoadLength,
    /// `ldelem` with a type.
    LoadElement,
    ElementAddress,
    StoreElement,
    /// `ldelem` of this primitive type.
    LoadElementOf(Numeric),
    StoreElementOf(Numeric),
    LoadElementReference,
    StoreElementReference,
    Call,
    CallVirtual,
    NewObject,
    Return,
    EndFilter,
    Leave,
    EndFinally,
    Rethrow,
    /// What is never verified.
    Unlisted,
}

/// What the instruction with that opcode does.
#[tactic(auto, unfolding(crate::specs::Operations::operation))]
pub fn operation_of(op: Op) -> Operation
    ensures { result ≡ operation op }
{
    match op {
        Op::Nop | Op::Break => Operation::Idle,
        Op::Ldarg0 | Op::Ldarg1 | Op::Ldarg2 | Op::Ldarg3 | Op::LdargS | Op::Ldarg =>
            Operation::LoadArgument,
        Op::Ldloc0 | Op::Ldloc1 | Op::Ldloc2 | Op::Ldloc3 | Op::LdlocS | Op::Ldloc =>
            Operation::LoadLocal,
        Op::Stloc0 | Op::Stloc1 | Op::Stloc2 | Op::Stloc3 | Op::StlocS | Op::Stloc =>
            Operation::StoreLocal,
        Op::LdargaS | Op::Ldarga => Operation::ArgumentAddress,
        Op::StargS | Op::Starg => Operation::StoreArgument,
        Op::LdlocaS | Op::Ldloca => Operation::LocalAddress,
        Op::Ldnull => Operation::LoadNull,
        Op::LdcI4M1
        | Op::LdcI40
        | Op::LdcI41
        | Op::LdcI42
        | Op::LdcI43
        | Op::LdcI44
        | Op::LdcI45
        | Op::LdcI46
        | Op::LdcI47
        | Op::LdcI48
        | Op::LdcI4S
        | Op::LdcI4 => Operation::LoadNumber(Number::I4),
        Op::LdcI8 => Operation::LoadNumber(Number::I8),
        Op::LdcR4 | Op::LdcR8 => Operation::LoadNumber(Number::F),
        Op::Dup => Operation::Duplicate,
        Op::Pop => Operation::Discard,
        Op::Call => Operation::Call,
        Op::Ret => Operation::Return,
        Op::BrS | Op::Br => Operation::Branch,
        Op::BrfalseS | Op::BrtrueS | Op::Brfalse | Op::Brtrue => Operation::BranchIf,
        Op::BeqS | Op::BneUnS | Op::Beq | Op::BneUn => Operation::BranchEqual,
        Op::BgeS
        | Op::BgtS
        | Op::BleS
        | Op::BltS
        | Op::BgeUnS
        | Op::BgtUnS
        | Op::BleUnS
        | Op::BltUnS
        | Op::Bge
        | Op::Bgt
        | Op::Ble
        | Op::Blt
        | Op::BgeUn
        | Op::BgtUn
        | Op::BleUn
        | Op::BltUn => Operation::BranchOrder,
        Op::Switch => Operation::Switch,
        Op::LdindI1 => Operation::LoadIndirect(Numeric::I1),
        Op::LdindU1 => Operation::LoadIndirect(Numeric::U1),
        Op::LdindI2 => Operation::LoadIndirect(Numeric::I2),
        Op::LdindU2 => Operation::LoadIndirect(Numeric::U2),
        Op::LdindI4 => Operation::LoadIndirect(Numeric::I4),
        Op::LdindU4 => Operation::LoadIndirect(Numeric::U4),
        Op::LdindI8 => Operation::LoadIndirect(Numeric::I8),
        Op::LdindI => Operation::LoadIndirect(Numeric::NInt),
        Op::LdindR4 => Operation::LoadIndirect(Numeric::R4),
        Op::LdindR8 => Operation::LoadIndirect(Numeric::R8),
        Op::LdindRef => Operation::LoadIndirectReference,
        Op::StindRef => Operation::StoreIndirectReference,
        Op::StindI1 => Operation::StoreIndirect(Numeric::I1),
        Op::StindI2 => Operation::StoreIndirect(Numeric::I2),
        Op::StindI4 => Operation::StoreIndirect(Numeric::I4),
        Op::StindI8 => Operation::StoreIndirect(Numeric::I8),
        Op::StindR4 => Operation::StoreIndirect(Numeric::R4),
        Op::StindR8 => Operation::StoreIndirect(Numeric::R8),
        Op::Add | Op::Sub | Op::Mul | Op::Div | Op::Rem => Operation::Arithmetic,
        Op::DivUn
        | Op::RemUn
        | Op::And
        | Op::Or
        | Op::Xor
        | Op::AddOvf
        | Op::AddOvfUn
        | Op::MulOvf
        | Op::MulOvfUn
        | Op::SubOvf
        | Op::SubOvfUn => Operation::IntegerArithmetic,
        Op::Shl | Op::Shr | Op::ShrUn => Operation::Shift,
        Op::Neg => Operation::Negate,
        Op::Not => Operation::Complement,
        Op::ConvI1
        | Op::ConvI2
        | Op::ConvI4
        | Op::ConvU4
        | Op::ConvOvfI1Un
        | Op::ConvOvfI2Un
        | Op::ConvOvfI4Un
        | Op::ConvOvfU1Un
        | Op::ConvOvfU2Un
        | Op::ConvOvfU4Un
        | Op::ConvOvfI1
        | Op::ConvOvfU1
        | Op::ConvOvfI2
        | Op::ConvOvfU2
        | Op::ConvOvfI4
        | Op::ConvOvfU4
        | Op::ConvU2
        | Op::ConvU1 => Operation::Convert(Number::I4),
        Op::ConvI8
        | Op::ConvU8
        | Op::ConvOvfI8Un
        | Op::ConvOvfU8Un
        | Op::ConvOvfI8
        | Op::ConvOvfU8 => Operation::Convert(Number::I8),
        Op::ConvR4 | Op::ConvR8 => Operation::Convert(Number::F),
        Op::Callvirt => Operation::CallVirtual,
        Op::Cpobj => Operation::CopyObject,
        Op::Ldobj => Operation::LoadObject,
        Op::Ldstr => Operation::LoadString,
        Op::Newobj => Operation::NewObject,
        Op::Castclass | Op::Isinst => Operation::Cast,
        Op::ConvRUn => Operation::ConvertUnsigned,
        Op::Unbox => Operation::Unbox,
        Op::Throw => Operation::Throw,
        Op::Ldfld => Operation::LoadField,
        Op::Ldflda => Operation::FieldAddress,
        Op::Stfld => Operation::StoreField,
        Op::Ldsfld => Operation::LoadStatic,
        Op::Ldsflda => Operation::StaticAddress,
        Op::Stsfld => Operation::StoreStatic,
        Op::Stobj => Operation::StoreObject,
        Op::ConvOvfIUn | Op::ConvOvfUUn | Op::ConvI | Op::ConvOvfI | Op::ConvOvfU | Op::ConvU =>
            Operation::Convert(Number::N),
        Op::Box => Operation::BoxValue,
        Op::Newarr => Operation::NewArray,
        Op::Ldlen => Operation::LoadLength,
        Op::Ldelema => Operation::ElementAddress,
        Op::LdelemI1 => Operation::LoadElementOf(Numeric::I1),
        Op::LdelemU1 => Operation::LoadElementOf(Numeric::U1),
        Op::LdelemI2 => Operation::LoadElementOf(Numeric::I2),
        Op::LdelemU2 => Operation::LoadElementOf(Numeric::U2),
        Op::LdelemI4 => Operation::LoadElementOf(Numeric::I4),
        Op::LdelemU4 => Operation::LoadElementOf(Numeric::U4),
        Op::LdelemI8 => Operation::LoadElementOf(Numeric::I8),
        Op::LdelemI => Operation::LoadElementOf(Numeric::NInt),
        Op::LdelemR4 => Operation::LoadElementOf(Numeric::R4),
        Op::LdelemR8 => Operation::LoadElementOf(Numeric::R8),
        Op::LdelemRef => Operation::LoadElementReference,
        Op::StelemI => Operation::StoreElementOf(Numeric::NInt),
        Op::StelemI1 => Operation::StoreElementOf(Numeric::I1),
        Op::StelemI2 => Operation::StoreElementOf(Numeric::I2),
        Op::StelemI4 => Operation::StoreElementOf(Numeric::I4),
        Op::StelemI8 => Operation::StoreElementOf(Numeric::I8),
        Op::StelemR4 => Operation::StoreElementOf(Numeric::R4),
        Op::StelemR8 => Operation::StoreElementOf(Numeric::R8),
        Op::StelemRef => Operation::StoreElementReference,
        Op::Ldelem => Operation::LoadElement,
        Op::Stelem => Operation::StoreElement,
        Op::UnboxAny => Operation::UnboxAny,
        Op::Refanyval
        | Op::Mkrefany
        | Op::Arglist
        | Op::Localloc
        | Op::Cpblk
        | Op::Initblk
        | Op::Refanytype => Operation::Unlisted,
        Op::Ckfinite => Operation::CheckFinite,
        Op::Ldtoken => Operation::LoadToken,
        Op::Endfinally => Operation::EndFinally,
        Op::Leave | Op::LeaveS => Operation::Leave,
        Op::StindI => Operation::StoreIndirect(Numeric::NInt),
        Op::Ceq | Op::CgtUn => Operation::CompareEqual,
        Op::Cgt | Op::Clt | Op::CltUn => Operation::CompareOrder,
        Op::Ldftn => Operation::LoadFunction,
        Op::Ldvirtftn => Operation::LoadVirtualFunction,
        Op::Endfilter => Operation::EndFilter,
        Op::Unaligned => Operation::Prefix(Prefix::Unaligned),
        Op::Volatile => Operation::Prefix(Prefix::Volatile),
        Op::Tail => Operation::Prefix(Prefix::Tail),
        Op::Initobj => Operation::InitObject,
        Op::Constrained => Operation::Prefix(Prefix::Constrained),
        Op::Rethrow => Operation::Rethrow,
        Op::Sizeof => Operation::SizeOf,
        Op::Readonly => Operation::Prefix(Prefix::Readonly),
    }
}
