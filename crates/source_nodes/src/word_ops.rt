//! The opcode of each word, by its number (ECMA-335 III.1.2, VI.C.2).

use opcode_table::Op;

macro_rules! ops {
    ($($op:ident)*) => {
        [$(Op::$op,)*]
    };
}

/// The opcode that the word with each number names; `nop` where it names none.
pub static WORD_OPS: [Op; 401] = ops![
    Nop Nop Nop Nop Nop Nop Nop Nop Nop Nop Nop Nop Nop Nop Nop Nop Nop Nop Nop Nop Nop Nop Nop
    Nop Nop Nop Nop Nop Nop Nop Nop Nop Nop Nop Nop Nop Nop Nop Nop Nop Nop Nop Nop Nop Nop Nop
    Nop Nop Nop Nop Nop Nop Nop Nop Nop Nop Nop Nop Nop Nop Nop Nop Nop Nop Nop Nop Nop Nop Nop
    Nop Nop Nop Add AddOvf AddOvfUn Nop Nop Nop And Nop Arglist Nop Nop Nop Nop Nop Nop Beq BeqS
    Bge BgeS BgeUn BgeUnS Bgt BgtS BgtUn BgtUnS Ble BleS BleUn BleUnS Blt BltS BltUn BltUnS BneUn
    BneUnS Nop Box Br BrS Break Brfalse BrfalseS Brtrue BrtrueS Brfalse BrfalseS Brtrue BrtrueS
    Brfalse BrfalseS Nop Call Nop Callvirt Castclass Nop Ceq Cgt CgtUn Nop Nop Ckfinite Nop Clt
    CltUn Nop Constrained ConvI ConvI1 ConvI2 ConvI4 ConvI8 ConvOvfI ConvOvfIUn ConvOvfI1
    ConvOvfI1Un ConvOvfI2 ConvOvfI2Un ConvOvfI4 ConvOvfI4Un ConvOvfI8 ConvOvfI8Un ConvOvfU
    ConvOvfUUn ConvOvfU1 ConvOvfU1Un ConvOvfU2 ConvOvfU2Un ConvOvfU4 ConvOvfU4Un ConvOvfU8
    ConvOvfU8Un ConvRUn ConvR4 ConvR8 ConvU ConvU1 ConvU2 ConvU4 ConvU8 Cpblk Cpobj Nop Div DivUn
    Dup Endfinally Endfilter Endfinally Nop Nop Nop Nop Nop Nop Nop Nop Nop Nop Nop Nop Nop Nop
    Nop Nop Nop Nop Nop Nop Nop Initblk Initobj Nop Nop Nop Nop Nop Nop Nop Nop Nop Isinst Nop
    Ldarg Ldarg0 Ldarg1 Ldarg2 Ldarg3 LdargS Ldarga LdargaS LdcI4 LdcI40 LdcI41 LdcI42 LdcI43
    LdcI44 LdcI45 LdcI46 LdcI47 LdcI48 LdcI4M1 LdcI4S LdcI8 LdcR4 LdcR8 Ldelem Ldelem LdelemI
    LdelemI1 LdelemI2 LdelemI4 LdelemI8 LdelemR4 LdelemR8 LdelemRef LdelemU1 LdelemU2 LdelemU4
    LdelemI8 Ldelema Ldfld Ldflda Ldftn LdindI LdindI1 LdindI2 LdindI4 LdindI8 LdindR4 LdindR8
    LdindRef LdindU1 LdindU2 LdindU4 LdindI8 Ldlen Ldloc Ldloc0 Ldloc1 Ldloc2 Ldloc3 LdlocS Ldloca
    LdlocaS Ldnull Ldobj Ldsfld Ldsflda Ldstr Ldtoken Ldvirtftn Leave LeaveS Nop Localloc Nop Nop
    Nop Mkrefany Nop Nop Mul MulOvf MulOvfUn Nop Neg Nop Newarr Newobj Nop Nop Nop Nop Nop Not Nop
    Nop Nop Or Nop Nop Pop Nop Nop Nop Nop Readonly Refanytype Refanyval Rem RemUn Nop Ret Nop
    Rethrow Nop Nop Nop Nop Nop Shl Shr ShrUn Sizeof Nop Starg StargS Nop Stelem Stelem StelemI
    StelemI1 StelemI2 StelemI4 StelemI8 StelemR4 StelemR8 StelemRef Stfld StindI StindI1 StindI2
    StindI4 StindI8 StindR4 StindR8 StindRef Stloc Stloc0 Stloc1 Stloc2 Stloc3 StlocS Stobj Nop
    Nop Stsfld Sub SubOvf SubOvfUn Switch Nop Tail Throw Nop Nop Nop Nop Nop Nop Nop Nop Nop
    Unaligned Unbox UnboxAny Nop Nop Nop Nop Nop Nop Nop Nop Volatile Xor Nop Nop
];
