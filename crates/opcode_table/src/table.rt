ghost use Rattle.std.specs.Prelude.{◌≡◌, ◌<◌};
ghost use Rattle.opcode_table.specs.Opcodes.{number_of, bytes_of, word_of, kind_of};

use crate::{Op, OperandKind};

/// What the standard says of one opcode.
pub struct Opcode {
    pub op: Op,
    pub bytes: (u8, Option<u8>),
    pub word: &'static str,
    pub kind: OperandKind,
}

macro_rules! rows {
    ($($first:literal $second:expr, $op:ident $word:literal $kind:ident;)*) => {
        [$(Opcode {
            op: Op::$op,
            bytes: ($first, $second),
            word: $word,
            kind: OperandKind::$kind,
        },)*]
    };
}

// The rows are made by tools/opcodes.py from tools/opcodes.txt.
/// The opcodes of Partition III in the order of their bytes, so that an `Op` is its row's number, and then a row for each
/// alias, a word that sources use besides the mnemonic.
pub static OPCODES: [Opcode; 227] = rows![
    0x00 None, Nop "nop" Nothing;
    0x01 None, Break "break" Nothing;
    0x02 None, Ldarg0 "ldarg.0" Nothing;
    0x03 None, Ldarg1 "ldarg.1" Nothing;
    0x04 None, Ldarg2 "ldarg.2" Nothing;
    0x05 None, Ldarg3 "ldarg.3" Nothing;
    0x06 None, Ldloc0 "ldloc.0" Nothing;
    0x07 None, Ldloc1 "ldloc.1" Nothing;
    0x08 None, Ldloc2 "ldloc.2" Nothing;
    0x09 None, Ldloc3 "ldloc.3" Nothing;
    0x0A None, Stloc0 "stloc.0" Nothing;
    0x0B None, Stloc1 "stloc.1" Nothing;
    0x0C None, Stloc2 "stloc.2" Nothing;
    0x0D None, Stloc3 "stloc.3" Nothing;
    0x0E None, LdargS "ldarg.s" Var8;
    0x0F None, LdargaS "ldarga.s" Var8;
    0x10 None, StargS "starg.s" Var8;
    0x11 None, LdlocS "ldloc.s" Var8;
    0x12 None, LdlocaS "ldloca.s" Var8;
    0x13 None, StlocS "stloc.s" Var8;
    0x14 None, Ldnull "ldnull" Nothing;
    0x15 None, LdcI4M1 "ldc.i4.m1" Nothing;
    0x16 None, LdcI40 "ldc.i4.0" Nothing;
    0x17 None, LdcI41 "ldc.i4.1" Nothing;
    0x18 None, LdcI42 "ldc.i4.2" Nothing;
    0x19 None, LdcI43 "ldc.i4.3" Nothing;
    0x1A None, LdcI44 "ldc.i4.4" Nothing;
    0x1B None, LdcI45 "ldc.i4.5" Nothing;
    0x1C None, LdcI46 "ldc.i4.6" Nothing;
    0x1D None, LdcI47 "ldc.i4.7" Nothing;
    0x1E None, LdcI48 "ldc.i4.8" Nothing;
    0x1F None, LdcI4S "ldc.i4.s" Num8;
    0x20 None, LdcI4 "ldc.i4" Num32;
    0x21 None, LdcI8 "ldc.i8" Num64;
    0x22 None, LdcR4 "ldc.r4" Real4;
    0x23 None, LdcR8 "ldc.r8" Real8;
    0x25 None, Dup "dup" Nothing;
    0x26 None, Pop "pop" Nothing;
    0x28 None, Call "call" Method;
    0x2A None, Ret "ret" Nothing;
    0x2B None, BrS "br.s" Branch8;
    0x2C None, BrfalseS "brfalse.s" Branch8;
    0x2D None, BrtrueS "brtrue.s" Branch8;
    0x2E None, BeqS "beq.s" Branch8;
    0x2F None, BgeS "bge.s" Branch8;
    0x30 None, BgtS "bgt.s" Branch8;
    0x31 None, BleS "ble.s" Branch8;
    0x32 None, BltS "blt.s" Branch8;
    0x33 None, BneUnS "bne.un.s" Branch8;
    0x34 None, BgeUnS "bge.un.s" Branch8;
    0x35 None, BgtUnS "bgt.un.s" Branch8;
    0x36 None, BleUnS "ble.un.s" Branch8;
    0x37 None, BltUnS "blt.un.s" Branch8;
    0x38 None, Br "br" Branch32;
    0x39 None, Brfalse "brfalse" Branch32;
    0x3A None, Brtrue "brtrue" Branch32;
    0x3B None, Beq "beq" Branch32;
    0x3C None, Bge "bge" Branch32;
    0x3D None, Bgt "bgt" Branch32;
    0x3E None, Ble "ble" Branch32;
    0x3F None, Blt "blt" Branch32;
    0x40 None, BneUn "bne.un" Branch32;
    0x41 None, BgeUn "bge.un" Branch32;
    0x42 None, BgtUn "bgt.un" Branch32;
    0x43 None, BleUn "ble.un" Branch32;
    0x44 None, BltUn "blt.un" Branch32;
    0x45 None, Switch "switch" Switch;
    0x46 None, LdindI1 "ldind.i1" Nothing;
    0x47 None, LdindU1 "ldind.u1" Nothing;
    0x48 None, LdindI2 "ldind.i2" Nothing;
    0x49 None, LdindU2 "ldind.u2" Nothing;
    0x4A None, LdindI4 "ldind.i4" Nothing;
    0x4B None, LdindU4 "ldind.u4" Nothing;
    0x4C None, LdindI8 "ldind.i8" Nothing;
    0x4D None, LdindI "ldind.i" Nothing;
    0x4E None, LdindR4 "ldind.r4" Nothing;
    0x4F None, LdindR8 "ldind.r8" Nothing;
    0x50 None, LdindRef "ldind.ref" Nothing;
    0x51 None, StindRef "stind.ref" Nothing;
    0x52 None, StindI1 "stind.i1" Nothing;
    0x53 None, StindI2 "stind.i2" Nothing;
    0x54 None, StindI4 "stind.i4" Nothing;
    0x55 None, StindI8 "stind.i8" Nothing;
    0x56 None, StindR4 "stind.r4" Nothing;
    0x57 None, StindR8 "stind.r8" Nothing;
    0x58 None, Add "add" Nothing;
    0x59 None, Sub "sub" Nothing;
    0x5A None, Mul "mul" Nothing;
    0x5B None, Div "div" Nothing;
    0x5C None, DivUn "div.un" Nothing;
    0x5D None, Rem "rem" Nothing;
    0x5E None, RemUn "rem.un" Nothing;
    0x5F None, And "and" Nothing;
    0x60 None, Or "or" Nothing;
    0x61 None, Xor "xor" Nothing;
    0x62 None, Shl "shl" Nothing;
    0x63 None, Shr "shr" Nothing;
    0x64 None, ShrUn "shr.un" Nothing;
    0x65 None, Neg "neg" Nothing;
    0x66 None, Not "not" Nothing;
    0x67 None, ConvI1 "conv.i1" Nothing;
    0x68 None, ConvI2 "conv.i2" Nothing;
    0x69 None, ConvI4 "conv.i4" Nothing;
    0x6A None, ConvI8 "conv.i8" Nothing;
    0x6B None, ConvR4 "conv.r4" Nothing;
    0x6C None, ConvR8 "conv.r8" Nothing;
    0x6D None, ConvU4 "conv.u4" Nothing;
    0x6E None, ConvU8 "conv.u8" Nothing;
    0x6F None, Callvirt "callvirt" Method;
    0x70 None, Cpobj "cpobj" Of;
    0x71 None, Ldobj "ldobj" Of;
    0x72 None, Ldstr "ldstr" Text;
    0x73 None, Newobj "newobj" Method;
    0x74 None, Castclass "castclass" Of;
    0x75 None, Isinst "isinst" Of;
    0x76 None, ConvRUn "conv.r.un" Nothing;
    0x79 None, Unbox "unbox" Of;
    0x7A None, Throw "throw" Nothing;
    0x7B None, Ldfld "ldfld" Field;
    0x7C None, Ldflda "ldflda" Field;
    0x7D None, Stfld "stfld" Field;
    0x7E None, Ldsfld "ldsfld" Field;
    0x7F None, Ldsflda "ldsflda" Field;
    0x80 None, Stsfld "stsfld" Field;
    0x81 None, Stobj "stobj" Of;
    0x82 None, ConvOvfI1Un "conv.ovf.i1.un" Nothing;
    0x83 None, ConvOvfI2Un "conv.ovf.i2.un" Nothing;
    0x84 None, ConvOvfI4Un "conv.ovf.i4.un" Nothing;
    0x85 None, ConvOvfI8Un "conv.ovf.i8.un" Nothing;
    0x86 None, ConvOvfU1Un "conv.ovf.u1.un" Nothing;
    0x87 None, ConvOvfU2Un "conv.ovf.u2.un" Nothing;
    0x88 None, ConvOvfU4Un "conv.ovf.u4.un" Nothing;
    0x89 None, ConvOvfU8Un "conv.ovf.u8.un" Nothing;
    0x8A None, ConvOvfIUn "conv.ovf.i.un" Nothing;
    0x8B None, ConvOvfUUn "conv.ovf.u.un" Nothing;
    0x8C None, Box "box" Of;
    0x8D None, Newarr "newarr" Of;
    0x8E None, Ldlen "ldlen" Nothing;
    0x8F None, Ldelema "ldelema" Of;
    0x90 None, LdelemI1 "ldelem.i1" Nothing;
    0x91 None, LdelemU1 "ldelem.u1" Nothing;
    0x92 None, LdelemI2 "ldelem.i2" Nothing;
    0x93 None, LdelemU2 "ldelem.u2" Nothing;
    0x94 None, LdelemI4 "ldelem.i4" Nothing;
    0x95 None, LdelemU4 "ldelem.u4" Nothing;
    0x96 None, LdelemI8 "ldelem.i8" Nothing;
    0x97 None, LdelemI "ldelem.i" Nothing;
    0x98 None, LdelemR4 "ldelem.r4" Nothing;
    0x99 None, LdelemR8 "ldelem.r8" Nothing;
    0x9A None, LdelemRef "ldelem.ref" Nothing;
    0x9B None, StelemI "stelem.i" Nothing;
    0x9C None, StelemI1 "stelem.i1" Nothing;
    0x9D None, StelemI2 "stelem.i2" Nothing;
    0x9E None, StelemI4 "stelem.i4" Nothing;
    0x9F None, StelemI8 "stelem.i8" Nothing;
    0xA0 None, StelemR4 "stelem.r4" Nothing;
    0xA1 None, StelemR8 "stelem.r8" Nothing;
    0xA2 None, StelemRef "stelem.ref" Nothing;
    0xA3 None, Ldelem "ldelem" Of;
    0xA4 None, Stelem "stelem" Of;
    0xA5 None, UnboxAny "unbox.any" Of;
    0xB3 None, ConvOvfI1 "conv.ovf.i1" Nothing;
    0xB4 None, ConvOvfU1 "conv.ovf.u1" Nothing;
    0xB5 None, ConvOvfI2 "conv.ovf.i2" Nothing;
    0xB6 None, ConvOvfU2 "conv.ovf.u2" Nothing;
    0xB7 None, ConvOvfI4 "conv.ovf.i4" Nothing;
    0xB8 None, ConvOvfU4 "conv.ovf.u4" Nothing;
    0xB9 None, ConvOvfI8 "conv.ovf.i8" Nothing;
    0xBA None, ConvOvfU8 "conv.ovf.u8" Nothing;
    0xC2 None, Refanyval "refanyval" Of;
    0xC3 None, Ckfinite "ckfinite" Nothing;
    0xC6 None, Mkrefany "mkrefany" Of;
    0xD0 None, Ldtoken "ldtoken" Token;
    0xD1 None, ConvU2 "conv.u2" Nothing;
    0xD2 None, ConvU1 "conv.u1" Nothing;
    0xD3 None, ConvI "conv.i" Nothing;
    0xD4 None, ConvOvfI "conv.ovf.i" Nothing;
    0xD5 None, ConvOvfU "conv.ovf.u" Nothing;
    0xD6 None, AddOvf "add.ovf" Nothing;
    0xD7 None, AddOvfUn "add.ovf.un" Nothing;
    0xD8 None, MulOvf "mul.ovf" Nothing;
    0xD9 None, MulOvfUn "mul.ovf.un" Nothing;
    0xDA None, SubOvf "sub.ovf" Nothing;
    0xDB None, SubOvfUn "sub.ovf.un" Nothing;
    0xDC None, Endfinally "endfinally" Nothing;
    0xDD None, Leave "leave" Branch32;
    0xDE None, LeaveS "leave.s" Branch8;
    0xDF None, StindI "stind.i" Nothing;
    0xE0 None, ConvU "conv.u" Nothing;
    0xFE Some(0x00), Arglist "arglist" Nothing;
    0xFE Some(0x01), Ceq "ceq" Nothing;
    0xFE Some(0x02), Cgt "cgt" Nothing;
    0xFE Some(0x03), CgtUn "cgt.un" Nothing;
    0xFE Some(0x04), Clt "clt" Nothing;
    0xFE Some(0x05), CltUn "clt.un" Nothing;
    0xFE Some(0x06), Ldftn "ldftn" Method;
    0xFE Some(0x07), Ldvirtftn "ldvirtftn" Method;
    0xFE Some(0x09), Ldarg "ldarg" Var16;
    0xFE Some(0x0A), Ldarga "ldarga" Var16;
    0xFE Some(0x0B), Starg "starg" Var16;
    0xFE Some(0x0C), Ldloc "ldloc" Var16;
    0xFE Some(0x0D), Ldloca "ldloca" Var16;
    0xFE Some(0x0E), Stloc "stloc" Var16;
    0xFE Some(0x0F), Localloc "localloc" Nothing;
    0xFE Some(0x11), Endfilter "endfilter" Nothing;
    0xFE Some(0x12), Unaligned "unaligned." Byte;
    0xFE Some(0x13), Volatile "volatile." Nothing;
    0xFE Some(0x14), Tail "tail." Nothing;
    0xFE Some(0x15), Initobj "initobj" Of;
    0xFE Some(0x16), Constrained "constrained." Of;
    0xFE Some(0x17), Cpblk "cpblk" Nothing;
    0xFE Some(0x18), Initblk "initblk" Nothing;
    0xFE Some(0x1A), Rethrow "rethrow" Nothing;
    0xFE Some(0x1C), Sizeof "sizeof" Of;
    0xFE Some(0x1D), Refanytype "refanytype" Nothing;
    0xFE Some(0x1E), Readonly "readonly." Nothing;
    0x39 None, Brfalse "brnull" Branch32;
    0x39 None, Brfalse "brzero" Branch32;
    0x3A None, Brtrue "brinst" Branch32;
    0x2C None, BrfalseS "brnull.s" Branch8;
    0x2C None, BrfalseS "brzero.s" Branch8;
    0x2D None, BrtrueS "brinst.s" Branch8;
    0xDC None, Endfinally "endfault" Nothing;
    0x4C None, LdindI8 "ldind.u8" Nothing;
    0x96 None, LdelemI8 "ldelem.u8" Nothing;
    0xA3 None, Ldelem "ldelem.any" Of;
    0xA4 None, Stelem "stelem.any" Of;
];

// The number of an opcode's row.
fn number_of(op: Op) -> usize
    ensures value { result ≡ number_of op }
    ensures below { result < 216 }
{
    op as usize
}

/// The bytes of an opcode: the first, and where that is 0xFE the second.
pub fn bytes_of(op: Op) -> (u8, Option<u8>)
    ensures { result ≡ bytes_of op }
{
    OPCODES[number_of(op)].bytes
}

/// The mnemonic of an opcode.
pub fn word_of(op: Op) -> &'static str
    ensures { result.now ≡ word_of op }
{
    OPCODES[number_of(op)].word
}

/// What follows an opcode in a body.
pub fn kind_of(op: Op) -> OperandKind
    ensures { result ≡ kind_of op }
{
    OPCODES[number_of(op)].kind
}
