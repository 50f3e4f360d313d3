// Made by tools/grammar.py from tools/grammar.txt: change that text, and run the script.
//! The nonterminals of the grammar, by their numbers. `X?`, `X*` and round groups stand for nonterminals of
//! their own: `X? = X | nothing`, `X* = X X* | nothing`.

/// Source
pub const SOURCE: u16 = 0;
/// Decl
pub const DECL: u16 = 1;
/// Asm
pub const ASSEMBLY: u16 = 2;
/// AsmAttr*
pub const ASSEMBLY_ATTR_STAR: u16 = 3;
/// AsmAttr
pub const ASSEMBLY_ATTR: u16 = 4;
/// Flags
pub const FLAGS: u16 = 5;
/// ( `as` NAME )?
pub const ALIAS_OPT: u16 = 6;
/// ( `as` NAME )
pub const ALIAS: u16 = 7;
/// ExtItem*
pub const EXTERN_ITEM_STAR: u16 = 8;
/// ExtItem
pub const EXTERN_ITEM: u16 = 9;
/// Key
pub const KEY: u16 = 10;
/// Str
pub const TEXT: u16 = 11;
/// ( `+` QSTRING )*
pub const PLUS_STRING_STAR: u16 = 12;
/// ( `+` QSTRING )
pub const PLUS_STRING: u16 = 13;
/// AsmItem*
pub const ASSEMBLY_ITEM_STAR: u16 = 14;
/// AsmItem
pub const ASSEMBLY_ITEM: u16 = 15;
/// Custom
pub const CUSTOM: u16 = 16;
/// Ref
pub const METHOD_REF: u16 = 17;
/// Conv
pub const CALL_CONV: u16 = 18;
/// ( `instance` `explicit`? )?
pub const INSTANCE_OPT: u16 = 19;
/// ( `instance` `explicit`? )
pub const INSTANCE: u16 = 20;
/// `explicit`?
pub const EXPLICIT_OPT: u16 = 21;
/// ( `default` | `vararg` )?
pub const CALL_KIND_OPT: u16 = 22;
/// ( `default` | `vararg` )
pub const CALL_KIND: u16 = 23;
/// Type
pub const TYPE: u16 = 24;
/// Base
pub const TYPE_BASE: u16 = 25;
/// IntType
pub const INT_TYPE: u16 = 26;
/// ( `int8` | `int16` | `int32` | `int64` )
pub const UNSIGNED_INT: u16 = 27;
/// ( `int` | `uint` | `unsigned` `int` )
pub const NATIVE_INT: u16 = 28;
/// TName
pub const TYPE_NAME: u16 = 29;
/// Path
pub const PATH: u16 = 30;
/// ( `/` NAME )*
pub const SLASH_NAME_STAR: u16 = 31;
/// ( `/` NAME )
pub const SLASH_NAME: u16 = 32;
/// Inst?
pub const TYPE_ARGS_OPT: u16 = 33;
/// Inst
pub const TYPE_ARGS: u16 = 34;
/// ( `,` Type )*
pub const COMMA_TYPE_STAR: u16 = 35;
/// ( `,` Type )
pub const COMMA_TYPE: u16 = 36;
/// Index
pub const INDEX: u16 = 37;
/// Suffix*
pub const TYPE_SUFFIX_STAR: u16 = 38;
/// Suffix
pub const TYPE_SUFFIX: u16 = 39;
/// Shape
pub const SHAPE: u16 = 40;
/// Bound?
pub const BOUND_OPT: u16 = 41;
/// Bound
pub const BOUND: u16 = 42;
/// ( `...` INT? )?
pub const BOUND_END_OPT: u16 = 43;
/// ( `...` INT? )
pub const BOUND_END: u16 = 44;
/// INT?
pub const INT_OPT: u16 = 45;
/// ( `,` Bound? )*
pub const COMMA_BOUND_STAR: u16 = 46;
/// ( `,` Bound? )
pub const COMMA_BOUND: u16 = 47;
/// Spec
pub const SPEC: u16 = 48;
/// Target
pub const TARGET: u16 = 49;
/// End
pub const TARGET_END: u16 = 50;
/// MName
pub const METHOD_NAME: u16 = 51;
/// Gen?
pub const METHOD_GENERICS_OPT: u16 = 52;
/// Gen
pub const METHOD_GENERICS: u16 = 53;
/// ( `[` INT `]` | Type ( `,` Type )* )
pub const GEN_ARGS: u16 = 54;
/// Sig
pub const SIGNATURE: u16 = 55;
/// ( SigArg ( `,` SigArg )* )?
pub const SIG_ARGS_OPT: u16 = 56;
/// ( SigArg ( `,` SigArg )* )
pub const SIG_ARGS: u16 = 57;
/// SigArg
pub const SIG_ARG: u16 = 58;
/// DefArg
pub const DEF_ARG: u16 = 59;
/// ParAttr*
pub const PARAM_ATTR_STAR: u16 = 60;
/// ParAttr
pub const PARAM_ATTR: u16 = 61;
/// NAME?
pub const NAME_OPT: u16 = 62;
/// ( `,` SigArg )*
pub const COMMA_SIG_ARG_STAR: u16 = 63;
/// ( `,` SigArg )
pub const COMMA_SIG_ARG: u16 = 64;
/// NTail
pub const NAME_TAIL: u16 = 65;
/// EQBYTES?
pub const EQ_BYTES_OPT: u16 = 66;
/// Class
pub const CLASS: u16 = 67;
/// ClassAttr*
pub const CLASS_ATTR_STAR: u16 = 68;
/// ClassAttr
pub const CLASS_ATTR: u16 = 69;
/// ( `public` | `private` | `family` | `assembly` | `famandassem` | `famorassem` )
pub const NESTED_ACCESS: u16 = 70;
/// Typars?
pub const TYPARS_OPT: u16 = 71;
/// Typars
pub const TYPARS: u16 = 72;
/// Typar
pub const TYPAR: u16 = 73;
/// TyparAttr*
pub const TYPAR_ATTR_STAR: u16 = 74;
/// TyparAttr
pub const TYPAR_ATTR: u16 = 75;
/// ( `(` Spec ( `,` Spec )* `)` )?
pub const TYPAR_BOUNDS_OPT: u16 = 76;
/// ( `(` Spec ( `,` Spec )* `)` )
pub const TYPAR_BOUNDS: u16 = 77;
/// ( `,` Spec )*
pub const COMMA_SPEC_STAR: u16 = 78;
/// ( `,` Spec )
pub const COMMA_SPEC: u16 = 79;
/// ( `,` Typar )*
pub const COMMA_TYPAR_STAR: u16 = 80;
/// ( `,` Typar )
pub const COMMA_TYPAR: u16 = 81;
/// ( `extends` Spec )?
pub const EXTENDS_OPT: u16 = 82;
/// ( `extends` Spec )
pub const EXTENDS: u16 = 83;
/// ( `implements` Spec ( `,` Spec )* )?
pub const IMPLEMENTS_OPT: u16 = 84;
/// ( `implements` Spec ( `,` Spec )* )
pub const IMPLEMENTS: u16 = 85;
/// Member*
pub const MEMBER_STAR: u16 = 86;
/// Member
pub const MEMBER: u16 = 87;
/// Field
pub const FIELD: u16 = 88;
/// ( `[` INT `]` )?
pub const BRACKETED_INT_OPT: u16 = 89;
/// ( `[` INT `]` )
pub const BRACKETED_INT: u16 = 90;
/// FieldAttr*
pub const FIELD_ATTR_STAR: u16 = 91;
/// FieldAttr
pub const FIELD_ATTR: u16 = 92;
/// ( `=` Const )?
pub const EQ_CONST_OPT: u16 = 93;
/// ( `=` Const )
pub const EQ_CONST: u16 = 94;
/// Const
pub const CONST: u16 = 95;
/// ( `true` | `false` )
pub const TRUTH: u16 = 96;
/// ( `at` NAME )?
pub const AT_NAME_OPT: u16 = 97;
/// ( `at` NAME )
pub const AT_NAME: u16 = 98;
/// Method
pub const METHOD: u16 = 99;
/// MethAttr*
pub const METHOD_ATTR_STAR: u16 = 100;
/// MethAttr
pub const METHOD_ATTR: u16 = 101;
/// DefArgs?
pub const DEF_ARGS_OPT: u16 = 102;
/// DefArgs
pub const DEF_ARGS: u16 = 103;
/// ( `,` DefArg )*
pub const COMMA_DEF_ARG_STAR: u16 = 104;
/// ( `,` DefArg )
pub const COMMA_DEF_ARG: u16 = 105;
/// Impl*
pub const IMPL_ATTR_STAR: u16 = 106;
/// Impl
pub const IMPL_ATTR: u16 = 107;
/// Item*
pub const ITEM_STAR: u16 = 108;
/// Item
pub const ITEM: u16 = 109;
/// Instr
pub const INSTRUCTION: u16 = 110;
/// NONE
pub const OP_NONE: u16 = 111;
/// VAR
pub const OP_VAR: u16 = 112;
/// NUM
pub const OP_NUM: u16 = 113;
/// REAL
pub const OP_REAL: u16 = 114;
/// Real
pub const REAL_BITS: u16 = 115;
/// BR
pub const OP_BRANCH: u16 = 116;
/// METH
pub const OP_METHOD: u16 = 117;
/// FLD
pub const OP_FIELD: u16 = 118;
/// FRef
pub const FIELD_REF: u16 = 119;
/// FTarget
pub const FIELD_TARGET: u16 = 120;
/// FTail
pub const FIELD_TAIL: u16 = 121;
/// TYP
pub const OP_TYPE: u16 = 122;
/// ( NAME ( `,` NAME )* )?
pub const NAMES_OPT: u16 = 123;
/// ( NAME ( `,` NAME )* )
pub const NAMES: u16 = 124;
/// ( `,` NAME )*
pub const COMMA_NAME_STAR: u16 = 125;
/// ( `,` NAME )
pub const COMMA_NAME: u16 = 126;
/// ( Str | BYTEARRAY )
pub const STRING_OPERAND: u16 = 127;
/// ( `method` Ref | `field` FRef | Spec )
pub const TOKEN_OPERAND: u16 = 128;
/// `init`?
pub const INIT_OPT: u16 = 129;
/// ( Local ( `,` Local )* )?
pub const LOCALS_OPT: u16 = 130;
/// ( Local ( `,` Local )* )
pub const LOCALS: u16 = 131;
/// Local
pub const LOCAL: u16 = 132;
/// ( `,` Local )*
pub const COMMA_LOCAL_STAR: u16 = 133;
/// ( `,` Local )
pub const COMMA_LOCAL: u16 = 134;
/// ( `method` Ref | Spec `::` MName )
pub const OVERRIDDEN: u16 = 135;
/// ( `[` INT `]` Flags? ( `=` Const )? | `type` TyparKey )
pub const PARAM_OF: u16 = 136;
/// Flags?
pub const FLAGS_OPT: u16 = 137;
/// TyparKey
pub const TYPAR_KEY: u16 = 138;
/// ( Block | NAME `to` NAME )
pub const TRY_RANGE: u16 = 139;
/// Block
pub const BLOCK: u16 = 140;
/// Clause
pub const CLAUSE: u16 = 141;
/// Handler
pub const HANDLER: u16 = 142;
/// ( NAME | Block )
pub const FILTER_START: u16 = 143;
/// Clause*
pub const CLAUSE_STAR: u16 = 144;
/// Property
pub const PROPERTY: u16 = 145;
/// PropAttr*
pub const PROPERTY_ATTR_STAR: u16 = 146;
/// PropAttr
pub const PROPERTY_ATTR: u16 = 147;
/// PropItem*
pub const PROPERTY_ITEM_STAR: u16 = 148;
/// PropItem
pub const PROPERTY_ITEM: u16 = 149;
/// Event
pub const EVENT: u16 = 150;
/// EvItem*
pub const EVENT_ITEM_STAR: u16 = 151;
/// EvItem
pub const EVENT_ITEM: u16 = 152;
/// Data
pub const DATA: u16 = 153;
/// `cil`?
pub const CIL_OPT: u16 = 154;
/// ( NAME `=` )?
pub const DATA_LABEL_OPT: u16 = 155;
/// ( NAME `=` )
pub const DATA_LABEL: u16 = 156;
/// DataBody
pub const DATA_BODY: u16 = 157;
/// DataItem
pub const DATA_ITEM: u16 = 158;
/// DataNum
pub const DATA_NUM: u16 = 159;
/// ( `(` INT `)` )?
pub const PARENTHESIZED_INT_OPT: u16 = 160;
/// ( `(` INT `)` )
pub const PARENTHESIZED_INT: u16 = 161;
/// ( `,` DataItem )*
pub const COMMA_DATA_ITEM_STAR: u16 = 162;
/// ( `,` DataItem )
pub const COMMA_DATA_ITEM: u16 = 163;
/// Decl*
pub const DECL_STAR: u16 = 164;
/// The number of nonterminals.
pub const COUNT: u16 = 165;
