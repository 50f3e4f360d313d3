// Made by tools/words.py from tools/words.txt: change that text, and run the script.
//! The numbers of the words, each named by its spelling: `DOT_` stands for a first dot, `_` for a dot
//! within, and nothing for a last one. `WORDS` has the words in this order.

pub const BANG: u16 = 0;

pub const DOUBLE_BANG: u16 = 1;

pub const AMPERSAND: u16 = 2;

pub const OPEN_PAREN: u16 = 3;

pub const CLOSE_PAREN: u16 = 4;

pub const STAR: u16 = 5;

pub const PLUS: u16 = 6;

pub const COMMA: u16 = 7;

pub const MINUS: u16 = 8;

pub const ELLIPSIS: u16 = 9;

pub const DOT_ADDON: u16 = 10;

pub const DOT_ASSEMBLY: u16 = 11;

pub const DOT_CCTOR: u16 = 12;

pub const DOT_CLASS: u16 = 13;

pub const DOT_CORFLAGS: u16 = 14;

pub const DOT_CTOR: u16 = 15;

pub const DOT_CULTURE: u16 = 16;

pub const DOT_CUSTOM: u16 = 17;

pub const DOT_DATA: u16 = 18;

pub const DOT_EMITBYTE: u16 = 19;

pub const DOT_ENTRYPOINT: u16 = 20;

pub const DOT_EVENT: u16 = 21;

pub const DOT_EXPORT: u16 = 22;

pub const DOT_FIELD: u16 = 23;

pub const DOT_FILE: u16 = 24;

pub const DOT_FIRE: u16 = 25;

pub const DOT_GET: u16 = 26;

pub const DOT_HASH: u16 = 27;

pub const DOT_IMAGEBASE: u16 = 28;

pub const DOT_INTERFACEIMPL: u16 = 29;

pub const DOT_LANGUAGE: u16 = 30;

pub const DOT_LINE: u16 = 31;

pub const DOT_LOCALE: u16 = 32;

pub const DOT_LOCALS: u16 = 33;

pub const DOT_MAXSTACK: u16 = 34;

pub const DOT_METHOD: u16 = 35;

pub const DOT_MODULE: u16 = 36;

pub const DOT_MRESOURCE: u16 = 37;

pub const DOT_NAMESPACE: u16 = 38;

pub const DOT_OTHER: u16 = 39;

pub const DOT_OVERRIDE: u16 = 40;

pub const DOT_PACK: u16 = 41;

pub const DOT_PARAM: u16 = 42;

pub const DOT_PDIRECT: u16 = 43;

pub const DOT_PERMISSION: u16 = 44;

pub const DOT_PERMISSIONSET: u16 = 45;

pub const DOT_PROPERTY: u16 = 46;

pub const DOT_PUBLICKEY: u16 = 47;

pub const DOT_PUBLICKEYTOKEN: u16 = 48;

pub const DOT_REMOVEON: u16 = 49;

pub const DOT_SET: u16 = 50;

pub const DOT_SIZE: u16 = 51;

pub const DOT_STACKRESERVE: u16 = 52;

pub const DOT_SUBSYSTEM: u16 = 53;

pub const DOT_TRY: u16 = 54;

pub const DOT_TYPEDEF: u16 = 55;

pub const DOT_VER: u16 = 56;

pub const DOT_VTENTRY: u16 = 57;

pub const DOT_VTFIXUP: u16 = 58;

pub const DOT_ZEROINIT: u16 = 59;

pub const SLASH: u16 = 60;

pub const COLON: u16 = 61;

pub const DOUBLE_COLON: u16 = 62;

pub const LESS: u16 = 63;

pub const EQUALS: u16 = 64;

pub const GREATER: u16 = 65;

pub const OPEN_BRACKET: u16 = 66;

pub const BRACKET_IN: u16 = 67;

pub const BRACKET_OPT: u16 = 68;

pub const BRACKET_OUT: u16 = 69;

pub const CLOSE_BRACKET: u16 = 70;

pub const ABSTRACT: u16 = 71;

pub const ADD: u16 = 72;

pub const ADD_OVF: u16 = 73;

pub const ADD_OVF_UN: u16 = 74;

pub const AGGRESSIVEINLINING: u16 = 75;

pub const ALGORITHM: u16 = 76;

pub const ALIGNMENT: u16 = 77;

pub const AND: u16 = 78;

pub const ANSI: u16 = 79;

pub const ARGLIST: u16 = 80;

pub const AS: u16 = 81;

pub const ASSEMBLY: u16 = 82;

pub const AT: u16 = 83;

pub const AUTO: u16 = 84;

pub const AUTOCHAR: u16 = 85;

pub const BEFOREFIELDINIT: u16 = 86;

pub const BEQ: u16 = 87;

pub const BEQ_S: u16 = 88;

pub const BGE: u16 = 89;

pub const BGE_S: u16 = 90;

pub const BGE_UN: u16 = 91;

pub const BGE_UN_S: u16 = 92;

pub const BGT: u16 = 93;

pub const BGT_S: u16 = 94;

pub const BGT_UN: u16 = 95;

pub const BGT_UN_S: u16 = 96;

pub const BLE: u16 = 97;

pub const BLE_S: u16 = 98;

pub const BLE_UN: u16 = 99;

pub const BLE_UN_S: u16 = 100;

pub const BLT: u16 = 101;

pub const BLT_S: u16 = 102;

pub const BLT_UN: u16 = 103;

pub const BLT_UN_S: u16 = 104;

pub const BNE_UN: u16 = 105;

pub const BNE_UN_S: u16 = 106;

pub const BOOL: u16 = 107;

pub const BOX: u16 = 108;

pub const BR: u16 = 109;

pub const BR_S: u16 = 110;

pub const BREAK: u16 = 111;

pub const BRFALSE: u16 = 112;

pub const BRFALSE_S: u16 = 113;

pub const BRINST: u16 = 114;

pub const BRINST_S: u16 = 115;

pub const BRNULL: u16 = 116;

pub const BRNULL_S: u16 = 117;

pub const BRTRUE: u16 = 118;

pub const BRTRUE_S: u16 = 119;

pub const BRZERO: u16 = 120;

pub const BRZERO_S: u16 = 121;

pub const BYTEARRAY: u16 = 122;

pub const CALL: u16 = 123;

pub const CALLI: u16 = 124;

pub const CALLVIRT: u16 = 125;

pub const CASTCLASS: u16 = 126;

pub const CATCH: u16 = 127;

pub const CEQ: u16 = 128;

pub const CGT: u16 = 129;

pub const CGT_UN: u16 = 130;

pub const CHAR: u16 = 131;

pub const CIL: u16 = 132;

pub const CKFINITE: u16 = 133;

pub const CLASS: u16 = 134;

pub const CLT: u16 = 135;

pub const CLT_UN: u16 = 136;

pub const COMPILERCONTROLLED: u16 = 137;

pub const CONSTRAINED: u16 = 138;

pub const CONV_I: u16 = 139;

pub const CONV_I1: u16 = 140;

pub const CONV_I2: u16 = 141;

pub const CONV_I4: u16 = 142;

pub const CONV_I8: u16 = 143;

pub const CONV_OVF_I: u16 = 144;

pub const CONV_OVF_I_UN: u16 = 145;

pub const CONV_OVF_I1: u16 = 146;

pub const CONV_OVF_I1_UN: u16 = 147;

pub const CONV_OVF_I2: u16 = 148;

pub const CONV_OVF_I2_UN: u16 = 149;

pub const CONV_OVF_I4: u16 = 150;

pub const CONV_OVF_I4_UN: u16 = 151;

pub const CONV_OVF_I8: u16 = 152;

pub const CONV_OVF_I8_UN: u16 = 153;

pub const CONV_OVF_U: u16 = 154;

pub const CONV_OVF_U_UN: u16 = 155;

pub const CONV_OVF_U1: u16 = 156;

pub const CONV_OVF_U1_UN: u16 = 157;

pub const CONV_OVF_U2: u16 = 158;

pub const CONV_OVF_U2_UN: u16 = 159;

pub const CONV_OVF_U4: u16 = 160;

pub const CONV_OVF_U4_UN: u16 = 161;

pub const CONV_OVF_U8: u16 = 162;

pub const CONV_OVF_U8_UN: u16 = 163;

pub const CONV_R_UN: u16 = 164;

pub const CONV_R4: u16 = 165;

pub const CONV_R8: u16 = 166;

pub const CONV_U: u16 = 167;

pub const CONV_U1: u16 = 168;

pub const CONV_U2: u16 = 169;

pub const CONV_U4: u16 = 170;

pub const CONV_U8: u16 = 171;

pub const CPBLK: u16 = 172;

pub const CPOBJ: u16 = 173;

pub const DEFAULT: u16 = 174;

pub const DIV: u16 = 175;

pub const DIV_UN: u16 = 176;

pub const DUP: u16 = 177;

pub const ENDFAULT: u16 = 178;

pub const ENDFILTER: u16 = 179;

pub const ENDFINALLY: u16 = 180;

pub const EXPLICIT: u16 = 181;

pub const EXTENDS: u16 = 182;

pub const EXTERN: u16 = 183;

pub const FALSE: u16 = 184;

pub const FAMANDASSEM: u16 = 185;

pub const FAMILY: u16 = 186;

pub const FAMORASSEM: u16 = 187;

pub const FAULT: u16 = 188;

pub const FIELD: u16 = 189;

pub const FILTER: u16 = 190;

pub const FINAL: u16 = 191;

pub const FINALLY: u16 = 192;

pub const FLAGS: u16 = 193;

pub const FLOAT32: u16 = 194;

pub const FLOAT64: u16 = 195;

pub const FORWARDREF: u16 = 196;

pub const HANDLER: u16 = 197;

pub const HIDEBYSIG: u16 = 198;

pub const IMPLEMENTS: u16 = 199;

pub const IMPORT: u16 = 200;

pub const INIT: u16 = 201;

pub const INITBLK: u16 = 202;

pub const INITOBJ: u16 = 203;

pub const INITONLY: u16 = 204;

pub const INSTANCE: u16 = 205;

pub const INT: u16 = 206;

pub const INT16: u16 = 207;

pub const INT32: u16 = 208;

pub const INT64: u16 = 209;

pub const INT8: u16 = 210;

pub const INTERFACE: u16 = 211;

pub const INTERNALCALL: u16 = 212;

pub const ISINST: u16 = 213;

pub const JMP: u16 = 214;

pub const LDARG: u16 = 215;

pub const LDARG_0: u16 = 216;

pub const LDARG_1: u16 = 217;

pub const LDARG_2: u16 = 218;

pub const LDARG_3: u16 = 219;

pub const LDARG_S: u16 = 220;

pub const LDARGA: u16 = 221;

pub const LDARGA_S: u16 = 222;

pub const LDC_I4: u16 = 223;

pub const LDC_I4_0: u16 = 224;

pub const LDC_I4_1: u16 = 225;

pub const LDC_I4_2: u16 = 226;

pub const LDC_I4_3: u16 = 227;

pub const LDC_I4_4: u16 = 228;

pub const LDC_I4_5: u16 = 229;

pub const LDC_I4_6: u16 = 230;

pub const LDC_I4_7: u16 = 231;

pub const LDC_I4_8: u16 = 232;

pub const LDC_I4_M1: u16 = 233;

pub const LDC_I4_S: u16 = 234;

pub const LDC_I8: u16 = 235;

pub const LDC_R4: u16 = 236;

pub const LDC_R8: u16 = 237;

pub const LDELEM: u16 = 238;

pub const LDELEM_ANY: u16 = 239;

pub const LDELEM_I: u16 = 240;

pub const LDELEM_I1: u16 = 241;

pub const LDELEM_I2: u16 = 242;

pub const LDELEM_I4: u16 = 243;

pub const LDELEM_I8: u16 = 244;

pub const LDELEM_R4: u16 = 245;

pub const LDELEM_R8: u16 = 246;

pub const LDELEM_REF: u16 = 247;

pub const LDELEM_U1: u16 = 248;

pub const LDELEM_U2: u16 = 249;

pub const LDELEM_U4: u16 = 250;

pub const LDELEM_U8: u16 = 251;

pub const LDELEMA: u16 = 252;

pub const LDFLD: u16 = 253;

pub const LDFLDA: u16 = 254;

pub const LDFTN: u16 = 255;

pub const LDIND_I: u16 = 256;

pub const LDIND_I1: u16 = 257;

pub const LDIND_I2: u16 = 258;

pub const LDIND_I4: u16 = 259;

pub const LDIND_I8: u16 = 260;

pub const LDIND_R4: u16 = 261;

pub const LDIND_R8: u16 = 262;

pub const LDIND_REF: u16 = 263;

pub const LDIND_U1: u16 = 264;

pub const LDIND_U2: u16 = 265;

pub const LDIND_U4: u16 = 266;

pub const LDIND_U8: u16 = 267;

pub const LDLEN: u16 = 268;

pub const LDLOC: u16 = 269;

pub const LDLOC_0: u16 = 270;

pub const LDLOC_1: u16 = 271;

pub const LDLOC_2: u16 = 272;

pub const LDLOC_3: u16 = 273;

pub const LDLOC_S: u16 = 274;

pub const LDLOCA: u16 = 275;

pub const LDLOCA_S: u16 = 276;

pub const LDNULL: u16 = 277;

pub const LDOBJ: u16 = 278;

pub const LDSFLD: u16 = 279;

pub const LDSFLDA: u16 = 280;

pub const LDSTR: u16 = 281;

pub const LDTOKEN: u16 = 282;

pub const LDVIRTFTN: u16 = 283;

pub const LEAVE: u16 = 284;

pub const LEAVE_S: u16 = 285;

pub const LITERAL: u16 = 286;

pub const LOCALLOC: u16 = 287;

pub const MANAGED: u16 = 288;

pub const MARSHAL: u16 = 289;

pub const METHOD: u16 = 290;

pub const MKREFANY: u16 = 291;

pub const MODOPT: u16 = 292;

pub const MODREQ: u16 = 293;

pub const MUL: u16 = 294;

pub const MUL_OVF: u16 = 295;

pub const MUL_OVF_UN: u16 = 296;

pub const NATIVE: u16 = 297;

pub const NEG: u16 = 298;

pub const NESTED: u16 = 299;

pub const NEWARR: u16 = 300;

pub const NEWOBJ: u16 = 301;

pub const NEWSLOT: u16 = 302;

pub const NO: u16 = 303;

pub const NOINLINING: u16 = 304;

pub const NOOPTIMIZATION: u16 = 305;

pub const NOP: u16 = 306;

pub const NOT: u16 = 307;

pub const NOTSERIALIZED: u16 = 308;

pub const NULLREF: u16 = 309;

pub const OBJECT: u16 = 310;

pub const OR: u16 = 311;

pub const PINNED: u16 = 312;

pub const PINVOKEIMPL: u16 = 313;

pub const POP: u16 = 314;

pub const PRESERVESIG: u16 = 315;

pub const PRIVATE: u16 = 316;

pub const PRIVATESCOPE: u16 = 317;

pub const PUBLIC: u16 = 318;

pub const READONLY: u16 = 319;

pub const REFANYTYPE: u16 = 320;

pub const REFANYVAL: u16 = 321;

pub const REM: u16 = 322;

pub const REM_UN: u16 = 323;

pub const REQSECOBJ: u16 = 324;

pub const RET: u16 = 325;

pub const RETARGETABLE: u16 = 326;

pub const RETHROW: u16 = 327;

pub const RTSPECIALNAME: u16 = 328;

pub const RUNTIME: u16 = 329;

pub const SEALED: u16 = 330;

pub const SEQUENTIAL: u16 = 331;

pub const SERIALIZABLE: u16 = 332;

pub const SHL: u16 = 333;

pub const SHR: u16 = 334;

pub const SHR_UN: u16 = 335;

pub const SIZEOF: u16 = 336;

pub const SPECIALNAME: u16 = 337;

pub const STARG: u16 = 338;

pub const STARG_S: u16 = 339;

pub const STATIC: u16 = 340;

pub const STELEM: u16 = 341;

pub const STELEM_ANY: u16 = 342;

pub const STELEM_I: u16 = 343;

pub const STELEM_I1: u16 = 344;

pub const STELEM_I2: u16 = 345;

pub const STELEM_I4: u16 = 346;

pub const STELEM_I8: u16 = 347;

pub const STELEM_R4: u16 = 348;

pub const STELEM_R8: u16 = 349;

pub const STELEM_REF: u16 = 350;

pub const STFLD: u16 = 351;

pub const STIND_I: u16 = 352;

pub const STIND_I1: u16 = 353;

pub const STIND_I2: u16 = 354;

pub const STIND_I4: u16 = 355;

pub const STIND_I8: u16 = 356;

pub const STIND_R4: u16 = 357;

pub const STIND_R8: u16 = 358;

pub const STIND_REF: u16 = 359;

pub const STLOC: u16 = 360;

pub const STLOC_0: u16 = 361;

pub const STLOC_1: u16 = 362;

pub const STLOC_2: u16 = 363;

pub const STLOC_3: u16 = 364;

pub const STLOC_S: u16 = 365;

pub const STOBJ: u16 = 366;

pub const STRICT: u16 = 367;

pub const STRING: u16 = 368;

pub const STSFLD: u16 = 369;

pub const SUB: u16 = 370;

pub const SUB_OVF: u16 = 371;

pub const SUB_OVF_UN: u16 = 372;

pub const SWITCH: u16 = 373;

pub const SYNCHRONIZED: u16 = 374;

pub const TAIL: u16 = 375;

pub const THROW: u16 = 376;

pub const TO: u16 = 377;

pub const TRUE: u16 = 378;

pub const TYPE: u16 = 379;

pub const TYPEDREF: u16 = 380;

pub const UINT: u16 = 381;

pub const UINT16: u16 = 382;

pub const UINT32: u16 = 383;

pub const UINT64: u16 = 384;

pub const UINT8: u16 = 385;

pub const UNALIGNED: u16 = 386;

pub const UNBOX: u16 = 387;

pub const UNBOX_ANY: u16 = 388;

pub const UNICODE: u16 = 389;

pub const UNMANAGED: u16 = 390;

pub const UNMANAGEDEXP: u16 = 391;

pub const UNSIGNED: u16 = 392;

pub const VALUETYPE: u16 = 393;

pub const VARARG: u16 = 394;

pub const VIRTUAL: u16 = 395;

pub const VOID: u16 = 396;

pub const VOLATILE: u16 = 397;

pub const XOR: u16 = 398;

pub const OPEN_BRACE: u16 = 399;

pub const CLOSE_BRACE: u16 = 400;
