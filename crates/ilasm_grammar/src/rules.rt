// Made by tools/grammar.py from tools/grammar.txt: change that text, and run the script.
//! The productions, in their order: a number is a place here. `productions` spells them out.

use crate::Symbol::{Nonterminal as N, Terminal as T};
use crate::{Symbol, nonterminals as n, terminals as t};
use il_lexer::word;

/// The nonterminal that each production may be applied to.
pub static HEADS: [u16; 641] = [
    0, 1, 1, 1, 1, 1, 1, 1, 1, 1, 1, 1, 1, 2, 2, 3, 3, 4, 4, 5, 6, 6, 7, 8, 8, 9, 9, 10, 10, 10,
    10, 10, 11, 12, 12, 13, 14, 14, 15, 15, 15, 16, 17, 18, 19, 19, 20, 21, 21, 22, 22, 23, 23, 24,
    25, 25, 25, 25, 25, 25, 25, 25, 25, 25, 25, 25, 25, 25, 26, 26, 26, 26, 26, 26, 26, 26, 26, 27,
    27, 27, 27, 28, 28, 28, 29, 29, 30, 31, 31, 32, 33, 33, 34, 35, 35, 36, 37, 37, 38, 38, 39, 39,
    39, 39, 39, 39, 40, 40, 40, 41, 41, 42, 42, 43, 43, 44, 45, 45, 46, 46, 47, 48, 48, 49, 49, 49,
    50, 51, 51, 51, 52, 52, 53, 54, 54, 55, 56, 56, 57, 58, 58, 59, 60, 60, 61, 61, 61, 61, 62, 62,
    63, 63, 64, 65, 65, 65, 66, 66, 67, 68, 68, 69, 69, 69, 69, 69, 69, 69, 69, 69, 69, 69, 69, 69,
    69, 69, 69, 69, 69, 70, 70, 70, 70, 70, 70, 71, 71, 72, 73, 74, 74, 75, 75, 75, 75, 75, 75, 76,
    76, 77, 78, 78, 79, 80, 80, 81, 82, 82, 83, 84, 84, 85, 86, 86, 87, 87, 87, 87, 87, 87, 87, 87,
    87, 87, 88, 89, 89, 90, 91, 91, 92, 92, 92, 92, 92, 92, 92, 92, 92, 92, 92, 92, 92, 92, 92, 93,
    93, 94, 95, 95, 95, 95, 95, 95, 95, 95, 96, 96, 97, 97, 98, 99, 100, 100, 101, 101, 101, 101,
    101, 101, 101, 101, 101, 101, 101, 101, 101, 101, 101, 101, 101, 101, 101, 102, 102, 103, 104,
    104, 105, 106, 106, 107, 107, 107, 107, 107, 107, 107, 107, 107, 107, 107, 108, 108, 109, 109,
    109, 109, 109, 109, 109, 109, 109, 109, 110, 110, 110, 110, 110, 110, 110, 110, 110, 110, 110,
    111, 111, 111, 111, 111, 111, 111, 111, 111, 111, 111, 111, 111, 111, 111, 111, 111, 111, 111,
    111, 111, 111, 111, 111, 111, 111, 111, 111, 111, 111, 111, 111, 111, 111, 111, 111, 111, 111,
    111, 111, 111, 111, 111, 111, 111, 111, 111, 111, 111, 111, 111, 111, 111, 111, 111, 111, 111,
    111, 111, 111, 111, 111, 111, 111, 111, 111, 111, 111, 111, 111, 111, 111, 111, 111, 111, 111,
    111, 111, 111, 111, 111, 111, 111, 111, 111, 111, 111, 111, 111, 111, 111, 111, 111, 111, 111,
    111, 111, 111, 111, 111, 111, 111, 111, 111, 111, 111, 111, 111, 111, 111, 111, 111, 111, 111,
    111, 111, 111, 111, 111, 111, 111, 111, 111, 111, 111, 111, 111, 111, 111, 111, 111, 111, 111,
    111, 111, 111, 111, 111, 111, 111, 111, 111, 112, 112, 112, 112, 112, 112, 112, 112, 112, 112,
    112, 112, 113, 113, 113, 113, 114, 114, 115, 115, 115, 116, 116, 116, 116, 116, 116, 116, 116,
    116, 116, 116, 116, 116, 116, 116, 116, 116, 116, 116, 116, 116, 116, 116, 116, 116, 116, 116,
    116, 116, 116, 116, 116, 116, 116, 117, 117, 117, 117, 117, 118, 118, 118, 118, 118, 118, 119,
    120, 120, 120, 121, 121, 121, 122, 122, 122, 122, 122, 122, 122, 122, 122, 122, 122, 122, 122,
    122, 122, 122, 122, 122, 122, 123, 123, 124, 125, 125, 126, 127, 127, 128, 128, 128, 129, 129,
    130, 130, 131, 132, 133, 133, 134, 135, 135, 136, 136, 137, 137, 138, 138, 139, 139, 140, 141,
    141, 141, 141, 142, 142, 143, 143, 144, 144, 145, 146, 146, 147, 147, 147, 148, 148, 149, 149,
    149, 149, 150, 151, 151, 152, 152, 152, 152, 152, 153, 154, 154, 155, 155, 156, 157, 157, 158,
    158, 159, 159, 159, 160, 160, 161, 162, 162, 163, 164, 164,
];

/// Where the body of each production begins in `BODIES`; it ends where the next begins.
pub static STARTS: [u16; 642] = [
    0, 2, 4, 6, 8, 11, 13, 15, 17, 18, 19, 20, 21, 22, 29, 34, 36, 36, 37, 38, 42, 43, 43, 45, 47,
    47, 48, 50, 58, 60, 62, 64, 66, 68, 70, 70, 72, 74, 74, 75, 78, 79, 82, 85, 87, 88, 88, 90, 91,
    91, 92, 92, 93, 94, 96, 97, 98, 99, 100, 101, 102, 103, 104, 105, 107, 110, 113, 115, 117, 118,
    119, 120, 121, 122, 123, 124, 125, 127, 128, 129, 130, 131, 132, 133, 135, 137, 138, 140, 142,
    142, 144, 145, 145, 149, 151, 151, 153, 154, 155, 157, 157, 159, 160, 161, 162, 166, 170, 171,
    175, 178, 179, 179, 180, 182, 183, 183, 185, 186, 186, 188, 188, 190, 191, 192, 196, 199, 201,
    204, 205, 206, 207, 208, 208, 211, 214, 216, 219, 220, 220, 222, 223, 224, 227, 229, 229, 230,
    231, 232, 233, 234, 234, 236, 236, 238, 242, 244, 246, 247, 247, 256, 258, 258, 259, 260, 261,
    262, 263, 264, 265, 266, 267, 268, 269, 270, 271, 272, 273, 274, 276, 277, 278, 279, 280, 281,
    282, 283, 284, 284, 288, 291, 293, 293, 294, 295, 296, 297, 298, 299, 300, 300, 304, 306, 306,
    308, 310, 310, 312, 313, 313, 315, 316, 316, 319, 321, 321, 322, 323, 324, 325, 326, 327, 328,
    331, 333, 335, 342, 343, 343, 346, 348, 348, 349, 350, 351, 352, 353, 354, 355, 356, 357, 358,
    359, 360, 361, 362, 363, 364, 364, 366, 370, 374, 378, 382, 386, 387, 388, 389, 390, 391, 392,
    392, 394, 407, 409, 409, 410, 411, 412, 413, 414, 415, 416, 417, 418, 419, 420, 421, 422, 423,
    424, 425, 426, 427, 428, 429, 429, 431, 433, 433, 435, 437, 437, 438, 439, 440, 441, 442, 443,
    444, 445, 446, 447, 448, 450, 450, 452, 453, 455, 456, 457, 460, 465, 467, 469, 473, 474, 476,
    478, 480, 482, 484, 486, 488, 492, 494, 496, 497, 498, 499, 500, 501, 502, 503, 504, 505, 506,
    507, 508, 509, 510, 511, 512, 513, 514, 515, 516, 517, 518, 519, 520, 521, 522, 523, 524, 525,
    526, 527, 528, 529, 530, 531, 532, 533, 534, 535, 536, 537, 538, 539, 540, 541, 542, 543, 544,
    545, 546, 547, 548, 549, 550, 551, 552, 553, 554, 555, 556, 557, 558, 559, 560, 561, 562, 563,
    564, 565, 566, 567, 568, 569, 570, 571, 572, 573, 574, 575, 576, 577, 578, 579, 580, 581, 582,
    583, 584, 585, 586, 587, 588, 589, 590, 591, 592, 593, 594, 595, 596, 597, 598, 599, 600, 601,
    602, 603, 604, 605, 606, 607, 608, 609, 610, 611, 612, 613, 614, 615, 616, 617, 618, 619, 620,
    621, 622, 623, 624, 625, 626, 627, 628, 629, 630, 631, 632, 633, 634, 635, 636, 637, 638, 639,
    640, 641, 642, 643, 644, 645, 646, 647, 648, 649, 650, 651, 652, 653, 654, 655, 656, 660, 664,
    665, 666, 667, 668, 669, 670, 671, 672, 673, 674, 675, 676, 677, 678, 679, 680, 681, 682, 683,
    684, 685, 686, 687, 688, 689, 690, 691, 692, 693, 694, 695, 696, 697, 698, 699, 700, 701, 702,
    703, 704, 705, 706, 707, 708, 709, 710, 712, 716, 719, 721, 725, 727, 727, 728, 729, 730, 731,
    732, 733, 734, 735, 736, 737, 738, 739, 740, 741, 742, 743, 744, 745, 746, 747, 747, 749, 751,
    751, 753, 754, 755, 757, 759, 760, 761, 761, 762, 762, 764, 767, 769, 769, 771, 773, 776, 781,
    783, 784, 784, 787, 788, 789, 792, 795, 798, 801, 803, 805, 806, 810, 811, 812, 814, 814, 824,
    826, 826, 827, 828, 829, 831, 831, 833, 835, 837, 838, 845, 847, 847, 849, 851, 853, 855, 856,
    860, 861, 861, 862, 862, 864, 868, 869, 870, 873, 874, 875, 876, 877, 877, 880, 882, 882, 884,
    886, 886,
];

/// The bodies of the productions, one after another.
pub static BODIES: [Symbol; 886] = [
    // Source = Decl Decl*
    N(n::DECL),
    N(n::DECL_STAR),
    // Decl = `.assembly` Asm
    T(t::WORDS + word::DOT_ASSEMBLY),
    N(n::ASSEMBLY),
    // Decl = `.module` NAME
    T(t::WORDS + word::DOT_MODULE),
    T(t::NAME),
    // Decl = `.imagebase` INT
    T(t::WORDS + word::DOT_IMAGEBASE),
    T(t::INT),
    // Decl = `.file` `alignment` INT
    T(t::WORDS + word::DOT_FILE),
    T(t::WORDS + word::ALIGNMENT),
    T(t::INT),
    // Decl = `.stackreserve` INT
    T(t::WORDS + word::DOT_STACKRESERVE),
    T(t::INT),
    // Decl = `.subsystem` INT
    T(t::WORDS + word::DOT_SUBSYSTEM),
    T(t::INT),
    // Decl = `.corflags` INT
    T(t::WORDS + word::DOT_CORFLAGS),
    T(t::INT),
    // Decl = Class
    N(n::CLASS),
    // Decl = Field
    N(n::FIELD),
    // Decl = Method
    N(n::METHOD),
    // Decl = Custom
    N(n::CUSTOM),
    // Decl = Data
    N(n::DATA),
    // Asm = `extern` AsmAttr* NAME ( `as` NAME )? `{` ExtItem* `}`
    T(t::WORDS + word::EXTERN),
    N(n::ASSEMBLY_ATTR_STAR),
    T(t::NAME),
    N(n::ALIAS_OPT),
    T(t::WORDS + word::OPEN_BRACE),
    N(n::EXTERN_ITEM_STAR),
    T(t::WORDS + word::CLOSE_BRACE),
    // Asm = AsmAttr* NAME `{` AsmItem* `}`
    N(n::ASSEMBLY_ATTR_STAR),
    T(t::NAME),
    T(t::WORDS + word::OPEN_BRACE),
    N(n::ASSEMBLY_ITEM_STAR),
    T(t::WORDS + word::CLOSE_BRACE),
    // AsmAttr* = AsmAttr AsmAttr*
    N(n::ASSEMBLY_ATTR),
    N(n::ASSEMBLY_ATTR_STAR),
    // AsmAttr* = nothing
    // AsmAttr = `retargetable`
    T(t::WORDS + word::RETARGETABLE),
    // AsmAttr = Flags
    N(n::FLAGS),
    // Flags = `flags` `(` INT `)`
    T(t::WORDS + word::FLAGS),
    T(t::WORDS + word::OPEN_PAREN),
    T(t::INT),
    T(t::WORDS + word::CLOSE_PAREN),
    // ( `as` NAME )? = ( `as` NAME )
    N(n::ALIAS),
    // ( `as` NAME )? = nothing
    // ( `as` NAME ) = `as` NAME
    T(t::WORDS + word::AS),
    T(t::NAME),
    // ExtItem* = ExtItem ExtItem*
    N(n::EXTERN_ITEM),
    N(n::EXTERN_ITEM_STAR),
    // ExtItem* = nothing
    // ExtItem = Key
    N(n::KEY),
    // ExtItem = `.hash` EQBYTES
    T(t::WORDS + word::DOT_HASH),
    T(t::EQ_BYTES),
    // Key = `.ver` INT `:` INT `:` INT `:` INT
    T(t::WORDS + word::DOT_VER),
    T(t::INT),
    T(t::WORDS + word::COLON),
    T(t::INT),
    T(t::WORDS + word::COLON),
    T(t::INT),
    T(t::WORDS + word::COLON),
    T(t::INT),
    // Key = `.publickey` EQBYTES
    T(t::WORDS + word::DOT_PUBLICKEY),
    T(t::EQ_BYTES),
    // Key = `.publickeytoken` EQBYTES
    T(t::WORDS + word::DOT_PUBLICKEYTOKEN),
    T(t::EQ_BYTES),
    // Key = `.culture` Str
    T(t::WORDS + word::DOT_CULTURE),
    N(n::TEXT),
    // Key = `.locale` Str
    T(t::WORDS + word::DOT_LOCALE),
    N(n::TEXT),
    // Str = QSTRING ( `+` QSTRING )*
    T(t::QSTRING),
    N(n::PLUS_STRING_STAR),
    // ( `+` QSTRING )* = ( `+` QSTRING ) ( `+` QSTRING )*
    N(n::PLUS_STRING),
    N(n::PLUS_STRING_STAR),
    // ( `+` QSTRING )* = nothing
    // ( `+` QSTRING ) = `+` QSTRING
    T(t::WORDS + word::PLUS),
    T(t::QSTRING),
    // AsmItem* = AsmItem AsmItem*
    N(n::ASSEMBLY_ITEM),
    N(n::ASSEMBLY_ITEM_STAR),
    // AsmItem* = nothing
    // AsmItem = Key
    N(n::KEY),
    // AsmItem = `.hash` `algorithm` INT
    T(t::WORDS + word::DOT_HASH),
    T(t::WORDS + word::ALGORITHM),
    T(t::INT),
    // AsmItem = Custom
    N(n::CUSTOM),
    // Custom = `.custom` Ref EQBYTES?
    T(t::WORDS + word::DOT_CUSTOM),
    N(n::METHOD_REF),
    N(n::EQ_BYTES_OPT),
    // Ref = Conv Type Target
    N(n::CALL_CONV),
    N(n::TYPE),
    N(n::TARGET),
    // Conv = ( `instance` `explicit`? )? ( `default` | `vararg` )?
    N(n::INSTANCE_OPT),
    N(n::CALL_KIND_OPT),
    // ( `instance` `explicit`? )? = ( `instance` `explicit`? )
    N(n::INSTANCE),
    // ( `instance` `explicit`? )? = nothing
    // ( `instance` `explicit`? ) = `instance` `explicit`?
    T(t::WORDS + word::INSTANCE),
    N(n::EXPLICIT_OPT),
    // `explicit`? = `explicit`
    T(t::WORDS + word::EXPLICIT),
    // `explicit`? = nothing
    // ( `default` | `vararg` )? = ( `default` | `vararg` )
    N(n::CALL_KIND),
    // ( `default` | `vararg` )? = nothing
    // ( `default` | `vararg` ) = `default`
    T(t::WORDS + word::DEFAULT),
    // ( `default` | `vararg` ) = `vararg`
    T(t::WORDS + word::VARARG),
    // Type = Base Suffix*
    N(n::TYPE_BASE),
    N(n::TYPE_SUFFIX_STAR),
    // Base = `void`
    T(t::WORDS + word::VOID),
    // Base = `bool`
    T(t::WORDS + word::BOOL),
    // Base = `char`
    T(t::WORDS + word::CHAR),
    // Base = `string`
    T(t::WORDS + word::STRING),
    // Base = `object`
    T(t::WORDS + word::OBJECT),
    // Base = `typedref`
    T(t::WORDS + word::TYPEDREF),
    // Base = `float32`
    T(t::WORDS + word::FLOAT32),
    // Base = `float64`
    T(t::WORDS + word::FLOAT64),
    // Base = IntType
    N(n::INT_TYPE),
    // Base = `native` ( `int` | `uint` | `unsigned` `int` )
    T(t::WORDS + word::NATIVE),
    N(n::NATIVE_INT),
    // Base = `class` TName Inst?
    T(t::WORDS + word::CLASS),
    N(n::TYPE_NAME),
    N(n::TYPE_ARGS_OPT),
    // Base = `valuetype` TName Inst?
    T(t::WORDS + word::VALUETYPE),
    N(n::TYPE_NAME),
    N(n::TYPE_ARGS_OPT),
    // Base = `!` Index
    T(t::WORDS + word::BANG),
    N(n::INDEX),
    // Base = `!!` Index
    T(t::WORDS + word::DOUBLE_BANG),
    N(n::INDEX),
    // IntType = `int8`
    T(t::WORDS + word::INT8),
    // IntType = `int16`
    T(t::WORDS + word::INT16),
    // IntType = `int32`
    T(t::WORDS + word::INT32),
    // IntType = `int64`
    T(t::WORDS + word::INT64),
    // IntType = `uint8`
    T(t::WORDS + word::UINT8),
    // IntType = `uint16`
    T(t::WORDS + word::UINT16),
    // IntType = `uint32`
    T(t::WORDS + word::UINT32),
    // IntType = `uint64`
    T(t::WORDS + word::UINT64),
    // IntType = `unsigned` ( `int8` | `int16` | `int32` | `int64` )
    T(t::WORDS + word::UNSIGNED),
    N(n::UNSIGNED_INT),
    // ( `int8` | `int16` | `int32` | `int64` ) = `int8`
    T(t::WORDS + word::INT8),
    // ( `int8` | `int16` | `int32` | `int64` ) = `int16`
    T(t::WORDS + word::INT16),
    // ( `int8` | `int16` | `int32` | `int64` ) = `int32`
    T(t::WORDS + word::INT32),
    // ( `int8` | `int16` | `int32` | `int64` ) = `int64`
    T(t::WORDS + word::INT64),
    // ( `int` | `uint` | `unsigned` `int` ) = `int`
    T(t::WORDS + word::INT),
    // ( `int` | `uint` | `unsigned` `int` ) = `uint`
    T(t::WORDS + word::UINT),
    // ( `int` | `uint` | `unsigned` `int` ) = `unsigned` `int`
    T(t::WORDS + word::UNSIGNED),
    T(t::WORDS + word::INT),
    // TName = SCOPE Path
    T(t::SCOPE),
    N(n::PATH),
    // TName = Path
    N(n::PATH),
    // Path = NAME ( `/` NAME )*
    T(t::NAME),
    N(n::SLASH_NAME_STAR),
    // ( `/` NAME )* = ( `/` NAME ) ( `/` NAME )*
    N(n::SLASH_NAME),
    N(n::SLASH_NAME_STAR),
    // ( `/` NAME )* = nothing
    // ( `/` NAME ) = `/` NAME
    T(t::WORDS + word::SLASH),
    T(t::NAME),
    // Inst? = Inst
    N(n::TYPE_ARGS),
    // Inst? = nothing
    // Inst = `<` Type ( `,` Type )* `>`
    T(t::WORDS + word::LESS),
    N(n::TYPE),
    N(n::COMMA_TYPE_STAR),
    T(t::WORDS + word::GREATER),
    // ( `,` Type )* = ( `,` Type ) ( `,` Type )*
    N(n::COMMA_TYPE),
    N(n::COMMA_TYPE_STAR),
    // ( `,` Type )* = nothing
    // ( `,` Type ) = `,` Type
    T(t::WORDS + word::COMMA),
    N(n::TYPE),
    // Index = INT
    T(t::INT),
    // Index = NAME
    T(t::NAME),
    // Suffix* = Suffix Suffix*
    N(n::TYPE_SUFFIX),
    N(n::TYPE_SUFFIX_STAR),
    // Suffix* = nothing
    // Suffix = `[` Shape
    T(t::WORDS + word::OPEN_BRACKET),
    N(n::SHAPE),
    // Suffix = `&`
    T(t::WORDS + word::AMPERSAND),
    // Suffix = `*`
    T(t::WORDS + word::STAR),
    // Suffix = `pinned`
    T(t::WORDS + word::PINNED),
    // Suffix = `modreq` `(` Spec `)`
    T(t::WORDS + word::MODREQ),
    T(t::WORDS + word::OPEN_PAREN),
    N(n::SPEC),
    T(t::WORDS + word::CLOSE_PAREN),
    // Suffix = `modopt` `(` Spec `)`
    T(t::WORDS + word::MODOPT),
    T(t::WORDS + word::OPEN_PAREN),
    N(n::SPEC),
    T(t::WORDS + word::CLOSE_PAREN),
    // Shape = `]`
    T(t::WORDS + word::CLOSE_BRACKET),
    // Shape = `,` Bound? ( `,` Bound? )* `]`
    T(t::WORDS + word::COMMA),
    N(n::BOUND_OPT),
    N(n::COMMA_BOUND_STAR),
    T(t::WORDS + word::CLOSE_BRACKET),
    // Shape = Bound ( `,` Bound? )* `]`
    N(n::BOUND),
    N(n::COMMA_BOUND_STAR),
    T(t::WORDS + word::CLOSE_BRACKET),
    // Bound? = Bound
    N(n::BOUND),
    // Bound? = nothing
    // Bound = `...`
    T(t::WORDS + word::ELLIPSIS),
    // Bound = INT ( `...` INT? )?
    T(t::INT),
    N(n::BOUND_END_OPT),
    // ( `...` INT? )? = ( `...` INT? )
    N(n::BOUND_END),
    // ( `...` INT? )? = nothing
    // ( `...` INT? ) = `...` INT?
    T(t::WORDS + word::ELLIPSIS),
    N(n::INT_OPT),
    // INT? = INT
    T(t::INT),
    // INT? = nothing
    // ( `,` Bound? )* = ( `,` Bound? ) ( `,` Bound? )*
    N(n::COMMA_BOUND),
    N(n::COMMA_BOUND_STAR),
    // ( `,` Bound? )* = nothing
    // ( `,` Bound? ) = `,` Bound?
    T(t::WORDS + word::COMMA),
    N(n::BOUND_OPT),
    // Spec = TName
    N(n::TYPE_NAME),
    // Spec = Type
    N(n::TYPE),
    // Target = SCOPE Path `::` End
    T(t::SCOPE),
    N(n::PATH),
    T(t::WORDS + word::DOUBLE_COLON),
    N(n::TARGET_END),
    // Target = Type `::` End
    N(n::TYPE),
    T(t::WORDS + word::DOUBLE_COLON),
    N(n::TARGET_END),
    // Target = NAME NTail
    T(t::NAME),
    N(n::NAME_TAIL),
    // End = MName Gen? Sig
    N(n::METHOD_NAME),
    N(n::METHOD_GENERICS_OPT),
    N(n::SIGNATURE),
    // MName = NAME
    T(t::NAME),
    // MName = `.ctor`
    T(t::WORDS + word::DOT_CTOR),
    // MName = `.cctor`
    T(t::WORDS + word::DOT_CCTOR),
    // Gen? = Gen
    N(n::METHOD_GENERICS),
    // Gen? = nothing
    // Gen = `<` ( `[` INT `]` | Type ( `,` Type )* ) `>`
    T(t::WORDS + word::LESS),
    N(n::GEN_ARGS),
    T(t::WORDS + word::GREATER),
    // ( `[` INT `]` | Type ( `,` Type )* ) = `[` INT `]`
    T(t::WORDS + word::OPEN_BRACKET),
    T(t::INT),
    T(t::WORDS + word::CLOSE_BRACKET),
    // ( `[` INT `]` | Type ( `,` Type )* ) = Type ( `,` Type )*
    N(n::TYPE),
    N(n::COMMA_TYPE_STAR),
    // Sig = `(` ( SigArg ( `,` SigArg )* )? `)`
    T(t::WORDS + word::OPEN_PAREN),
    N(n::SIG_ARGS_OPT),
    T(t::WORDS + word::CLOSE_PAREN),
    // ( SigArg ( `,` SigArg )* )? = ( SigArg ( `,` SigArg )* )
    N(n::SIG_ARGS),
    // ( SigArg ( `,` SigArg )* )? = nothing
    // ( SigArg ( `,` SigArg )* ) = SigArg ( `,` SigArg )*
    N(n::SIG_ARG),
    N(n::COMMA_SIG_ARG_STAR),
    // SigArg = `...`
    T(t::WORDS + word::ELLIPSIS),
    // SigArg = DefArg
    N(n::DEF_ARG),
    // DefArg = ParAttr* Type NAME?
    N(n::PARAM_ATTR_STAR),
    N(n::TYPE),
    N(n::NAME_OPT),
    // ParAttr* = ParAttr ParAttr*
    N(n::PARAM_ATTR),
    N(n::PARAM_ATTR_STAR),
    // ParAttr* = nothing
    // ParAttr = `[in]`
    T(t::WORDS + word::BRACKET_IN),
    // ParAttr = `[out]`
    T(t::WORDS + word::BRACKET_OUT),
    // ParAttr = `[opt]`
    T(t::WORDS + word::BRACKET_OPT),
    // ParAttr = Flags
    N(n::FLAGS),
    // NAME? = NAME
    T(t::NAME),
    // NAME? = nothing
    // ( `,` SigArg )* = ( `,` SigArg ) ( `,` SigArg )*
    N(n::COMMA_SIG_ARG),
    N(n::COMMA_SIG_ARG_STAR),
    // ( `,` SigArg )* = nothing
    // ( `,` SigArg ) = `,` SigArg
    T(t::WORDS + word::COMMA),
    N(n::SIG_ARG),
    // NTail = `/` Path `::` End
    T(t::WORDS + word::SLASH),
    N(n::PATH),
    T(t::WORDS + word::DOUBLE_COLON),
    N(n::TARGET_END),
    // NTail = `::` End
    T(t::WORDS + word::DOUBLE_COLON),
    N(n::TARGET_END),
    // NTail = Gen? Sig
    N(n::METHOD_GENERICS_OPT),
    N(n::SIGNATURE),
    // EQBYTES? = EQBYTES
    T(t::EQ_BYTES),
    // EQBYTES? = nothing
    // Class = `.class` ClassAttr* NAME Typars? ( `extends` Spec )? ( `implements` Spec ( `,` Spec )* )? `{` Member* `}`
    T(t::WORDS + word::DOT_CLASS),
    N(n::CLASS_ATTR_STAR),
    T(t::NAME),
    N(n::TYPARS_OPT),
    N(n::EXTENDS_OPT),
    N(n::IMPLEMENTS_OPT),
    T(t::WORDS + word::OPEN_BRACE),
    N(n::MEMBER_STAR),
    T(t::WORDS + word::CLOSE_BRACE),
    // ClassAttr* = ClassAttr ClassAttr*
    N(n::CLASS_ATTR),
    N(n::CLASS_ATTR_STAR),
    // ClassAttr* = nothing
    // ClassAttr = `private`
    T(t::WORDS + word::PRIVATE),
    // ClassAttr = `public`
    T(t::WORDS + word::PUBLIC),
    // ClassAttr = `auto`
    T(t::WORDS + word::AUTO),
    // ClassAttr = `sequential`
    T(t::WORDS + word::SEQUENTIAL),
    // ClassAttr = `explicit`
    T(t::WORDS + word::EXPLICIT),
    // ClassAttr = `ansi`
    T(t::WORDS + word::ANSI),
    // ClassAttr = `unicode`
    T(t::WORDS + word::UNICODE),
    // ClassAttr = `autochar`
    T(t::WORDS + word::AUTOCHAR),
    // ClassAttr = `interface`
    T(t::WORDS + word::INTERFACE),
    // ClassAttr = `abstract`
    T(t::WORDS + word::ABSTRACT),
    // ClassAttr = `sealed`
    T(t::WORDS + word::SEALED),
    // ClassAttr = `specialname`
    T(t::WORDS + word::SPECIALNAME),
    // ClassAttr = `rtspecialname`
    T(t::WORDS + word::RTSPECIALNAME),
    // ClassAttr = `import`
    T(t::WORDS + word::IMPORT),
    // ClassAttr = `serializable`
    T(t::WORDS + word::SERIALIZABLE),
    // ClassAttr = `beforefieldinit`
    T(t::WORDS + word::BEFOREFIELDINIT),
    // ClassAttr = `nested` ( `public` | `private` | `family` | `assembly` | `famandassem` | `famorassem` )
    T(t::WORDS + word::NESTED),
    N(n::NESTED_ACCESS),
    // ClassAttr = Flags
    N(n::FLAGS),
    // ( `public` | `private` | `family` | `assembly` | `famandassem` | `famorassem` ) = `public`
    T(t::WORDS + word::PUBLIC),
    // ( `public` | `private` | `family` | `assembly` | `famandassem` | `famorassem` ) = `private`
    T(t::WORDS + word::PRIVATE),
    // ( `public` | `private` | `family` | `assembly` | `famandassem` | `famorassem` ) = `family`
    T(t::WORDS + word::FAMILY),
    // ( `public` | `private` | `family` | `assembly` | `famandassem` | `famorassem` ) = `assembly`
    T(t::WORDS + word::ASSEMBLY),
    // ( `public` | `private` | `family` | `assembly` | `famandassem` | `famorassem` ) = `famandassem`
    T(t::WORDS + word::FAMANDASSEM),
    // ( `public` | `private` | `family` | `assembly` | `famandassem` | `famorassem` ) = `famorassem`
    T(t::WORDS + word::FAMORASSEM),
    // Typars? = Typars
    N(n::TYPARS),
    // Typars? = nothing
    // Typars = `<` Typar ( `,` Typar )* `>`
    T(t::WORDS + word::LESS),
    N(n::TYPAR),
    N(n::COMMA_TYPAR_STAR),
    T(t::WORDS + word::GREATER),
    // Typar = TyparAttr* ( `(` Spec ( `,` Spec )* `)` )? NAME
    N(n::TYPAR_ATTR_STAR),
    N(n::TYPAR_BOUNDS_OPT),
    T(t::NAME),
    // TyparAttr* = TyparAttr TyparAttr*
    N(n::TYPAR_ATTR),
    N(n::TYPAR_ATTR_STAR),
    // TyparAttr* = nothing
    // TyparAttr = `+`
    T(t::WORDS + word::PLUS),
    // TyparAttr = `-`
    T(t::WORDS + word::MINUS),
    // TyparAttr = `class`
    T(t::WORDS + word::CLASS),
    // TyparAttr = `valuetype`
    T(t::WORDS + word::VALUETYPE),
    // TyparAttr = `.ctor`
    T(t::WORDS + word::DOT_CTOR),
    // TyparAttr = Flags
    N(n::FLAGS),
    // ( `(` Spec ( `,` Spec )* `)` )? = ( `(` Spec ( `,` Spec )* `)` )
    N(n::TYPAR_BOUNDS),
    // ( `(` Spec ( `,` Spec )* `)` )? = nothing
    // ( `(` Spec ( `,` Spec )* `)` ) = `(` Spec ( `,` Spec )* `)`
    T(t::WORDS + word::OPEN_PAREN),
    N(n::SPEC),
    N(n::COMMA_SPEC_STAR),
    T(t::WORDS + word::CLOSE_PAREN),
    // ( `,` Spec )* = ( `,` Spec ) ( `,` Spec )*
    N(n::COMMA_SPEC),
    N(n::COMMA_SPEC_STAR),
    // ( `,` Spec )* = nothing
    // ( `,` Spec ) = `,` Spec
    T(t::WORDS + word::COMMA),
    N(n::SPEC),
    // ( `,` Typar )* = ( `,` Typar ) ( `,` Typar )*
    N(n::COMMA_TYPAR),
    N(n::COMMA_TYPAR_STAR),
    // ( `,` Typar )* = nothing
    // ( `,` Typar ) = `,` Typar
    T(t::WORDS + word::COMMA),
    N(n::TYPAR),
    // ( `extends` Spec )? = ( `extends` Spec )
    N(n::EXTENDS),
    // ( `extends` Spec )? = nothing
    // ( `extends` Spec ) = `extends` Spec
    T(t::WORDS + word::EXTENDS),
    N(n::SPEC),
    // ( `implements` Spec ( `,` Spec )* )? = ( `implements` Spec ( `,` Spec )* )
    N(n::IMPLEMENTS),
    // ( `implements` Spec ( `,` Spec )* )? = nothing
    // ( `implements` Spec ( `,` Spec )* ) = `implements` Spec ( `,` Spec )*
    T(t::WORDS + word::IMPLEMENTS),
    N(n::SPEC),
    N(n::COMMA_SPEC_STAR),
    // Member* = Member Member*
    N(n::MEMBER),
    N(n::MEMBER_STAR),
    // Member* = nothing
    // Member = Class
    N(n::CLASS),
    // Member = Field
    N(n::FIELD),
    // Member = Method
    N(n::METHOD),
    // Member = Property
    N(n::PROPERTY),
    // Member = Event
    N(n::EVENT),
    // Member = Custom
    N(n::CUSTOM),
    // Member = Data
    N(n::DATA),
    // Member = `.param` `type` TyparKey
    T(t::WORDS + word::DOT_PARAM),
    T(t::WORDS + word::TYPE),
    N(n::TYPAR_KEY),
    // Member = `.pack` INT
    T(t::WORDS + word::DOT_PACK),
    T(t::INT),
    // Member = `.size` INT
    T(t::WORDS + word::DOT_SIZE),
    T(t::INT),
    // Field = `.field` ( `[` INT `]` )? FieldAttr* Type NAME ( `=` Const )? ( `at` NAME )?
    T(t::WORDS + word::DOT_FIELD),
    N(n::BRACKETED_INT_OPT),
    N(n::FIELD_ATTR_STAR),
    N(n::TYPE),
    T(t::NAME),
    N(n::EQ_CONST_OPT),
    N(n::AT_NAME_OPT),
    // ( `[` INT `]` )? = ( `[` INT `]` )
    N(n::BRACKETED_INT),
    // ( `[` INT `]` )? = nothing
    // ( `[` INT `]` ) = `[` INT `]`
    T(t::WORDS + word::OPEN_BRACKET),
    T(t::INT),
    T(t::WORDS + word::CLOSE_BRACKET),
    // FieldAttr* = FieldAttr FieldAttr*
    N(n::FIELD_ATTR),
    N(n::FIELD_ATTR_STAR),
    // FieldAttr* = nothing
    // FieldAttr = `privatescope`
    T(t::WORDS + word::PRIVATESCOPE),
    // FieldAttr = `compilercontrolled`
    T(t::WORDS + word::COMPILERCONTROLLED),
    // FieldAttr = `private`
    T(t::WORDS + word::PRIVATE),
    // FieldAttr = `famandassem`
    T(t::WORDS + word::FAMANDASSEM),
    // FieldAttr = `assembly`
    T(t::WORDS + word::ASSEMBLY),
    // FieldAttr = `family`
    T(t::WORDS + word::FAMILY),
    // FieldAttr = `famorassem`
    T(t::WORDS + word::FAMORASSEM),
    // FieldAttr = `public`
    T(t::WORDS + word::PUBLIC),
    // FieldAttr = `static`
    T(t::WORDS + word::STATIC),
    // FieldAttr = `initonly`
    T(t::WORDS + word::INITONLY),
    // FieldAttr = `literal`
    T(t::WORDS + word::LITERAL),
    // FieldAttr = `notserialized`
    T(t::WORDS + word::NOTSERIALIZED),
    // FieldAttr = `specialname`
    T(t::WORDS + word::SPECIALNAME),
    // FieldAttr = `rtspecialname`
    T(t::WORDS + word::RTSPECIALNAME),
    // FieldAttr = Flags
    N(n::FLAGS),
    // ( `=` Const )? = ( `=` Const )
    N(n::EQ_CONST),
    // ( `=` Const )? = nothing
    // ( `=` Const ) = `=` Const
    T(t::WORDS + word::EQUALS),
    N(n::CONST),
    // Const = IntType `(` INT `)`
    N(n::INT_TYPE),
    T(t::WORDS + word::OPEN_PAREN),
    T(t::INT),
    T(t::WORDS + word::CLOSE_PAREN),
    // Const = `float32` `(` INT `)`
    T(t::WORDS + word::FLOAT32),
    T(t::WORDS + word::OPEN_PAREN),
    T(t::INT),
    T(t::WORDS + word::CLOSE_PAREN),
    // Const = `float64` `(` INT `)`
    T(t::WORDS + word::FLOAT64),
    T(t::WORDS + word::OPEN_PAREN),
    T(t::INT),
    T(t::WORDS + word::CLOSE_PAREN),
    // Const = `char` `(` INT `)`
    T(t::WORDS + word::CHAR),
    T(t::WORDS + word::OPEN_PAREN),
    T(t::INT),
    T(t::WORDS + word::CLOSE_PAREN),
    // Const = `bool` `(` ( `true` | `false` ) `)`
    T(t::WORDS + word::BOOL),
    T(t::WORDS + word::OPEN_PAREN),
    N(n::TRUTH),
    T(t::WORDS + word::CLOSE_PAREN),
    // Const = Str
    N(n::TEXT),
    // Const = BYTEARRAY
    T(t::BYTE_ARRAY),
    // Const = `nullref`
    T(t::WORDS + word::NULLREF),
    // ( `true` | `false` ) = `true`
    T(t::WORDS + word::TRUE),
    // ( `true` | `false` ) = `false`
    T(t::WORDS + word::FALSE),
    // ( `at` NAME )? = ( `at` NAME )
    N(n::AT_NAME),
    // ( `at` NAME )? = nothing
    // ( `at` NAME ) = `at` NAME
    T(t::WORDS + word::AT),
    T(t::NAME),
    // Method = `.method` MethAttr* Conv Type MName Typars? `(` DefArgs? `)` Impl* `{` Item* `}`
    T(t::WORDS + word::DOT_METHOD),
    N(n::METHOD_ATTR_STAR),
    N(n::CALL_CONV),
    N(n::TYPE),
    N(n::METHOD_NAME),
    N(n::TYPARS_OPT),
    T(t::WORDS + word::OPEN_PAREN),
    N(n::DEF_ARGS_OPT),
    T(t::WORDS + word::CLOSE_PAREN),
    N(n::IMPL_ATTR_STAR),
    T(t::WORDS + word::OPEN_BRACE),
    N(n::ITEM_STAR),
    T(t::WORDS + word::CLOSE_BRACE),
    // MethAttr* = MethAttr MethAttr*
    N(n::METHOD_ATTR),
    N(n::METHOD_ATTR_STAR),
    // MethAttr* = nothing
    // MethAttr = `privatescope`
    T(t::WORDS + word::PRIVATESCOPE),
    // MethAttr = `compilercontrolled`
    T(t::WORDS + word::COMPILERCONTROLLED),
    // MethAttr = `private`
    T(t::WORDS + word::PRIVATE),
    // MethAttr = `famandassem`
    T(t::WORDS + word::FAMANDASSEM),
    // MethAttr = `assembly`
    T(t::WORDS + word::ASSEMBLY),
    // MethAttr = `family`
    T(t::WORDS + word::FAMILY),
    // MethAttr = `famorassem`
    T(t::WORDS + word::FAMORASSEM),
    // MethAttr = `public`
    T(t::WORDS + word::PUBLIC),
    // MethAttr = `static`
    T(t::WORDS + word::STATIC),
    // MethAttr = `final`
    T(t::WORDS + word::FINAL),
    // MethAttr = `virtual`
    T(t::WORDS + word::VIRTUAL),
    // MethAttr = `hidebysig`
    T(t::WORDS + word::HIDEBYSIG),
    // MethAttr = `newslot`
    T(t::WORDS + word::NEWSLOT),
    // MethAttr = `strict`
    T(t::WORDS + word::STRICT),
    // MethAttr = `abstract`
    T(t::WORDS + word::ABSTRACT),
    // MethAttr = `specialname`
    T(t::WORDS + word::SPECIALNAME),
    // MethAttr = `rtspecialname`
    T(t::WORDS + word::RTSPECIALNAME),
    // MethAttr = `reqsecobj`
    T(t::WORDS + word::REQSECOBJ),
    // MethAttr = Flags
    N(n::FLAGS),
    // DefArgs? = DefArgs
    N(n::DEF_ARGS),
    // DefArgs? = nothing
    // DefArgs = DefArg ( `,` DefArg )*
    N(n::DEF_ARG),
    N(n::COMMA_DEF_ARG_STAR),
    // ( `,` DefArg )* = ( `,` DefArg ) ( `,` DefArg )*
    N(n::COMMA_DEF_ARG),
    N(n::COMMA_DEF_ARG_STAR),
    // ( `,` DefArg )* = nothing
    // ( `,` DefArg ) = `,` DefArg
    T(t::WORDS + word::COMMA),
    N(n::DEF_ARG),
    // Impl* = Impl Impl*
    N(n::IMPL_ATTR),
    N(n::IMPL_ATTR_STAR),
    // Impl* = nothing
    // Impl = `cil`
    T(t::WORDS + word::CIL),
    // Impl = `runtime`
    T(t::WORDS + word::RUNTIME),
    // Impl = `managed`
    T(t::WORDS + word::MANAGED),
    // Impl = `noinlining`
    T(t::WORDS + word::NOINLINING),
    // Impl = `forwardref`
    T(t::WORDS + word::FORWARDREF),
    // Impl = `synchronized`
    T(t::WORDS + word::SYNCHRONIZED),
    // Impl = `nooptimization`
    T(t::WORDS + word::NOOPTIMIZATION),
    // Impl = `preservesig`
    T(t::WORDS + word::PRESERVESIG),
    // Impl = `aggressiveinlining`
    T(t::WORDS + word::AGGRESSIVEINLINING),
    // Impl = `internalcall`
    T(t::WORDS + word::INTERNALCALL),
    // Impl = Flags
    N(n::FLAGS),
    // Item* = Item Item*
    N(n::ITEM),
    N(n::ITEM_STAR),
    // Item* = nothing
    // Item = NAME `:`
    T(t::NAME),
    T(t::WORDS + word::COLON),
    // Item = Instr
    N(n::INSTRUCTION),
    // Item = `.maxstack` INT
    T(t::WORDS + word::DOT_MAXSTACK),
    T(t::INT),
    // Item = `.entrypoint`
    T(t::WORDS + word::DOT_ENTRYPOINT),
    // Item = Custom
    N(n::CUSTOM),
    // Item = `{` Item* `}`
    T(t::WORDS + word::OPEN_BRACE),
    N(n::ITEM_STAR),
    T(t::WORDS + word::CLOSE_BRACE),
    // Item = `.locals` `init`? `(` ( Local ( `,` Local )* )? `)`
    T(t::WORDS + word::DOT_LOCALS),
    N(n::INIT_OPT),
    T(t::WORDS + word::OPEN_PAREN),
    N(n::LOCALS_OPT),
    T(t::WORDS + word::CLOSE_PAREN),
    // Item = `.override` ( `method` Ref | Spec `::` MName )
    T(t::WORDS + word::DOT_OVERRIDE),
    N(n::OVERRIDDEN),
    // Item = `.param` ( `[` INT `]` Flags? ( `=` Const )? | `type` TyparKey )
    T(t::WORDS + word::DOT_PARAM),
    N(n::PARAM_OF),
    // Item = `.try` ( Block | NAME `to` NAME ) Clause Clause*
    T(t::WORDS + word::DOT_TRY),
    N(n::TRY_RANGE),
    N(n::CLAUSE),
    N(n::CLAUSE_STAR),
    // Instr = NONE
    N(n::OP_NONE),
    // Instr = VAR Index
    N(n::OP_VAR),
    N(n::INDEX),
    // Instr = NUM INT
    N(n::OP_NUM),
    T(t::INT),
    // Instr = REAL Real
    N(n::OP_REAL),
    N(n::REAL_BITS),
    // Instr = BR NAME
    N(n::OP_BRANCH),
    T(t::NAME),
    // Instr = METH Ref
    N(n::OP_METHOD),
    N(n::METHOD_REF),
    // Instr = FLD FRef
    N(n::OP_FIELD),
    N(n::FIELD_REF),
    // Instr = TYP Spec
    N(n::OP_TYPE),
    N(n::SPEC),
    // Instr = `switch` `(` ( NAME ( `,` NAME )* )? `)`
    T(t::WORDS + word::SWITCH),
    T(t::WORDS + word::OPEN_PAREN),
    N(n::NAMES_OPT),
    T(t::WORDS + word::CLOSE_PAREN),
    // Instr = `ldstr` ( Str | BYTEARRAY )
    T(t::WORDS + word::LDSTR),
    N(n::STRING_OPERAND),
    // Instr = `ldtoken` ( `method` Ref | `field` FRef | Spec )
    T(t::WORDS + word::LDTOKEN),
    N(n::TOKEN_OPERAND),
    // NONE = `nop`
    T(t::WORDS + word::NOP),
    // NONE = `break`
    T(t::WORDS + word::BREAK),
    // NONE = `ldarg.0`
    T(t::WORDS + word::LDARG_0),
    // NONE = `ldarg.1`
    T(t::WORDS + word::LDARG_1),
    // NONE = `ldarg.2`
    T(t::WORDS + word::LDARG_2),
    // NONE = `ldarg.3`
    T(t::WORDS + word::LDARG_3),
    // NONE = `ldloc.0`
    T(t::WORDS + word::LDLOC_0),
    // NONE = `ldloc.1`
    T(t::WORDS + word::LDLOC_1),
    // NONE = `ldloc.2`
    T(t::WORDS + word::LDLOC_2),
    // NONE = `ldloc.3`
    T(t::WORDS + word::LDLOC_3),
    // NONE = `stloc.0`
    T(t::WORDS + word::STLOC_0),
    // NONE = `stloc.1`
    T(t::WORDS + word::STLOC_1),
    // NONE = `stloc.2`
    T(t::WORDS + word::STLOC_2),
    // NONE = `stloc.3`
    T(t::WORDS + word::STLOC_3),
    // NONE = `ldnull`
    T(t::WORDS + word::LDNULL),
    // NONE = `ldc.i4.m1`
    T(t::WORDS + word::LDC_I4_M1),
    // NONE = `ldc.i4.0`
    T(t::WORDS + word::LDC_I4_0),
    // NONE = `ldc.i4.1`
    T(t::WORDS + word::LDC_I4_1),
    // NONE = `ldc.i4.2`
    T(t::WORDS + word::LDC_I4_2),
    // NONE = `ldc.i4.3`
    T(t::WORDS + word::LDC_I4_3),
    // NONE = `ldc.i4.4`
    T(t::WORDS + word::LDC_I4_4),
    // NONE = `ldc.i4.5`
    T(t::WORDS + word::LDC_I4_5),
    // NONE = `ldc.i4.6`
    T(t::WORDS + word::LDC_I4_6),
    // NONE = `ldc.i4.7`
    T(t::WORDS + word::LDC_I4_7),
    // NONE = `ldc.i4.8`
    T(t::WORDS + word::LDC_I4_8),
    // NONE = `dup`
    T(t::WORDS + word::DUP),
    // NONE = `pop`
    T(t::WORDS + word::POP),
    // NONE = `ret`
    T(t::WORDS + word::RET),
    // NONE = `ldind.i1`
    T(t::WORDS + word::LDIND_I1),
    // NONE = `ldind.u1`
    T(t::WORDS + word::LDIND_U1),
    // NONE = `ldind.i2`
    T(t::WORDS + word::LDIND_I2),
    // NONE = `ldind.u2`
    T(t::WORDS + word::LDIND_U2),
    // NONE = `ldind.i4`
    T(t::WORDS + word::LDIND_I4),
    // NONE = `ldind.u4`
    T(t::WORDS + word::LDIND_U4),
    // NONE = `ldind.i8`
    T(t::WORDS + word::LDIND_I8),
    // NONE = `ldind.i`
    T(t::WORDS + word::LDIND_I),
    // NONE = `ldind.r4`
    T(t::WORDS + word::LDIND_R4),
    // NONE = `ldind.r8`
    T(t::WORDS + word::LDIND_R8),
    // NONE = `ldind.ref`
    T(t::WORDS + word::LDIND_REF),
    // NONE = `stind.ref`
    T(t::WORDS + word::STIND_REF),
    // NONE = `stind.i1`
    T(t::WORDS + word::STIND_I1),
    // NONE = `stind.i2`
    T(t::WORDS + word::STIND_I2),
    // NONE = `stind.i4`
    T(t::WORDS + word::STIND_I4),
    // NONE = `stind.i8`
    T(t::WORDS + word::STIND_I8),
    // NONE = `stind.r4`
    T(t::WORDS + word::STIND_R4),
    // NONE = `stind.r8`
    T(t::WORDS + word::STIND_R8),
    // NONE = `add`
    T(t::WORDS + word::ADD),
    // NONE = `sub`
    T(t::WORDS + word::SUB),
    // NONE = `mul`
    T(t::WORDS + word::MUL),
    // NONE = `div`
    T(t::WORDS + word::DIV),
    // NONE = `div.un`
    T(t::WORDS + word::DIV_UN),
    // NONE = `rem`
    T(t::WORDS + word::REM),
    // NONE = `rem.un`
    T(t::WORDS + word::REM_UN),
    // NONE = `and`
    T(t::WORDS + word::AND),
    // NONE = `or`
    T(t::WORDS + word::OR),
    // NONE = `xor`
    T(t::WORDS + word::XOR),
    // NONE = `shl`
    T(t::WORDS + word::SHL),
    // NONE = `shr`
    T(t::WORDS + word::SHR),
    // NONE = `shr.un`
    T(t::WORDS + word::SHR_UN),
    // NONE = `neg`
    T(t::WORDS + word::NEG),
    // NONE = `not`
    T(t::WORDS + word::NOT),
    // NONE = `conv.i1`
    T(t::WORDS + word::CONV_I1),
    // NONE = `conv.i2`
    T(t::WORDS + word::CONV_I2),
    // NONE = `conv.i4`
    T(t::WORDS + word::CONV_I4),
    // NONE = `conv.i8`
    T(t::WORDS + word::CONV_I8),
    // NONE = `conv.r4`
    T(t::WORDS + word::CONV_R4),
    // NONE = `conv.r8`
    T(t::WORDS + word::CONV_R8),
    // NONE = `conv.u4`
    T(t::WORDS + word::CONV_U4),
    // NONE = `conv.u8`
    T(t::WORDS + word::CONV_U8),
    // NONE = `conv.r.un`
    T(t::WORDS + word::CONV_R_UN),
    // NONE = `throw`
    T(t::WORDS + word::THROW),
    // NONE = `conv.ovf.i1.un`
    T(t::WORDS + word::CONV_OVF_I1_UN),
    // NONE = `conv.ovf.i2.un`
    T(t::WORDS + word::CONV_OVF_I2_UN),
    // NONE = `conv.ovf.i4.un`
    T(t::WORDS + word::CONV_OVF_I4_UN),
    // NONE = `conv.ovf.i8.un`
    T(t::WORDS + word::CONV_OVF_I8_UN),
    // NONE = `conv.ovf.u1.un`
    T(t::WORDS + word::CONV_OVF_U1_UN),
    // NONE = `conv.ovf.u2.un`
    T(t::WORDS + word::CONV_OVF_U2_UN),
    // NONE = `conv.ovf.u4.un`
    T(t::WORDS + word::CONV_OVF_U4_UN),
    // NONE = `conv.ovf.u8.un`
    T(t::WORDS + word::CONV_OVF_U8_UN),
    // NONE = `conv.ovf.i.un`
    T(t::WORDS + word::CONV_OVF_I_UN),
    // NONE = `conv.ovf.u.un`
    T(t::WORDS + word::CONV_OVF_U_UN),
    // NONE = `ldlen`
    T(t::WORDS + word::LDLEN),
    // NONE = `ldelem.i1`
    T(t::WORDS + word::LDELEM_I1),
    // NONE = `ldelem.u1`
    T(t::WORDS + word::LDELEM_U1),
    // NONE = `ldelem.i2`
    T(t::WORDS + word::LDELEM_I2),
    // NONE = `ldelem.u2`
    T(t::WORDS + word::LDELEM_U2),
    // NONE = `ldelem.i4`
    T(t::WORDS + word::LDELEM_I4),
    // NONE = `ldelem.u4`
    T(t::WORDS + word::LDELEM_U4),
    // NONE = `ldelem.i8`
    T(t::WORDS + word::LDELEM_I8),
    // NONE = `ldelem.i`
    T(t::WORDS + word::LDELEM_I),
    // NONE = `ldelem.r4`
    T(t::WORDS + word::LDELEM_R4),
    // NONE = `ldelem.r8`
    T(t::WORDS + word::LDELEM_R8),
    // NONE = `ldelem.ref`
    T(t::WORDS + word::LDELEM_REF),
    // NONE = `stelem.i`
    T(t::WORDS + word::STELEM_I),
    // NONE = `stelem.i1`
    T(t::WORDS + word::STELEM_I1),
    // NONE = `stelem.i2`
    T(t::WORDS + word::STELEM_I2),
    // NONE = `stelem.i4`
    T(t::WORDS + word::STELEM_I4),
    // NONE = `stelem.i8`
    T(t::WORDS + word::STELEM_I8),
    // NONE = `stelem.r4`
    T(t::WORDS + word::STELEM_R4),
    // NONE = `stelem.r8`
    T(t::WORDS + word::STELEM_R8),
    // NONE = `stelem.ref`
    T(t::WORDS + word::STELEM_REF),
    // NONE = `conv.ovf.i1`
    T(t::WORDS + word::CONV_OVF_I1),
    // NONE = `conv.ovf.u1`
    T(t::WORDS + word::CONV_OVF_U1),
    // NONE = `conv.ovf.i2`
    T(t::WORDS + word::CONV_OVF_I2),
    // NONE = `conv.ovf.u2`
    T(t::WORDS + word::CONV_OVF_U2),
    // NONE = `conv.ovf.i4`
    T(t::WORDS + word::CONV_OVF_I4),
    // NONE = `conv.ovf.u4`
    T(t::WORDS + word::CONV_OVF_U4),
    // NONE = `conv.ovf.i8`
    T(t::WORDS + word::CONV_OVF_I8),
    // NONE = `conv.ovf.u8`
    T(t::WORDS + word::CONV_OVF_U8),
    // NONE = `ckfinite`
    T(t::WORDS + word::CKFINITE),
    // NONE = `conv.u2`
    T(t::WORDS + word::CONV_U2),
    // NONE = `conv.u1`
    T(t::WORDS + word::CONV_U1),
    // NONE = `conv.i`
    T(t::WORDS + word::CONV_I),
    // NONE = `conv.ovf.i`
    T(t::WORDS + word::CONV_OVF_I),
    // NONE = `conv.ovf.u`
    T(t::WORDS + word::CONV_OVF_U),
    // NONE = `add.ovf`
    T(t::WORDS + word::ADD_OVF),
    // NONE = `add.ovf.un`
    T(t::WORDS + word::ADD_OVF_UN),
    // NONE = `mul.ovf`
    T(t::WORDS + word::MUL_OVF),
    // NONE = `mul.ovf.un`
    T(t::WORDS + word::MUL_OVF_UN),
    // NONE = `sub.ovf`
    T(t::WORDS + word::SUB_OVF),
    // NONE = `sub.ovf.un`
    T(t::WORDS + word::SUB_OVF_UN),
    // NONE = `endfinally`
    T(t::WORDS + word::ENDFINALLY),
    // NONE = `stind.i`
    T(t::WORDS + word::STIND_I),
    // NONE = `conv.u`
    T(t::WORDS + word::CONV_U),
    // NONE = `arglist`
    T(t::WORDS + word::ARGLIST),
    // NONE = `ceq`
    T(t::WORDS + word::CEQ),
    // NONE = `cgt`
    T(t::WORDS + word::CGT),
    // NONE = `cgt.un`
    T(t::WORDS + word::CGT_UN),
    // NONE = `clt`
    T(t::WORDS + word::CLT),
    // NONE = `clt.un`
    T(t::WORDS + word::CLT_UN),
    // NONE = `localloc`
    T(t::WORDS + word::LOCALLOC),
    // NONE = `endfilter`
    T(t::WORDS + word::ENDFILTER),
    // NONE = `volatile.`
    T(t::WORDS + word::VOLATILE),
    // NONE = `tail.`
    T(t::WORDS + word::TAIL),
    // NONE = `cpblk`
    T(t::WORDS + word::CPBLK),
    // NONE = `initblk`
    T(t::WORDS + word::INITBLK),
    // NONE = `rethrow`
    T(t::WORDS + word::RETHROW),
    // NONE = `refanytype`
    T(t::WORDS + word::REFANYTYPE),
    // NONE = `readonly.`
    T(t::WORDS + word::READONLY),
    // NONE = `endfault`
    T(t::WORDS + word::ENDFAULT),
    // NONE = `ldind.u8`
    T(t::WORDS + word::LDIND_U8),
    // NONE = `ldelem.u8`
    T(t::WORDS + word::LDELEM_U8),
    // VAR = `ldarg.s`
    T(t::WORDS + word::LDARG_S),
    // VAR = `ldarga.s`
    T(t::WORDS + word::LDARGA_S),
    // VAR = `starg.s`
    T(t::WORDS + word::STARG_S),
    // VAR = `ldloc.s`
    T(t::WORDS + word::LDLOC_S),
    // VAR = `ldloca.s`
    T(t::WORDS + word::LDLOCA_S),
    // VAR = `stloc.s`
    T(t::WORDS + word::STLOC_S),
    // VAR = `ldarg`
    T(t::WORDS + word::LDARG),
    // VAR = `ldarga`
    T(t::WORDS + word::LDARGA),
    // VAR = `starg`
    T(t::WORDS + word::STARG),
    // VAR = `ldloc`
    T(t::WORDS + word::LDLOC),
    // VAR = `ldloca`
    T(t::WORDS + word::LDLOCA),
    // VAR = `stloc`
    T(t::WORDS + word::STLOC),
    // NUM = `ldc.i4.s`
    T(t::WORDS + word::LDC_I4_S),
    // NUM = `ldc.i4`
    T(t::WORDS + word::LDC_I4),
    // NUM = `ldc.i8`
    T(t::WORDS + word::LDC_I8),
    // NUM = `unaligned.`
    T(t::WORDS + word::UNALIGNED),
    // REAL = `ldc.r4`
    T(t::WORDS + word::LDC_R4),
    // REAL = `ldc.r8`
    T(t::WORDS + word::LDC_R8),
    // Real = `float32` `(` INT `)`
    T(t::WORDS + word::FLOAT32),
    T(t::WORDS + word::OPEN_PAREN),
    T(t::INT),
    T(t::WORDS + word::CLOSE_PAREN),
    // Real = `float64` `(` INT `)`
    T(t::WORDS + word::FLOAT64),
    T(t::WORDS + word::OPEN_PAREN),
    T(t::INT),
    T(t::WORDS + word::CLOSE_PAREN),
    // Real = REALBYTES
    T(t::REAL_BYTES),
    // BR = `br.s`
    T(t::WORDS + word::BR_S),
    // BR = `brfalse.s`
    T(t::WORDS + word::BRFALSE_S),
    // BR = `brtrue.s`
    T(t::WORDS + word::BRTRUE_S),
    // BR = `beq.s`
    T(t::WORDS + word::BEQ_S),
    // BR = `bge.s`
    T(t::WORDS + word::BGE_S),
    // BR = `bgt.s`
    T(t::WORDS + word::BGT_S),
    // BR = `ble.s`
    T(t::WORDS + word::BLE_S),
    // BR = `blt.s`
    T(t::WORDS + word::BLT_S),
    // BR = `bne.un.s`
    T(t::WORDS + word::BNE_UN_S),
    // BR = `bge.un.s`
    T(t::WORDS + word::BGE_UN_S),
    // BR = `bgt.un.s`
    T(t::WORDS + word::BGT_UN_S),
    // BR = `ble.un.s`
    T(t::WORDS + word::BLE_UN_S),
    // BR = `blt.un.s`
    T(t::WORDS + word::BLT_UN_S),
    // BR = `leave.s`
    T(t::WORDS + word::LEAVE_S),
    // BR = `br`
    T(t::WORDS + word::BR),
    // BR = `brfalse`
    T(t::WORDS + word::BRFALSE),
    // BR = `brtrue`
    T(t::WORDS + word::BRTRUE),
    // BR = `beq`
    T(t::WORDS + word::BEQ),
    // BR = `bge`
    T(t::WORDS + word::BGE),
    // BR = `bgt`
    T(t::WORDS + word::BGT),
    // BR = `ble`
    T(t::WORDS + word::BLE),
    // BR = `blt`
    T(t::WORDS + word::BLT),
    // BR = `bne.un`
    T(t::WORDS + word::BNE_UN),
    // BR = `bge.un`
    T(t::WORDS + word::BGE_UN),
    // BR = `bgt.un`
    T(t::WORDS + word::BGT_UN),
    // BR = `ble.un`
    T(t::WORDS + word::BLE_UN),
    // BR = `blt.un`
    T(t::WORDS + word::BLT_UN),
    // BR = `leave`
    T(t::WORDS + word::LEAVE),
    // BR = `brnull.s`
    T(t::WORDS + word::BRNULL_S),
    // BR = `brzero.s`
    T(t::WORDS + word::BRZERO_S),
    // BR = `brinst.s`
    T(t::WORDS + word::BRINST_S),
    // BR = `brnull`
    T(t::WORDS + word::BRNULL),
    // BR = `brzero`
    T(t::WORDS + word::BRZERO),
    // BR = `brinst`
    T(t::WORDS + word::BRINST),
    // METH = `call`
    T(t::WORDS + word::CALL),
    // METH = `callvirt`
    T(t::WORDS + word::CALLVIRT),
    // METH = `newobj`
    T(t::WORDS + word::NEWOBJ),
    // METH = `ldftn`
    T(t::WORDS + word::LDFTN),
    // METH = `ldvirtftn`
    T(t::WORDS + word::LDVIRTFTN),
    // FLD = `ldfld`
    T(t::WORDS + word::LDFLD),
    // FLD = `ldflda`
    T(t::WORDS + word::LDFLDA),
    // FLD = `stfld`
    T(t::WORDS + word::STFLD),
    // FLD = `ldsfld`
    T(t::WORDS + word::LDSFLD),
    // FLD = `ldsflda`
    T(t::WORDS + word::LDSFLDA),
    // FLD = `stsfld`
    T(t::WORDS + word::STSFLD),
    // FRef = Type FTarget
    N(n::TYPE),
    N(n::FIELD_TARGET),
    // FTarget = SCOPE Path `::` NAME
    T(t::SCOPE),
    N(n::PATH),
    T(t::WORDS + word::DOUBLE_COLON),
    T(t::NAME),
    // FTarget = Type `::` NAME
    N(n::TYPE),
    T(t::WORDS + word::DOUBLE_COLON),
    T(t::NAME),
    // FTarget = NAME FTail
    T(t::NAME),
    N(n::FIELD_TAIL),
    // FTail = `/` Path `::` NAME
    T(t::WORDS + word::SLASH),
    N(n::PATH),
    T(t::WORDS + word::DOUBLE_COLON),
    T(t::NAME),
    // FTail = `::` NAME
    T(t::WORDS + word::DOUBLE_COLON),
    T(t::NAME),
    // FTail = nothing
    // TYP = `cpobj`
    T(t::WORDS + word::CPOBJ),
    // TYP = `ldobj`
    T(t::WORDS + word::LDOBJ),
    // TYP = `castclass`
    T(t::WORDS + word::CASTCLASS),
    // TYP = `isinst`
    T(t::WORDS + word::ISINST),
    // TYP = `unbox`
    T(t::WORDS + word::UNBOX),
    // TYP = `stobj`
    T(t::WORDS + word::STOBJ),
    // TYP = `box`
    T(t::WORDS + word::BOX),
    // TYP = `newarr`
    T(t::WORDS + word::NEWARR),
    // TYP = `ldelema`
    T(t::WORDS + word::LDELEMA),
    // TYP = `ldelem`
    T(t::WORDS + word::LDELEM),
    // TYP = `stelem`
    T(t::WORDS + word::STELEM),
    // TYP = `unbox.any`
    T(t::WORDS + word::UNBOX_ANY),
    // TYP = `refanyval`
    T(t::WORDS + word::REFANYVAL),
    // TYP = `mkrefany`
    T(t::WORDS + word::MKREFANY),
    // TYP = `initobj`
    T(t::WORDS + word::INITOBJ),
    // TYP = `constrained.`
    T(t::WORDS + word::CONSTRAINED),
    // TYP = `sizeof`
    T(t::WORDS + word::SIZEOF),
    // TYP = `ldelem.any`
    T(t::WORDS + word::LDELEM_ANY),
    // TYP = `stelem.any`
    T(t::WORDS + word::STELEM_ANY),
    // ( NAME ( `,` NAME )* )? = ( NAME ( `,` NAME )* )
    N(n::NAMES),
    // ( NAME ( `,` NAME )* )? = nothing
    // ( NAME ( `,` NAME )* ) = NAME ( `,` NAME )*
    T(t::NAME),
    N(n::COMMA_NAME_STAR),
    // ( `,` NAME )* = ( `,` NAME ) ( `,` NAME )*
    N(n::COMMA_NAME),
    N(n::COMMA_NAME_STAR),
    // ( `,` NAME )* = nothing
    // ( `,` NAME ) = `,` NAME
    T(t::WORDS + word::COMMA),
    T(t::NAME),
    // ( Str | BYTEARRAY ) = Str
    N(n::TEXT),
    // ( Str | BYTEARRAY ) = BYTEARRAY
    T(t::BYTE_ARRAY),
    // ( `method` Ref | `field` FRef | Spec ) = `method` Ref
    T(t::WORDS + word::METHOD),
    N(n::METHOD_REF),
    // ( `method` Ref | `field` FRef | Spec ) = `field` FRef
    T(t::WORDS + word::FIELD),
    N(n::FIELD_REF),
    // ( `method` Ref | `field` FRef | Spec ) = Spec
    N(n::SPEC),
    // `init`? = `init`
    T(t::WORDS + word::INIT),
    // `init`? = nothing
    // ( Local ( `,` Local )* )? = ( Local ( `,` Local )* )
    N(n::LOCALS),
    // ( Local ( `,` Local )* )? = nothing
    // ( Local ( `,` Local )* ) = Local ( `,` Local )*
    N(n::LOCAL),
    N(n::COMMA_LOCAL_STAR),
    // Local = ( `[` INT `]` )? Type NAME?
    N(n::BRACKETED_INT_OPT),
    N(n::TYPE),
    N(n::NAME_OPT),
    // ( `,` Local )* = ( `,` Local ) ( `,` Local )*
    N(n::COMMA_LOCAL),
    N(n::COMMA_LOCAL_STAR),
    // ( `,` Local )* = nothing
    // ( `,` Local ) = `,` Local
    T(t::WORDS + word::COMMA),
    N(n::LOCAL),
    // ( `method` Ref | Spec `::` MName ) = `method` Ref
    T(t::WORDS + word::METHOD),
    N(n::METHOD_REF),
    // ( `method` Ref | Spec `::` MName ) = Spec `::` MName
    N(n::SPEC),
    T(t::WORDS + word::DOUBLE_COLON),
    N(n::METHOD_NAME),
    // ( `[` INT `]` Flags? ( `=` Const )? | `type` TyparKey ) = `[` INT `]` Flags? ( `=` Const )?
    T(t::WORDS + word::OPEN_BRACKET),
    T(t::INT),
    T(t::WORDS + word::CLOSE_BRACKET),
    N(n::FLAGS_OPT),
    N(n::EQ_CONST_OPT),
    // ( `[` INT `]` Flags? ( `=` Const )? | `type` TyparKey ) = `type` TyparKey
    T(t::WORDS + word::TYPE),
    N(n::TYPAR_KEY),
    // Flags? = Flags
    N(n::FLAGS),
    // Flags? = nothing
    // TyparKey = `[` INT `]`
    T(t::WORDS + word::OPEN_BRACKET),
    T(t::INT),
    T(t::WORDS + word::CLOSE_BRACKET),
    // TyparKey = NAME
    T(t::NAME),
    // ( Block | NAME `to` NAME ) = Block
    N(n::BLOCK),
    // ( Block | NAME `to` NAME ) = NAME `to` NAME
    T(t::NAME),
    T(t::WORDS + word::TO),
    T(t::NAME),
    // Block = `{` Item* `}`
    T(t::WORDS + word::OPEN_BRACE),
    N(n::ITEM_STAR),
    T(t::WORDS + word::CLOSE_BRACE),
    // Clause = `catch` Spec Handler
    T(t::WORDS + word::CATCH),
    N(n::SPEC),
    N(n::HANDLER),
    // Clause = `filter` ( NAME | Block ) Handler
    T(t::WORDS + word::FILTER),
    N(n::FILTER_START),
    N(n::HANDLER),
    // Clause = `finally` Handler
    T(t::WORDS + word::FINALLY),
    N(n::HANDLER),
    // Clause = `fault` Handler
    T(t::WORDS + word::FAULT),
    N(n::HANDLER),
    // Handler = Block
    N(n::BLOCK),
    // Handler = `handler` NAME `to` NAME
    T(t::WORDS + word::HANDLER),
    T(t::NAME),
    T(t::WORDS + word::TO),
    T(t::NAME),
    // ( NAME | Block ) = NAME
    T(t::NAME),
    // ( NAME | Block ) = Block
    N(n::BLOCK),
    // Clause* = Clause Clause*
    N(n::CLAUSE),
    N(n::CLAUSE_STAR),
    // Clause* = nothing
    // Property = `.property` PropAttr* Conv Type NAME Sig ( `=` Const )? `{` PropItem* `}`
    T(t::WORDS + word::DOT_PROPERTY),
    N(n::PROPERTY_ATTR_STAR),
    N(n::CALL_CONV),
    N(n::TYPE),
    T(t::NAME),
    N(n::SIGNATURE),
    N(n::EQ_CONST_OPT),
    T(t::WORDS + word::OPEN_BRACE),
    N(n::PROPERTY_ITEM_STAR),
    T(t::WORDS + word::CLOSE_BRACE),
    // PropAttr* = PropAttr PropAttr*
    N(n::PROPERTY_ATTR),
    N(n::PROPERTY_ATTR_STAR),
    // PropAttr* = nothing
    // PropAttr = `specialname`
    T(t::WORDS + word::SPECIALNAME),
    // PropAttr = `rtspecialname`
    T(t::WORDS + word::RTSPECIALNAME),
    // PropAttr = Flags
    N(n::FLAGS),
    // PropItem* = PropItem PropItem*
    N(n::PROPERTY_ITEM),
    N(n::PROPERTY_ITEM_STAR),
    // PropItem* = nothing
    // PropItem = `.get` Ref
    T(t::WORDS + word::DOT_GET),
    N(n::METHOD_REF),
    // PropItem = `.set` Ref
    T(t::WORDS + word::DOT_SET),
    N(n::METHOD_REF),
    // PropItem = `.other` Ref
    T(t::WORDS + word::DOT_OTHER),
    N(n::METHOD_REF),
    // PropItem = Custom
    N(n::CUSTOM),
    // Event = `.event` PropAttr* Spec NAME `{` EvItem* `}`
    T(t::WORDS + word::DOT_EVENT),
    N(n::PROPERTY_ATTR_STAR),
    N(n::SPEC),
    T(t::NAME),
    T(t::WORDS + word::OPEN_BRACE),
    N(n::EVENT_ITEM_STAR),
    T(t::WORDS + word::CLOSE_BRACE),
    // EvItem* = EvItem EvItem*
    N(n::EVENT_ITEM),
    N(n::EVENT_ITEM_STAR),
    // EvItem* = nothing
    // EvItem = `.addon` Ref
    T(t::WORDS + word::DOT_ADDON),
    N(n::METHOD_REF),
    // EvItem = `.removeon` Ref
    T(t::WORDS + word::DOT_REMOVEON),
    N(n::METHOD_REF),
    // EvItem = `.fire` Ref
    T(t::WORDS + word::DOT_FIRE),
    N(n::METHOD_REF),
    // EvItem = `.other` Ref
    T(t::WORDS + word::DOT_OTHER),
    N(n::METHOD_REF),
    // EvItem = Custom
    N(n::CUSTOM),
    // Data = `.data` `cil`? ( NAME `=` )? DataBody
    T(t::WORDS + word::DOT_DATA),
    N(n::CIL_OPT),
    N(n::DATA_LABEL_OPT),
    N(n::DATA_BODY),
    // `cil`? = `cil`
    T(t::WORDS + word::CIL),
    // `cil`? = nothing
    // ( NAME `=` )? = ( NAME `=` )
    N(n::DATA_LABEL),
    // ( NAME `=` )? = nothing
    // ( NAME `=` ) = NAME `=`
    T(t::NAME),
    T(t::WORDS + word::EQUALS),
    // DataBody = `{` DataItem ( `,` DataItem )* `}`
    T(t::WORDS + word::OPEN_BRACE),
    N(n::DATA_ITEM),
    N(n::COMMA_DATA_ITEM_STAR),
    T(t::WORDS + word::CLOSE_BRACE),
    // DataBody = DataItem
    N(n::DATA_ITEM),
    // DataItem = BYTEARRAY
    T(t::BYTE_ARRAY),
    // DataItem = DataNum ( `(` INT `)` )? ( `[` INT `]` )?
    N(n::DATA_NUM),
    N(n::PARENTHESIZED_INT_OPT),
    N(n::BRACKETED_INT_OPT),
    // DataNum = IntType
    N(n::INT_TYPE),
    // DataNum = `float32`
    T(t::WORDS + word::FLOAT32),
    // DataNum = `float64`
    T(t::WORDS + word::FLOAT64),
    // ( `(` INT `)` )? = ( `(` INT `)` )
    N(n::PARENTHESIZED_INT),
    // ( `(` INT `)` )? = nothing
    // ( `(` INT `)` ) = `(` INT `)`
    T(t::WORDS + word::OPEN_PAREN),
    T(t::INT),
    T(t::WORDS + word::CLOSE_PAREN),
    // ( `,` DataItem )* = ( `,` DataItem ) ( `,` DataItem )*
    N(n::COMMA_DATA_ITEM),
    N(n::COMMA_DATA_ITEM_STAR),
    // ( `,` DataItem )* = nothing
    // ( `,` DataItem ) = `,` DataItem
    T(t::WORDS + word::COMMA),
    N(n::DATA_ITEM),
    // Decl* = Decl Decl*
    N(n::DECL),
    N(n::DECL_STAR),
    // Decl* = nothing
];
