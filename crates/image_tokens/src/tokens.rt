//! Tables by their numbers (ECMA-335 II.22), tokens and coded indexes.
ghost use Rattle.std.specs.Prelude.{◌≡◌, ◌^◌, ◌<◌};
ghost use Rattle.metadata_tables.specs.Indexes.{run_cell};
ghost use Rattle.image_tokens.specs.Indexes.{token_of, index_of, index_of_token};

use metadata_tables::{Coded, pack_coded};

pub const MODULE: u8 = 0x00;

pub const TYPE_REF: u8 = 0x01;

pub const TYPE_DEF: u8 = 0x02;

pub const FIELD: u8 = 0x04;

pub const METHOD_DEF: u8 = 0x06;

pub const PARAM: u8 = 0x08;

pub const INTERFACE_IMPL: u8 = 0x09;

pub const MEMBER_REF: u8 = 0x0A;

pub const CONSTANT: u8 = 0x0B;

pub const CUSTOM_ATTRIBUTE: u8 = 0x0C;

pub const CLASS_LAYOUT: u8 = 0x0F;

pub const FIELD_LAYOUT: u8 = 0x10;

pub const STAND_ALONE_SIG: u8 = 0x11;

pub const EVENT_MAP: u8 = 0x12;

pub const EVENT: u8 = 0x14;

pub const PROPERTY_MAP: u8 = 0x15;

pub const PROPERTY: u8 = 0x17;

pub const METHOD_SEMANTICS: u8 = 0x18;

pub const METHOD_IMPL: u8 = 0x19;

pub const TYPE_SPEC: u8 = 0x1B;

pub const FIELD_RVA: u8 = 0x1D;

pub const ASSEMBLY: u8 = 0x20;

pub const ASSEMBLY_REF: u8 = 0x23;

pub const NESTED_CLASS: u8 = 0x29;

pub const GENERIC_PARAM: u8 = 0x2A;

pub const METHOD_SPEC: u8 = 0x2B;

pub const GENERIC_PARAM_CONSTRAINT: u8 = 0x2C;

/// What stands in the highest byte of the token of a user string (III.1.9).
pub const USER_STRING: u8 = 0x70;

/// The token of a row (III.1.9).
pub fn token_of(table: u8, row: u32) -> u32
    requires { row < 2 ^ 24 }
    ensures { result ≡ token_of table row }
{
    (u32::from(table) << 24) + row
}

/// The coded index of a row (II.24.2.6).
pub fn index_of(kind: Coded, table: u8, row: u32) -> u32
    requires { row < 2 ^ 24 }
    ensures { result ≡ index_of kind table row }
{
    match pack_coded(kind, table, row) {
        Some(index) => index,
        None => 0,
    }
}

/// The coded index of the row with this token.
pub fn index_of_token(kind: Coded, token: u32) -> u32
    ensures { result ≡ index_of_token kind token }
{
    index_of(kind, (token >> 24) as u8, token & 0x00FF_FFFF)
}

/// The cell of a run that begins at this row in a table of `count` rows: one behind the last of 65,535
/// is spelled 0 (II.22).
pub fn run_cell(count: usize, row: u32) -> u32
    ensures { result ≡ run_cell count row }
{
    if count == 65535 && row == 65536 {
        0
    } else {
        row
    }
}
