ghost use Rattle.std.specs.Prelude.{◌≡◌, ◌-◌, ◌<◌, ◌≤◌, length, take, drop, slice_index};
ghost use Rattle.metadata_tables.specs.Schema.{columns_of};

use crate::Coded;

/// One more than the greatest number of a table in the profile.
pub const TABLES: u8 = 0x2D;

/// The tables that are read and written here, a bit for each.
pub const PROFILE: u64 = 0x1E09_2BB7_9F57;

/// What the cells of a column hold. A column is marked `true` where its cells may be nil, which is 0.
#[derive(Debug, Clone, Copy, PartialEq, Eq)]
pub enum Column {
    /// A number of this many bytes.
    Number(u8),
    /// An index into `#Strings`.
    Strings(bool),
    /// An index into `#GUID`.
    Guids(bool),
    /// An index into `#Blob`.
    Blobs(bool),
    /// A row of the table.
    Row(u8),
    /// The first row of a run of rows of the table.
    Run(u8),
    /// A coded index.
    Tagged(Coded, bool),
}

use Column::{Blobs, Guids, Number, Row, Run, Strings, Tagged};

/// The columns of all tables, in the order of the tables' numbers (ECMA-335 II.22).
static COLUMNS: [Column; 91] = [
    // 00 Module
    Number(2),
    Strings(false),
    Guids(false),
    Guids(true),
    Guids(true),
    // 01 TypeRef
    Tagged(Coded::ResolutionScope, false),
    Strings(false),
    Strings(true),
    // 02 TypeDef
    Number(4),
    Strings(false),
    Strings(true),
    Tagged(Coded::TypeDefOrRef, true),
    Run(0x04),
    Run(0x06),
    // 04 Field
    Number(2),
    Strings(false),
    Blobs(false),
    // 06 MethodDef
    Number(4),
    Number(2),
    Number(2),
    Strings(false),
    Blobs(false),
    Run(0x08),
    // 08 Param
    Number(2),
    Number(2),
    Strings(true),
    // 09 InterfaceImpl
    Row(0x02),
    Tagged(Coded::TypeDefOrRef, false),
    // 0A MemberRef
    Tagged(Coded::MemberRefParent, false),
    Strings(false),
    Blobs(false),
    // 0B Constant
    Number(1),
    Number(1),
    Tagged(Coded::HasConstant, false),
    Blobs(true),
    // 0C CustomAttribute
    Tagged(Coded::HasCustomAttribute, false),
    Tagged(Coded::CustomAttributeType, false),
    Blobs(true),
    // 0F ClassLayout
    Number(2),
    Number(4),
    Row(0x02),
    // 10 FieldLayout
    Number(4),
    Row(0x04),
    // 11 StandAloneSig
    Blobs(false),
    // 12 EventMap
    Row(0x02),
    Run(0x14),
    // 14 Event
    Number(2),
    Strings(false),
    Tagged(Coded::TypeDefOrRef, true),
    // 15 PropertyMap
    Row(0x02),
    Run(0x17),
    // 17 Property
    Number(2),
    Strings(false),
    Blobs(false),
    // 18 MethodSemantics
    Number(2),
    Row(0x06),
    Tagged(Coded::HasSemantics, false),
    // 19 MethodImpl
    Row(0x02),
    Tagged(Coded::MethodDefOrRef, false),
    Tagged(Coded::MethodDefOrRef, false),
    // 1B TypeSpec
    Blobs(false),
    // 1D FieldRVA
    Number(4),
    Row(0x04),
    // 20 Assembly
    Number(4),
    Number(2),
    Number(2),
    Number(2),
    Number(2),
    Number(4),
    Blobs(true),
    Strings(false),
    Strings(true),
    // 23 AssemblyRef
    Number(2),
    Number(2),
    Number(2),
    Number(2),
    Number(4),
    Blobs(true),
    Strings(false),
    Strings(true),
    Blobs(true),
    // 29 NestedClass
    Row(0x02),
    Row(0x02),
    // 2A GenericParam
    Number(2),
    Number(2),
    Tagged(Coded::TypeOrMethodDef, false),
    Strings(false),
    // 2B MethodSpec
    Tagged(Coded::MethodDefOrRef, false),
    Blobs(false),
    // 2C GenericParamConstraint
    Row(0x2A),
    Tagged(Coded::TypeDefOrRef, false),
];

/// Where each table's columns begin in `COLUMNS`, and where the last one's end.
static FIRST_COLUMN: [u8; 46] = [
    0, 5, 8, 14, 14, 17, 17, 23, 23, 26, 28, 31, 35, 38, 38, 38, 41, 43, 44, 46, 46, 49, 51, 51,
    54, 57, 60, 60, 61, 61, 63, 63, 63, 72, 72, 72, 81, 81, 81, 81, 81, 81, 83, 87, 89, 91,
];

/// The columns of a table; none, where the table isn't read or written here.
pub fn columns(table: u8) -> &'static [Column]
    ensures columns { result.now ≡ columns_of table }
    ensures few { length result.now ≤ 9 }
{
    if table >= TABLES {
        return &[];
    }
    let table = usize::from(table);
    part(&COLUMNS, first_column(table), first_column(table + 1))
}

/// Where the columns of a table begin in `COLUMNS`.
fn first_column(table: usize) -> usize
    requires { table < 46 }
    ensures { result ≡ slice_index FIRST_COLUMN table }
{
    usize::from(FIRST_COLUMN[table])
}

/// The columns from `first` up to `end`.
fn part(all: &'static [Column], first: usize, end: usize) -> &'static [Column]
    requires start { first ≤ end }
    requires end { end ≤ length all.now }
    ensures { result.now ≡ take (end - first) (drop first all.now) }
{
    &all[first..end]
}
