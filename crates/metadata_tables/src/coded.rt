ghost use Rattle.std.specs.Prelude.{◌≡◌, ◌<◌, ◌≤◌, ◌^◌, ℕ, IfSome, Some};
ghost use Rattle.metadata_tables.specs.CodedIndex.{packed, unpacked, tag_bits, tag_of, table_of, tags};

/// The kinds of coded index (ECMA-335 II.24.2.6): which tables such an index may name.
#[derive(Debug, Clone, Copy, PartialEq, Eq)]
pub enum Coded {
    TypeDefOrRef,
    HasConstant,
    HasCustomAttribute,
    MemberRefParent,
    HasSemantics,
    MethodDefOrRef,
    CustomAttributeType,
    ResolutionScope,
    TypeOrMethodDef,
}

/// The number that names a row of a table, or None where an index of this kind can't name the table.
pub fn pack_coded(kind: Coded, table: u8, row: u32) -> Option<u32>
    requires { row < 2 ^ 24 }
    ensures value { result ≡ packed kind table row }
    ensures back { IfSome result (λ value. unpacked kind value ≡ Some (table, row)) }
{
    let tag = tag_of(kind, table)?;
    Some((row << tag_bits(kind)) + u32::from(tag))
}

/// The table and the row that a number names, or None where no table has its tag.
pub fn unpack_coded(kind: Coded, value: u32) -> Option<(u8, u32)>
    ensures value { result ≡ unpacked kind value }
    ensures back { IfSome result (λ named. packed kind named.0 named.1 ≡ Some value) }
{
    let bits = tag_bits(kind);
    let table = table_of(kind, value % (1 << bits))?;
    Some((table, value >> bits))
}

/// How many of the lowest bits hold the tag.
pub(crate) fn tag_bits(kind: Coded) -> u32
    ensures bits { result ≡ tag_bits kind }
    ensures few { result ≤ 5 }
{
    match kind {
        Coded::HasSemantics | Coded::MethodDefOrRef | Coded::TypeOrMethodDef => 1,
        Coded::TypeDefOrRef | Coded::HasConstant | Coded::ResolutionScope => 2,
        Coded::MemberRefParent | Coded::CustomAttributeType => 3,
        Coded::HasCustomAttribute => 5,
    }
}

/// The tag of a table, or None where the kind has none for it.
#[tactic(auto, unfolding(crate::specs::CodedIndex::tag_of))]
fn tag_of(kind: Coded, table: u8) -> Option<u8>
    ensures { result ≡ tag_of kind table }
{
    let pair = tags(kind).iter().find(|pair| pair.0 == table);
    pair.map(|pair| pair.1)
}

/// The table of a tag, or None where the kind has none for it.
#[tactic(auto, unfolding(crate::specs::CodedIndex::table_of))]
fn table_of(kind: Coded, tag: u32) -> Option<u8>
    ensures { result ≡ table_of kind tag }
{
    let pair = tags(kind).iter().find(|pair| u32::from(pair.1) == tag);
    pair.map(|pair| pair.0)
}

/// The tables that an index of this kind may name, each with its tag.
pub(crate) fn tags(kind: Coded) -> &'static [(u8, u8)]
    ensures { result.now ≡ tags kind }
{
    match kind {
        Coded::TypeDefOrRef => &[(0x02, 0), (0x01, 1), (0x1B, 2)],
        Coded::HasConstant => &[(0x04, 0), (0x08, 1), (0x17, 2)],
        Coded::HasCustomAttribute => &HAS_CUSTOM_ATTRIBUTE,
        Coded::MemberRefParent => &[(0x02, 0), (0x01, 1), (0x1A, 2), (0x06, 3), (0x1B, 4)],
        Coded::HasSemantics => &[(0x14, 0), (0x17, 1)],
        Coded::MethodDefOrRef => &[(0x06, 0), (0x0A, 1)],
        Coded::CustomAttributeType => &[(0x06, 2), (0x0A, 3)],
        Coded::ResolutionScope => &[(0x00, 0), (0x1A, 1), (0x23, 2), (0x01, 3)],
        Coded::TypeOrMethodDef => &[(0x02, 0), (0x06, 1)],
    }
}

static HAS_CUSTOM_ATTRIBUTE: [(u8, u8); 22] = [
    (0x06, 0),
    (0x04, 1),
    (0x01, 2),
    (0x02, 3),
    (0x08, 4),
    (0x09, 5),
    (0x0A, 6),
    (0x00, 7),
    (0x0E, 8),
    (0x17, 9),
    (0x14, 10),
    (0x11, 11),
    (0x1A, 12),
    (0x1B, 13),
    (0x20, 14),
    (0x23, 15),
    (0x26, 16),
    (0x27, 17),
    (0x28, 18),
    (0x2A, 19),
    (0x2C, 20),
    (0x2B, 21),
];
