ghost use Rattle.std.specs.Prelude.{◌≡◌};
ghost use Rattle.metadata_tables.specs.Order.{sort_columns};

/// The columns that a table is sorted by, the first key first; none for a table that need not be sorted.
#[tactic(auto, using(std::proofs::lemmas::Bool::Decides::nat_tests), unfolding(crate::specs::Order::sort_columns))]
pub fn sort_columns(table: u8) -> &'static [u8]
    ensures { result.now ≡ sort_columns table }
{
    match table {
        // InterfaceImpl, CustomAttribute, MethodImpl, NestedClass, GenericParamConstraint
        0x09 | 0x0C | 0x19 | 0x29 | 0x2C => &[0],
        // FieldLayout, FieldRVA
        0x10 | 0x1D => &[1],
        // Constant, ClassLayout, MethodSemantics
        0x0B | 0x0F | 0x18 => &[2],
        // GenericParam
        0x2A => &[2, 0],
        _ => &[],
    }
}
