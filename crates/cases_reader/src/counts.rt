//! How much an assembly declares.

use assembly_tree::{Assembly, TypeDef};

/// How deep types of an image can be nested.
const LEVELS: u32 = 100;

/// How much an assembly declares; what `<Module>` declares counts for its methods and fields.
#[derive(Debug, Clone, Copy)]
pub struct Counts {
    /// Its types, those that others nest included, without `<Module>`.
    pub types: u64,
    pub methods: u64,
    pub fields: u64,
}

impl Counts {
    /// What an assembly declares.
    pub fn of(a: &Assembly) -> Counts {
        let mut counts = Counts {
            types: 0,
            methods: a.methods.len() as u64,
            fields: a.fields.len() as u64,
        };
        add_types(&mut counts, a.types.as_slice(), LEVELS);
        counts
    }
}

/// Adds these types and those that they nest, so many levels deep.
fn add_types(counts: &mut Counts, types: &[TypeDef], levels: u32) {
    for of in types {
        counts.types = counts.types.saturating_add(1);
        counts.methods = counts.methods.saturating_add(of.methods.len() as u64);
        counts.fields = counts.fields.saturating_add(of.fields.len() as u64);
        if 0 < levels {
            add_types(counts, of.nested.as_slice(), levels - 1);
        }
    }
}
