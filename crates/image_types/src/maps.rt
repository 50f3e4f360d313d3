ghost use Rattle.std.specs.Prelude.{◌≡◌, ◌≤◌, ◌<◌, ℕ, IfOk, length};
ghost use Rattle.image_model.specs.Rows.{count_of, HasRow};
ghost use Rattle.image_model.specs.Streams.{tables_of};
ghost use Rattle.metadata_tables.specs.Schema.{columns_of};
ghost use Rattle.metadata_tables.specs.Stream.{cell};
ghost use Rattle.row_demands.specs.Members.{AreFirsts};

use il_base::NoMemory;
use image_streams::Image;
use row_chains::Chains;
use std::alloc::Global;

/// How the members of types are found.
#[derive(Clone, Copy)]
pub struct Maps<'m, 'o> {
    /// For each row of TypeDef its first row of EventMap, or 0.
    pub events: &'m [u32],
    /// For each row of TypeDef its first row of PropertyMap, or 0.
    pub properties: &'m [u32],
    /// The rows of MethodImpl of each method.
    pub overrides: &'m Chains<'o>,
}

/// For each row of TypeDef the first row of a map, EventMap or PropertyMap, that it is the parent of; 0 where there is none.
pub fn first_maps(alloc: Global, image: &Image<'_>, map: u8) -> Result<Vec<u32>, NoMemory>
    requires column { 0 < length (columns_of map) }
    requires within { (row : ℕ) → HasRow image.now map row → cell (tables_of image.now) map row 0 ≤ count_of image.now 0x02 }
    ensures { IfOk result (λ firsts. AreFirsts image.now map (count_of image.now 0x02) firsts.items) }
{
    let tables = image.tables();
    let mut firsts = Vec::from_elem(alloc, 0, tables.rows(0x02) as usize + 1)?;
    for row in 0..tables.rows(map) {
        let parent = tables.cell(map, row + 1, 0) as usize;
        if firsts[parent] == 0 {
            firsts[parent] = row + 1;
        }
    }
    Ok(firsts)
}
