ghost use Rattle.std.specs.Prelude.{◌≡◌, ◌≤◌, ◌<◌, ℕ, IfOk, length};
ghost use Rattle.metadata_tables.specs.Schema.{columns_of};
ghost use Rattle.metadata_tables.specs.Stream.{cell};
ghost use Rattle.image_model.specs.Rows.{HasRow};
ghost use Rattle.image_model.specs.Streams.{tables_of};
ghost use Rattle.row_demands.specs.Members.{AreFirsts};

use il_base::NoMemory;
use image_streams::Image;
use std::alloc::Global;

/// For each row of TypeDef up to `most`, the first row of a map that it is the parent of, in its first column; 0 where there is none.
pub(crate) fn firsts_of(
    alloc: Global,
    image: &Image<'_>,
    map: u8,
    most: u32,
) -> Result<Vec<u32>, NoMemory>
    requires column { 0 < length (columns_of map) }
    requires within { (row : ℕ) → HasRow image.now map row → cell (tables_of image.now) map row 0 ≤ most }
    ensures { IfOk result (λ firsts. AreFirsts image.now map most firsts.items) }
{
    let tables = image.tables();
    let mut firsts = Vec::from_elem(alloc, 0, most as usize + 1)?;
    for row in 0..tables.rows(map) {
        let parent = tables.cell(map, row + 1, 0) as usize;
        if firsts[parent] == 0 {
            firsts[parent] = row + 1;
        }
    }
    Ok(firsts)
}
