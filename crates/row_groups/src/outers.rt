ghost use Rattle.std.specs.Prelude.{◌≡◌, ◌≤◌, ◌<◌, ℕ, IfOk, length};
ghost use Rattle.image_model.specs.Cells.{HasIndexes};
ghost use Rattle.image_model.specs.Rows.{count_of, HasRow, enclosing};
ghost use Rattle.row_groups.specs.Enclosed.{AreOuters};

use il_base::NoMemory;
use image_streams::Image;
use std::alloc::Global;
use std::marker::Model;

/// Which type encloses each type of an image (II.22.32). Contracts see the image's bytes.
#[derive(Drop)]
pub struct Outers<'i, 'a> {
    image: &'i Image<'a>,
    // For each row of TypeDef the row of the type that encloses it, or 0.
    outers: Vec<u32>,
}

impl<'i, 'a> Model for Outers<'i, 'a> {
    ghost use Rattle.std.specs.Prelude.{ℕ, List};
    ghost use Rattle.row_groups.specs.Enclosed.{AreOuters};

    ghost Value = { List ℕ };

    ghost view = { λ it. it.image.now };

    ghost invariant = { λ it. AreOuters it.image.now it.outers.items };
}

impl<'i, 'a> Outers<'i, 'a> {
    /// The enclosing types of an image whose indexes lie in their ranges. Looks through NestedClass once.
    pub fn new(alloc: Global, image: &'i Image<'a>) -> Result<Outers<'i, 'a>, NoMemory>
        requires { (table row : ℕ) → HasRow image.now table row → HasIndexes image.now table row }
        ensures { IfOk result (λ it. it ≡ image.now) }
    {
        let outers = outers_of(alloc, image)?;
        Ok(Outers { image, outers })
    }

    /// The type that encloses a type, or 0 for a top-level type.
    pub fn of(&self, row: u32) -> u32
        requires { HasRow self.now 0x02 row }
        ensures { result ≡ enclosing self.now row }
    {
        self.outers[row as usize]
    }
}

/// The row of the enclosing type for each row of TypeDef, by the first row of NestedClass that has it.
#[tactic(auto, unfolding(metadata_tables::specs::Schema::schema))]
fn outers_of(alloc: Global, image: &Image<'_>) -> Result<Vec<u32>, NoMemory>
    requires { (table row : ℕ) → HasRow image.now table row → HasIndexes image.now table row }
    ensures { IfOk result (λ outers. AreOuters image.now outers.items) }
{
    let tables = image.tables();
    let mut outers = Vec::from_elem(alloc, 0, tables.rows(0x02) as usize + 1)?;
    for row in 0..tables.rows(0x29) {
        let nested = tables.cell(0x29, row + 1, 0) as usize;
        if outers[nested] == 0 {
            outers[nested] = tables.cell(0x29, row + 1, 1);
        }
    }
    Ok(outers)
}
