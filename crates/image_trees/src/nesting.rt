ghost use Rattle.std.specs.Prelude.{◌≡◌, ℕ, IfOk};
ghost use Rattle.image_model.specs.Reading.{AreTypes};
ghost use Rattle.image_model.specs.Rows.{types_in};
ghost use Rattle.image_model.specs.Structure.{HasScopes};
ghost use Rattle.image_source.specs.Names.{names_of};
ghost use Rattle.image_source.specs.Ready.{IsReady};
ghost use Rattle.image_types.specs.Maps.{AreMaps};

use crate::lists::{empty_lists, put, take_list, turned};
use assembly_tree::TypeDefs;
use il_base::NoMemory;
use image_source::Source;
use image_types::{Maps, type_with};
use row_groups::Outers;
use std::alloc::Global;

/// The top-level types, with those that they nest. An enclosing type stands before those that it encloses (II.22.32), so that a type
/// has all that it nests where types are read from the last row to the first.
pub(crate) fn top_types(
    alloc: Global,
    source: &Source<'_, '_>,
    maps: &Maps<'_, '_>,
    outers: &Outers<'_, '_>,
) -> Result<TypeDefs, NoMemory>
    requires outers { outers.now ≡ source.now.image.now }
    requires maps { AreMaps source.now.image.now maps.now.events.now maps.now.properties.now maps.now.overrides.now }
    requires nesting { (table row : ℕ) → HasScopes source.now.image.now table row }
    requires ready { IsReady source.now.image.now source.now.kept.now source.now.sizes.now }
    ensures { IfOk result (AreTypes source.now.image.now (names_of source.now.kept.now) (types_in source.now.image.now 0)) }
{
    let mut row = source.image.tables().rows(0x02);
    let mut lists = empty_lists(alloc, row as usize + 1)?;
    while 2 <= row {
        let inner = take_list(alloc, &mut lists, row as usize);
        let nested = turned(alloc, inner)?;
        let read = type_with(alloc, source, maps, row, nested)?;
        put(&mut lists, outers.of(row) as usize, read)?;
        row -= 1;
    }
    let top = take_list(alloc, &mut lists, 0);
    turned(alloc, top)
}
