ghost use Rattle.std.specs.Prelude.{◌≡◌, ℕ, IfOk};
ghost use Rattle.image_methods.specs.Overriders.{AreOverriders};
ghost use Rattle.image_model.specs.Members.{OverridesInClass};
ghost use Rattle.image_model.specs.Reading.{IsAssembly};
ghost use Rattle.image_model.specs.Rows.{HasRow, count_of};
ghost use Rattle.image_model.specs.Structure.{HasScopes};
ghost use Rattle.image_source.specs.Names.{names_of};
ghost use Rattle.image_source.specs.Ready.{IsReady};
ghost use Rattle.image_types.specs.Maps.{AreMaps};
ghost use Rattle.row_demands.specs.Members.{AreFirsts};

use crate::extern_rows::externs;
use crate::manifest_row::manifest;
use crate::nesting::top_types;
use assembly_tree::Assembly;
use il_base::NoMemory;
use image_methods::overriders;
use image_source::Source;
use image_types::{Maps, first_maps, type_fields, type_methods};
use row_chains::Chains;
use row_groups::Outers;
use row_parts::{five, four};
use std::alloc::Global;

/// The assembly that an image reads as, where it meets all demands and what its rows and bodies name is kept (II.22). Each row is
/// looked at once, and no call goes deeper than a signature or a body asks, however deep types are nested.
///
/// # Errors
///
/// There was no memory.
#[tactic(auto, unfolding(metadata_tables::specs::Schema::schema))]
pub fn read_tree(alloc: Global, source: &Source<'_, '_>) -> Result<Assembly, NoMemory>
    requires nesting { (table row : ℕ) → HasScopes source.now.image.now table row }
    requires overrides { (row : ℕ) → HasRow source.now.image.now 0x19 row → OverridesInClass source.now.image.now row }
    requires ready { IsReady source.now.image.now source.now.kept.now source.now.sizes.now }
    ensures { IfOk result (IsAssembly source.now.image.now (names_of source.now.kept.now)) }
{
    let image = source.image;
    let (events, properties, bodies, outers) = four(
        first_maps(alloc, image, 0x12),
        first_maps(alloc, image, 0x15),
        overriders(alloc, image),
        Outers::new(alloc, image),
    )?;
    read_by(
        alloc,
        source,
        &events,
        &properties,
        bodies.as_slice(),
        &outers,
    )
}

/// The assembly, by the first row of each map, the method that is the body of each row of MethodImpl, and what encloses types.
fn read_by(
    alloc: Global,
    source: &Source<'_, '_>,
    events: &[u32],
    properties: &[u32],
    bodies: &[u32],
    outers: &Outers<'_, '_>,
) -> Result<Assembly, NoMemory>
    requires outers { outers.now ≡ source.now.image.now }
    requires events { AreFirsts source.now.image.now 0x12 (count_of source.now.image.now 0x02) events.now }
    requires properties { AreFirsts source.now.image.now 0x15 (count_of source.now.image.now 0x02) properties.now }
    requires bodies { AreOverriders source.now.image.now bodies.now }
    requires overrides { (row : ℕ) → HasRow source.now.image.now 0x19 row → OverridesInClass source.now.image.now row }
    requires nesting { (table row : ℕ) → HasScopes source.now.image.now table row }
    requires ready { IsReady source.now.image.now source.now.kept.now source.now.sizes.now }
    ensures { IfOk result (IsAssembly source.now.image.now (names_of source.now.kept.now)) }
{
    let chains = chains_of(alloc, source, bodies)?;
    let maps = Maps {
        events,
        properties,
        overrides: &chains,
    };
    assembly_by(alloc, source, &maps, outers)
}

/// The rows of MethodImpl of each method, by the method that each has as its body (II.22.27).
fn chains_of<'o>(
    alloc: Global,
    source: &Source<'_, '_>,
    bodies: &'o [u32],
) -> Result<Chains<'o>, NoMemory>
    requires bodies { AreOverriders source.now.image.now bodies.now }
    requires overrides { (row : ℕ) → HasRow source.now.image.now 0x19 row → OverridesInClass source.now.image.now row }
    requires ready { IsReady source.now.image.now source.now.kept.now source.now.sizes.now }
    ensures { IfOk result (λ it. it ≡ bodies.now) }
{
    let tables = source.image.tables();
    let _overrides = tables.rows(0x19);
    Chains::new(alloc, bodies, tables.rows(0x06))
}

/// The assembly, by how the members of its types and what encloses these are found.
fn assembly_by(
    alloc: Global,
    source: &Source<'_, '_>,
    maps: &Maps<'_, '_>,
    outers: &Outers<'_, '_>,
) -> Result<Assembly, NoMemory>
    requires outers { outers.now ≡ source.now.image.now }
    requires maps { AreMaps source.now.image.now maps.now.events.now maps.now.properties.now maps.now.overrides.now }
    requires nesting { (table row : ℕ) → HasScopes source.now.image.now table row }
    requires ready { IsReady source.now.image.now source.now.kept.now source.now.sizes.now }
    ensures { IfOk result (IsAssembly source.now.image.now (names_of source.now.kept.now)) }
{
    let (manifest, externs, fields, methods, types) = five(
        manifest(alloc, source),
        externs(alloc, source.image),
        type_fields(alloc, source, 1),
        type_methods(alloc, source, maps.overrides, 1),
        top_types(alloc, source, maps, outers),
    )?;
    Ok(Assembly {
        manifest,
        externs,
        fields,
        methods,
        types,
    })
}
