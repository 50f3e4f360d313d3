ghost use Rattle.std.specs.Prelude.{◌≡◌, ℕ, IfOk};
ghost use Rattle.body_codec.specs.Names.{NameMap};
ghost use Rattle.image_methods.specs.Overriders.{AreOverriders};
ghost use Rattle.image_model.specs.Namings.{AreNamings};
ghost use Rattle.image_model.specs.Rows.{count_of};
ghost use Rattle.image_ready.specs.Laws.{AreDataSizes};
ghost use Rattle.image_types.specs.Maps.{AreMaps};
ghost use Rattle.row_demands.specs.Members.{AreFirsts};
ghost use Rattle.told_weights.specs.Fresh.{AreFresh};
ghost use Rattle.told_weights.specs.Told.{TellWeights};
ghost use Rattle.image_lightness.specs.Light.{Meets, TellsLight};

use field_sizes::data_sizes;
use il_base::NoMemory;
use image_methods::overriders;
use image_streams::Image;
use image_types::{Maps, first_maps};
use image_weights::{WeightSource, is_light};
use row_chains::Chains;
use row_parts::four;
use std::alloc::Global;
use told_weights::RowWeights;
use type_names::TypeNames;

/// Whether the assembly is light, by what is told of the weights of what rows name, and which interfaces count.
#[tactic(auto, unfolding(metadata_tables::specs::Schema::schema))]
pub(crate) fn is_light_by_maps<W: RowWeights>(
    alloc: Global,
    image: &Image<'_>,
    names: &TypeNames<'_, '_>,
    weights: &W,
    fresh: &[bool],
) -> Result<bool, NoMemory>
    requires meets { Meets image.now }
    requires names { names.now.image ≡ image.now }
    requires weights { TellWeights image.now (W.told weights.now) }
    requires fresh { AreFresh image.now fresh.now }
    ensures { IfOk result (TellsLight image.now) }
{
    let (events, properties, bodies, sizes) = four(
        first_maps(alloc, image, 0x12),
        first_maps(alloc, image, 0x15),
        overriders(alloc, image),
        data_sizes(alloc, image, names),
    )?;
    let found = Found {
        events: events.as_slice(),
        properties: properties.as_slice(),
        bodies: bodies.as_slice(),
        sizes: sizes.as_slice(),
    };
    is_light_by(alloc, image, weights, fresh, &found)
}

/// The first row of each map of members, the method that is the body of each row of MethodImpl, and the sizes of data.
#[derive(Drop)]
struct Found<'f> {
    events: &'f [u32],
    properties: &'f [u32],
    bodies: &'f [u32],
    sizes: &'f [u32],
}

/// The same, by how members are found and by the sizes of data.
fn is_light_by<W: RowWeights>(
    alloc: Global,
    image: &Image<'_>,
    weights: &W,
    fresh: &[bool],
    found: &Found<'_>,
) -> Result<bool, NoMemory>
    requires meets { Meets image.now }
    requires weights { TellWeights image.now (W.told weights.now) }
    requires fresh { AreFresh image.now fresh.now }
    requires events { AreFirsts image.now 0x12 (count_of image.now 0x02) found.now.events.now }
    requires properties { AreFirsts image.now 0x15 (count_of image.now 0x02) found.now.properties.now }
    requires bodies { AreOverriders image.now found.now.bodies.now }
    requires sizes { (names : NameMap) → AreNamings image.now names → AreDataSizes image.now names found.now.sizes.now }
    ensures { IfOk result (TellsLight image.now) }
{
    let chains = chains_of(alloc, image, found.bodies)?;
    let maps = Maps {
        events: found.events,
        properties: found.properties,
        overrides: &chains,
    };
    let source = WeightSource {
        image,
        weights,
        sizes: found.sizes,
        fresh,
        maps: &maps,
    };
    Ok(is_light(&source))
}

/// The rows of MethodImpl of each method, by the method that each has as its body (II.22.27).
fn chains_of<'o>(
    alloc: Global,
    image: &Image<'_>,
    bodies: &'o [u32],
) -> Result<Chains<'o>, NoMemory>
    requires meets { Meets image.now }
    requires bodies { AreOverriders image.now bodies.now }
    ensures { IfOk result (λ it. it ≡ bodies.now) }
{
    let tables = image.tables();
    let _overrides = tables.rows(0x19);
    Chains::new(alloc, bodies, tables.rows(0x06))
}
