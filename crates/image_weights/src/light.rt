ghost use Rattle.std.specs.Prelude.{◌≡◌, ◌-◌, ◌≤◌, ◌↔◌, ℕ, IsTrue};
ghost use Rattle.assembly_tree.specs.Weight.{weight_of};
ghost use Rattle.assembly_tree.specs.declared.assembly.Assembly.{Assembly};
ghost use Rattle.body_codec.specs.Names.{NameMap};
ghost use Rattle.image_model.specs.Faults.{max_weight};
ghost use Rattle.image_model.specs.Namings.{AreNamings};
ghost use Rattle.image_model.specs.Reading.{IsAssembly};
ghost use Rattle.image_ready.specs.Laws.{AreDataSizes};
ghost use Rattle.image_types.specs.Maps.{AreMaps};
ghost use Rattle.told_weights.specs.Fresh.{AreFresh};
ghost use Rattle.image_weights.specs.RowWeights.{image_weight};
ghost use Rattle.image_weights.specs.Standing.{MeetsRules, Stands};
ghost use Rattle.told_weights.specs.Told.{TellWeights};

use crate::WeightSource;
use crate::manifest_row::{charge_externs, charge_manifest};
use crate::member_runs::{charge_type_fields, charge_type_methods};
use crate::type_rows::charge_types;
use heaps::{blob_is_computed, one_content_at_an_index};
use image_model::tokens_name_one_thing;
use sig_codec::{bytes_spell_one_signature, read_is_spelled};
use told_weights::RowWeights;
use type_terms::orders_are_total;

/// The greatest weight of an assembly that is read.
const MAX_WEIGHT: u64 = 1 << 26;

/// Whether the assembly that an image reads as weighs at most 2^26, where the image meets all demands on its rows. Takes no memory,
/// looks at each row once or by halving, and at no more bytes of texts than the greatest weight and the longest text.
pub fn is_light<W: RowWeights>(source: &WeightSource<'_, '_, W>) -> bool
    requires meets { (names : NameMap) × MeetsRules source.now.image.now names × AreDataSizes source.now.image.now names source.now.sizes.now }
    requires maps { AreMaps source.now.image.now source.now.maps.now.events.now source.now.maps.now.properties.now source.now.maps.now.overrides.now }
    requires fresh { AreFresh source.now.image.now source.now.fresh.now }
    requires weights { TellWeights source.now.image.now (W.told source.now.weights.now) }
    ensures { (names : NameMap) (a : Assembly) → AreNamings source.now.image.now names → IsAssembly source.now.image.now names a → IsTrue result ↔ (weight_of a ≤ max_weight) }
{
    one_content_at_an_index();
    blob_is_computed();
    bytes_spell_one_signature();
    read_is_spelled();
    orders_are_total();
    tokens_name_one_thing();
    0 < charge_image(source, MAX_WEIGHT + 1)
}

/// Takes off the weight of an image's assembly.
#[tactic(auto, using(crate::proofs::Charging::both_off), unfolding(crate::specs::RowWeights::image_weight))]
fn charge_image<W: RowWeights>(source: &WeightSource<'_, '_, W>, left: u64) -> u64
    requires maps { AreMaps source.now.image.now source.now.maps.now.events.now source.now.maps.now.properties.now source.now.maps.now.overrides.now }
    requires stands { Stands source.now.image.now }
    ensures { result ≡ left - image_weight source.now.image.now (W.told source.now.weights.now) source.now.sizes.now source.now.fresh.now }
{
    let left = left.saturating_sub(32_768);
    let left = charge_manifest(source, left);
    let left = charge_externs(source.image, left);
    let left = charge_type_fields(source, 1, left);
    let left = charge_type_methods(source, 1, left);
    charge_types(source, left)
}
