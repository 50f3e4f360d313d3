ghost use Rattle.std.specs.Prelude.{◌≡◌, ◌≤◌, ◌^◌, IfOk, length};
ghost use Rattle.formed_images.specs.Laws.{AreBytes};
ghost use Rattle.image_demands.specs.Meeting.{MeetDemands};
ghost use Rattle.image_reader.specs.Outcome.{IsOutcome, IsTreeOf, AreKept, AreSizes};

use assembly_tree::Assembly;
use field_sizes::data_sizes;
use il_base::NoMemory;
use image_demands::Survey;
use image_lightness::weighs_little;
use image_model::Place;
use image_names::keep_names;
use image_ready::{an_image_is_ready, what_is_read_is_so};
use image_source::Source;
use image_streams::{Image, Unmet};
use image_trees::read_tree;
use kept_names::KeptNames;
use kept_owners::keep_owners;
use std::alloc::Global;

/// The demand of an image whose assembly weighs more than 2^26.
const TOO_LARGE: Unmet = Unmet {
    rule: 24,
    at: Place::Whole,
};

/// What comes of an image that meets I1 to I23: the assembly that it gives, where that isn't too large (I24), which is told of its rows
/// before anything is built.
pub(crate) fn read_whole(
    alloc: Global,
    image: &Image<'_>,
    survey: &Survey<'_, '_>,
) -> Result<Result<Assembly, Unmet>, NoMemory>
    requires small { length image.now ≤ 2 ^ 26 }
    requires bytes { AreBytes image.now }
    requires same { survey.now ≡ image.now }
    requires meets { MeetDemands image.now }
    ensures { IfOk result (IsOutcome image.now) }
{
    let _tables = image.tables();
    let little = weighs_little(alloc, image, survey)?;
    if !little {
        return Ok(Err(TOO_LARGE));
    }
    let tree = tree_of(alloc, image, survey)?;
    Ok(Ok(tree))
}

/// The assembly that an image gives.
fn tree_of(alloc: Global, image: &Image<'_>, survey: &Survey<'_, '_>) -> Result<Assembly, NoMemory>
    requires small { length image.now ≤ 2 ^ 26 }
    requires bytes { AreBytes image.now }
    requires same { survey.now ≡ image.now }
    requires meets { MeetDemands image.now }
    ensures { IfOk result (IsTreeOf image.now) }
{
    let _tables = image.tables();
    let sizes = data_sizes(alloc, image, survey.names())?;
    let kept = names_of(alloc, image, survey)?;
    tree_by(alloc, image, &kept, sizes.as_slice())
}

/// The same, by what is kept of its tokens and the sizes of its fields' data.
fn tree_by(
    alloc: Global,
    image: &Image<'_>,
    kept: &KeptNames,
    sizes: &[u32],
) -> Result<Assembly, NoMemory>
    requires small { length image.now ≤ 2 ^ 26 }
    requires bytes { AreBytes image.now }
    requires meets { MeetDemands image.now }
    requires kept { AreKept image.now kept.now }
    requires sizes { AreSizes image.now sizes.now }
    ensures { IfOk result (IsTreeOf image.now) }
{
    let _tables = image.tables();
    an_image_is_ready();
    what_is_read_is_so();
    let source = Source { image, kept, sizes };
    read_tree(alloc, &source)
}

/// What the tokens of an image name.
fn names_of(
    alloc: Global,
    image: &Image<'_>,
    survey: &Survey<'_, '_>,
) -> Result<KeptNames, NoMemory>
    requires small { length image.now ≤ 2 ^ 26 }
    requires same { survey.now ≡ image.now }
    requires meets { MeetDemands image.now }
    ensures { IfOk result (AreKept image.now) }
{
    let _tables = image.tables();
    let known = keep_owners(alloc, image, survey.outers(), survey.used())?;
    keep_names(alloc, image, survey.used(), survey.states(), known)
}
