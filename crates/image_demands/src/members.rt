ghost use Rattle.std.specs.Prelude.{◌≡◌};
ghost use Rattle.image_demands.specs.Meeting.{MeetBelow, MeetDemands, FailsOr, AreTold};

use crate::places::found_at;
use attribute_demands::Attributes;
use demand_search::first_bad;
use image_model::tokens_name_one_thing;
use image_streams::{Image, Unmet};
use member_demands::{Accessors, Bases};
use row_groups::Outers;
use signature_facts::Owners;

/// The first attribute that is wrong (I21).
pub(crate) fn bad_attribute<F: Owners>(image: &Image<'_>, facts: &F) -> Option<Unmet>
    requires told { AreTold image.now (F.facts facts.now) }
    requires below { MeetBelow image.now 21 }
    ensures { FailsOr image.now (MeetBelow image.now 22) result }
{
    tokens_name_one_thing();
    let attributes = Attributes::new(image, facts);
    found_at(21, first_bad(&attributes))
}

/// The first type whose base is wrong (I22).
pub(crate) fn bad_base(image: &Image<'_>, outers: &Outers<'_, '_>) -> Option<Unmet>
    requires same { outers.now ≡ image.now }
    requires below { MeetBelow image.now 22 }
    ensures { FailsOr image.now (MeetBelow image.now 23) result }
{
    let _tables = image.tables();
    let bases = Bases::new(image, outers);
    found_at(22, first_bad(&bases))
}

/// The first event or property whose accessors are wrong (I23); `facts` are those of what tokens name.
pub(crate) fn bad_accessor<F: Owners>(image: &Image<'_>, _facts: &F) -> Option<Unmet>
    requires told { AreTold image.now (F.facts _facts.now) }
    requires below { MeetBelow image.now 23 }
    ensures { FailsOr image.now (MeetDemands image.now) result }
{
    let accessors = Accessors::new(image);
    found_at(23, first_bad(&accessors))
}
