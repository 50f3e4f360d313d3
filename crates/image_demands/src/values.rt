ghost use Rattle.std.specs.Prelude.{◌≡◌, IfOk};
ghost use Rattle.distinct_members.specs.Signed.{CanTell};
ghost use Rattle.image_demands.specs.Meeting.{MeetBelow, FailsOr, AreTold};

use crate::places::found_at;
use demand_search::first_bad;
use distinct_members::DistinctMembers;
use il_base::NoMemory;
use image_model::tokens_name_one_thing;
use image_streams::{Image, Unmet};
use image_used::Used;
use name_numbers::TextHashes;
use owner_numbers::OwnerNumbers;
use signature_equality::Numbering;
use signature_facts::Owners;
use std::alloc::Global;
use type_names::TypeNames;
use value_demands::UsedRows;
use value_rows::Values;

/// The first type or member that stands twice (I15).
pub(crate) fn stands_twice<F: Owners>(
    alloc: Global,
    image: &Image<'_>,
    names: &TypeNames<'_, '_>,
    facts: &F,
) -> Result<Option<Unmet>, NoMemory>
    requires names { names.now.image ≡ image.now }
    requires told { AreTold image.now (F.facts facts.now) }
    ensures { IfOk result (FailsOr image.now (MeetBelow image.now 16)) }
{
    let numbers = OwnerNumbers::new(alloc, image, names, facts)?;
    twice_by(alloc, image, names, facts, &numbers)
}

/// The same, by a test that tells tokens that name the same.
fn twice_by<F: Owners, N: Numbering>(
    alloc: Global,
    image: &Image<'_>,
    names: &TypeNames<'_, '_>,
    facts: &F,
    numbers: &N,
) -> Result<Option<Unmet>, NoMemory>
    requires names { names.now.image ≡ image.now }
    requires told { AreTold image.now (F.facts facts.now) }
    requires tells { CanTell image.now (N.canon numbers.now) }
    ensures { IfOk result (FailsOr image.now (MeetBelow image.now 16)) }
{
    tokens_name_one_thing();
    let texts = TextHashes::new(alloc, image.strings())?;
    let members = DistinctMembers::new(alloc, image, names, &texts, facts, numbers)?;
    Ok(found_at(15, first_bad(&members)))
}

/// The first row whose values are wrong (I16).
pub(crate) fn bad_value<F: Owners>(
    image: &Image<'_>,
    names: &TypeNames<'_, '_>,
    used: &Used<'_, '_>,
    facts: &F,
) -> Option<Unmet>
    requires names { names.now.image ≡ image.now }
    requires used { used.now ≡ image.now }
    requires told { AreTold image.now (F.facts facts.now) }
    requires below { MeetBelow image.now 16 }
    ensures { FailsOr image.now (MeetBelow image.now 17) result }
{
    tokens_name_one_thing();
    let instances = UsedInstances { used };
    let values = Values::new(image, names, facts, &instances);
    found_at(16, first_bad(&values))
}

/// Which rows of MethodSpec are used.
#[derive(Drop)]
struct UsedInstances<'u, 'i, 'a> {
    used: &'u Used<'i, 'a>,
}

impl<'u, 'i, 'a> UsedRows for UsedInstances<'u, 'i, 'a> {
    ghost image = { λ it. it.used.now };

    fn is_instance_used(&self, row: u32) -> bool {
        self.used.is_used(0x2B, row)
    }
}
