ghost use Rattle.std.specs.Prelude.{◌≤◌, ◌^◌, IfOk, length};
ghost use Rattle.method_states.specs.States.{AreStates};
ghost use Rattle.image_demands.specs.Meeting.{MeetBelow, FailsOr};

use crate::places::at_row;
use body_demands::first_unmet;
use body_tokens::first_unknown;
use il_base::NoMemory;
use image_streams::{Image, Unmet};
use method_states::BodyState;
use std::alloc::Global;

/// The first method whose body is wrong (I17 to I19).
pub(crate) fn bad_body(image: &Image<'_>, states: &[BodyState]) -> Option<Unmet>
    requires states { AreStates image.now states.now }
    requires below { MeetBelow image.now 17 }
    ensures { FailsOr image.now (MeetBelow image.now 20) result }
{
    let _tables = image.tables();
    first_unmet(image, states)
}

/// The first method with a token in its body that doesn't name what is wanted (I20).
pub(crate) fn unknown_token(
    alloc: Global,
    image: &Image<'_>,
    states: &[BodyState],
) -> Result<Option<Unmet>, NoMemory>
    requires small { length image.now ≤ 2 ^ 26 }
    requires states { AreStates image.now states.now }
    requires below { MeetBelow image.now 20 }
    ensures { IfOk result (FailsOr image.now (MeetBelow image.now 21)) }
{
    let _tables = image.tables();
    let found = first_unknown(alloc, image, states)?;
    match found {
        Some(row) => Ok(Some(at_row(20, 0x06, row))),
        None => Ok(None),
    }
}
