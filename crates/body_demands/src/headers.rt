ghost use Rattle.std.specs.Prelude.{◌≡◌, ◌≤◌, ◌<◌, ◌↔◌, ◌⊎◌, ℕ, IsTrue, false};
ghost use Rattle.body_demands.specs.Asked.{AskHeaders, fails_header};
ghost use Rattle.image_model.specs.Bodies.{HasHeader};
ghost use Rattle.image_model.specs.Rows.{HasRow};
ghost use Rattle.metadata_tables.specs.Faults.{IsEarlier};
ghost use Rattle.method_states.specs.States.{AreStates};

use demand_search::Demand;
use image_streams::Image;
use method_states::BodyState;
use std::marker::Model;

/// The headers of bodies are known (I17): the code is IL or the runtime's, and managed; where there is a body, it has a known header, code that can be read, and known locals.
#[derive(Drop)]
pub struct Headers<'i, 'a> {
    image: &'i Image<'a>,
    states: &'i [BodyState],
}

impl<'i, 'a> Model for Headers<'i, 'a> {
    ghost use Rattle.std.specs.Prelude.{ℕ, List};
    ghost use Rattle.body_demands.specs.Asked.{AskHeaders};

    ghost Value = { List ℕ };

    ghost view = { λ it. it.image.now };

    ghost invariant = { λ it. AskHeaders it.image.now it.states.now };
}

impl<'i, 'a> Headers<'i, 'a> {
    /// The demand on an image, by what is said of its methods.
    pub fn new(image: &'i Image<'a>, states: &'i [BodyState]) -> Headers<'i, 'a>
        requires states { AreStates image.now states.now }
        ensures { result ≡ image.now }
    {
        Headers { image, states }
    }
}

impl<'i, 'a> Demand for Headers<'i, 'a> {
    ghost use Rattle.image_model.specs.Bodies.{HasHeader};
    ghost use Rattle.image_model.specs.Rows.{count_of};

    ghost meets = { λ it table row. HasHeader it table row };

    ghost rows = { λ it table. count_of it table };

    #[tactic(auto, using(crate::proofs::Meeting::header_steps))]
    fn asks(&self, table: u8) -> bool {
        table == 0x06
    }

    fn count(&self, table: u8) -> u32 {
        self.image.tables().rows(table)
    }

    #[tactic(auto, using(crate::proofs::Meeting::header_steps))]
    fn row_meets(&self, table: u8, row: u32) -> bool {
        if table != 0x06 {
            return true;
        }
        if row == 0 {
            return true;
        }
        has_header(self.image, self.states, row)
    }

    #[tactic(auto, using(crate::proofs::Meeting::header_steps))]
    fn others_meet(&self) {}
}

/// Whether a method meets the demand.
fn has_header(image: &Image<'_>, states: &[BodyState], row: u32) -> bool
    requires asked { AskHeaders image.now states.now }
    requires there { HasRow image.now 0x06 row }
    ensures { IsTrue result ↔ HasHeader image.now 0x06 row }
{
    !fails_header(states[row as usize - 1])
}

/// Whether this is said.
fn fails_header(state: BodyState) -> bool
    ensures { result ≡ fails_header state }
{
    matches!(state, BodyState::Header)
}
