ghost use Rattle.std.specs.Prelude.{◌≡◌, ◌≤◌, ◌<◌, ◌↔◌, ◌⊎◌, ℕ, IsTrue, false};
ghost use Rattle.body_demands.specs.Asked.{AskInstructions, fails_instructions};
ghost use Rattle.image_model.specs.Bodies.{HasHeader, HasInstructions};
ghost use Rattle.image_model.specs.Rows.{HasRow};
ghost use Rattle.metadata_tables.specs.Faults.{IsEarlier};
ghost use Rattle.method_states.specs.States.{AreStates};

use demand_search::Demand;
use image_streams::Image;
use method_states::BodyState;
use std::marker::Model;

/// The code of bodies is whole instructions (I18), with known opcodes and targets where instructions begin.
#[derive(Drop)]
pub struct Instructions<'i, 'a> {
    image: &'i Image<'a>,
    states: &'i [BodyState],
}

impl<'i, 'a> Model for Instructions<'i, 'a> {
    ghost use Rattle.std.specs.Prelude.{ℕ, List};
    ghost use Rattle.body_demands.specs.Asked.{AskInstructions};

    ghost Value = { List ℕ };

    ghost view = { λ it. it.image.now };

    ghost invariant = { λ it. AskInstructions it.image.now it.states.now };
}

impl<'i, 'a> Instructions<'i, 'a> {
    /// The demand on an image, by what is said of its methods, where I17 holds.
    pub fn new(image: &'i Image<'a>, states: &'i [BodyState]) -> Instructions<'i, 'a>
        requires states { AreStates image.now states.now }
        requires headers { (table row : ℕ) → HasHeader image.now table row }
        ensures { result ≡ image.now }
    {
        Instructions { image, states }
    }
}

impl<'i, 'a> Demand for Instructions<'i, 'a> {
    ghost use Rattle.image_model.specs.Bodies.{HasInstructions};
    ghost use Rattle.image_model.specs.Rows.{count_of};

    ghost meets = { λ it table row. HasInstructions it table row };

    ghost rows = { λ it table. count_of it table };

    #[tactic(auto, using(crate::proofs::Meeting::instructions_steps))]
    fn asks(&self, table: u8) -> bool {
        table == 0x06
    }

    fn count(&self, table: u8) -> u32 {
        self.image.tables().rows(table)
    }

    #[tactic(auto, using(crate::proofs::Meeting::instructions_steps))]
    fn row_meets(&self, table: u8, row: u32) -> bool {
        if table != 0x06 {
            return true;
        }
        if row == 0 {
            return true;
        }
        has_instructions(self.image, self.states, row)
    }

    #[tactic(auto, using(crate::proofs::Meeting::instructions_steps))]
    fn others_meet(&self) {}
}

/// Whether a method meets the demand.
fn has_instructions(image: &Image<'_>, states: &[BodyState], row: u32) -> bool
    requires asked { AskInstructions image.now states.now }
    requires there { HasRow image.now 0x06 row }
    ensures { IsTrue result ↔ HasInstructions image.now 0x06 row }
{
    !fails_instructions(states[row as usize - 1])
}

/// Whether this is said.
fn fails_instructions(state: BodyState) -> bool
    ensures { result ≡ fails_instructions state }
{
    matches!(state, BodyState::Instructions)
}
