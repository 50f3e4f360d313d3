ghost use Rattle.std.specs.Prelude.{◌≡◌, ◌≤◌, ◌<◌, ◌↔◌, ◌⊎◌, ℕ, IsTrue, false};
ghost use Rattle.body_demands.specs.Asked.{AskClauses, fails_clauses};
ghost use Rattle.image_model.specs.Bodies.{HasClauses, HasHeader, HasInstructions};
ghost use Rattle.image_model.specs.Rows.{HasRow};
ghost use Rattle.metadata_tables.specs.Faults.{IsEarlier};
ghost use Rattle.method_states.specs.States.{AreStates};

use demand_search::Demand;
use image_streams::Image;
use method_states::BodyState;
use std::marker::Model;

/// The sections of bodies can be read and hold clauses of known kinds over instructions, at most 65,535 (I19).
#[derive(Drop)]
pub struct Clauses<'i, 'a> {
    image: &'i Image<'a>,
    states: &'i [BodyState],
}

impl<'i, 'a> Model for Clauses<'i, 'a> {
    ghost use Rattle.std.specs.Prelude.{ℕ, List};
    ghost use Rattle.body_demands.specs.Asked.{AskClauses};

    ghost Value = { List ℕ };

    ghost view = { λ it. it.image.now };

    ghost invariant = { λ it. AskClauses it.image.now it.states.now };
}

impl<'i, 'a> Clauses<'i, 'a> {
    /// The demand on an image, by what is said of its methods, where I17 and I18 hold.
    pub fn new(image: &'i Image<'a>, states: &'i [BodyState]) -> Clauses<'i, 'a>
        requires states { AreStates image.now states.now }
        requires headers { (table row : ℕ) → HasHeader image.now table row }
        requires instructions { (table row : ℕ) → HasInstructions image.now table row }
        ensures { result ≡ image.now }
    {
        Clauses { image, states }
    }
}

impl<'i, 'a> Demand for Clauses<'i, 'a> {
    ghost use Rattle.image_model.specs.Bodies.{HasClauses};
    ghost use Rattle.image_model.specs.Rows.{count_of};

    ghost meets = { λ it table row. HasClauses it table row };

    ghost rows = { λ it table. count_of it table };

    #[tactic(auto, using(crate::proofs::Meeting::clauses_steps))]
    fn asks(&self, table: u8) -> bool {
        table == 0x06
    }

    fn count(&self, table: u8) -> u32 {
        self.image.tables().rows(table)
    }

    #[tactic(auto, using(crate::proofs::Meeting::clauses_steps))]
    fn row_meets(&self, table: u8, row: u32) -> bool {
        if table != 0x06 {
            return true;
        }
        if row == 0 {
            return true;
        }
        has_clauses(self.image, self.states, row)
    }

    #[tactic(auto, using(crate::proofs::Meeting::clauses_steps))]
    fn others_meet(&self) {}
}

/// Whether a method meets the demand.
fn has_clauses(image: &Image<'_>, states: &[BodyState], row: u32) -> bool
    requires asked { AskClauses image.now states.now }
    requires there { HasRow image.now 0x06 row }
    ensures { IsTrue result ↔ HasClauses image.now 0x06 row }
{
    !fails_clauses(states[row as usize - 1])
}

/// Whether this is said.
fn fails_clauses(state: BodyState) -> bool
    ensures { result ≡ fails_clauses state }
{
    matches!(state, BodyState::Clauses)
}
