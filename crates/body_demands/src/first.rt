ghost use Rattle.std.specs.Prelude.{◌≡◌, ℕ, IfSome, IfNone};
ghost use Rattle.demand_search.specs.Search.{IsFirstBad};
ghost use Rattle.image_model.specs.Bodies.{HasHeader, HasInstructions, HasClauses};
ghost use Rattle.image_model.specs.declared.place.Place.TheVariants.{Row};
ghost use Rattle.method_states.specs.States.{AreStates};
ghost use Rattle.body_demands.specs.Unmet.{MeetBodies, IsFirstUnmet};

use crate::{Clauses, Headers, Instructions};
use demand_search::first_bad;
use image_model::Place;
use image_streams::{Image, Unmet};
use method_states::BodyState;

/// The first of the demands I17 to I19 that the methods of an image fail, with its place; None exactly where they meet them all
/// (ECMA-335 II.25.4). Takes no memory.
pub fn first_unmet(image: &Image<'_>, states: &[BodyState]) -> Option<Unmet>
    requires { AreStates image.now states.now }
    ensures bad { IfSome result (IsFirstUnmet image.now) }
    ensures none { IfNone result (MeetBodies image.now) }
{
    if let Some(at) = bad_header(image, states) {
        return Some(at_row(17, at));
    }
    if let Some(at) = bad_instruction(image, states) {
        return Some(at_row(18, at));
    }
    if let Some(at) = bad_clause(image, states) {
        return Some(at_row(19, at));
    }
    None
}

/// The first method with a wrong header.
fn bad_header(image: &Image<'_>, states: &[BodyState]) -> Option<(u8, u32)>
    requires { AreStates image.now states.now }
    ensures bad { IfSome result (λ at. IsFirstBad (HasHeader image.now) at.0 at.1) }
    ensures none { IfNone result ((table row : ℕ) → HasHeader image.now table row) }
{
    let demand = Headers::new(image, states);
    first_bad(&demand)
}

/// The first method with a wrong instruction.
fn bad_instruction(image: &Image<'_>, states: &[BodyState]) -> Option<(u8, u32)>
    requires states { AreStates image.now states.now }
    requires headers { (table row : ℕ) → HasHeader image.now table row }
    ensures bad { IfSome result (λ at. IsFirstBad (HasInstructions image.now) at.0 at.1) }
    ensures none { IfNone result ((table row : ℕ) → HasInstructions image.now table row) }
{
    let demand = Instructions::new(image, states);
    first_bad(&demand)
}

/// The first method with a wrong clause.
fn bad_clause(image: &Image<'_>, states: &[BodyState]) -> Option<(u8, u32)>
    requires states { AreStates image.now states.now }
    requires headers { (table row : ℕ) → HasHeader image.now table row }
    requires instructions { (table row : ℕ) → HasInstructions image.now table row }
    ensures bad { IfSome result (λ at. IsFirstBad (HasClauses image.now) at.0 at.1) }
    ensures none { IfNone result ((table row : ℕ) → HasClauses image.now table row) }
{
    let demand = Clauses::new(image, states);
    first_bad(&demand)
}

/// A demand that fails at a row.
fn at_row(rule: u8, at: (u8, u32)) -> Unmet
    ensures rule { result.rule ≡ rule }
    ensures at { result.at ≡ Row at.0 at.1 }
{
    Unmet {
        rule,
        at: Place::Row {
            table: at.0,
            row: at.1,
        },
    }
}
