ghost use Rattle.std.specs.Prelude.{◌≡◌, ◌≤◌, ◌^◌, ℕ, IfOk, length};
ghost use Rattle.image_model.specs.Structure.{HasScopes};
ghost use Rattle.method_states.specs.States.{AreStates};
ghost use Rattle.row_demands.specs.Structured.{MeetStructure};
ghost use Rattle.signature_demands.specs.Named.{AreSigned};
ghost use Rattle.image_demands.specs.Meeting.{MeetBelow, MeetDemands, FailsOr, AreTold};

use crate::bodies::{bad_body, unknown_token};
use crate::members::{bad_accessor, bad_attribute, bad_base};
use crate::survey::Survey;
use crate::values::{bad_value, stands_twice};
use il_base::NoMemory;
use image_namings::a_naming_exists;
use image_streams::{Image, Unmet};
use image_used::Used;
use method_states::BodyState;
use numbered_names::NumberedNames;
use row_demands::first_unmet;
use row_groups::Outers;
use signature_demands::first_unmet_signature;
use signature_facts::Owners;
use spec_facts::{WithSpecs, facts_of_specs};
use std::alloc::Global;
use type_names::{TypeNames, first_unmet_scope};

/// Where an opened image fails a demand on rows; None exactly where it meets I8 to I23.
///
/// # Errors
///
/// There was no memory for what is known of the image.
pub fn first_unmet_demand(alloc: Global, image: &Image<'_>) -> Result<Option<Unmet>, NoMemory>
    requires { length image.now ≤ 2 ^ 26 }
    ensures { IfOk result (FailsOr image.now (MeetDemands image.now)) }
{
    if let Some(unmet) = first_unmet(alloc, image)? {
        return Ok(Some(unmet));
    }
    let survey = Survey::new(alloc, image)?;
    first_unmet_named(alloc, image, &survey)
}

/// Where an image that meets I8 to I12 fails a demand on rows; None exactly where it meets I13 to I23.
///
/// # Errors
///
/// There was no memory for what is told of tokens.
pub fn first_unmet_named(
    alloc: Global,
    image: &Image<'_>,
    survey: &Survey<'_, '_>,
) -> Result<Option<Unmet>, NoMemory>
    requires small { length image.now ≤ 2 ^ 26 }
    requires same { survey.now ≡ image.now }
    requires meets { MeetStructure image.now }
    ensures { IfOk result (FailsOr image.now (MeetDemands image.now)) }
{
    if let Some(unmet) = first_unmet_scope(image, survey.names()) {
        return Ok(Some(unmet));
    }
    if let Some(unmet) = first_unmet_signature(alloc, image, survey.used())? {
        return Ok(Some(unmet));
    }
    unmet_by_names(alloc, image, survey)
}

/// Where an image that meets I8 to I14 fails a demand on rows.
fn unmet_by_names(
    alloc: Global,
    image: &Image<'_>,
    survey: &Survey<'_, '_>,
) -> Result<Option<Unmet>, NoMemory>
    requires small { length image.now ≤ 2 ^ 26 }
    requires same { survey.now ≡ image.now }
    requires meets { MeetStructure image.now }
    requires scopes { (table row : ℕ) → HasScopes image.now table row }
    requires signed { AreSigned image.now }
    ensures { IfOk result (FailsOr image.now (MeetDemands image.now)) }
{
    let _tables = image.tables();
    a_naming_exists();
    let names = NumberedNames::new(image, survey.names());
    names.tell_facts();
    let specs = facts_of_specs(alloc, image, &names)?;
    let facts = WithSpecs {
        names: &names,
        specs: &specs,
    };
    unmet_by_facts(alloc, image, survey, &facts)
}

/// The same, by facts of what tokens name.
fn unmet_by_facts<F: Owners>(
    alloc: Global,
    image: &Image<'_>,
    survey: &Survey<'_, '_>,
    facts: &F,
) -> Result<Option<Unmet>, NoMemory>
    requires same { survey.now ≡ image.now }
    requires told { AreTold image.now (F.facts facts.now) }
    ensures { IfOk result (FailsOr image.now (MeetDemands image.now)) }
{
    if let Some(unmet) = unmet_value(alloc, image, survey.names(), survey.used(), facts)? {
        return Ok(Some(unmet));
    }
    if let Some(unmet) = unmet_body(alloc, image, survey.states())? {
        return Ok(Some(unmet));
    }
    Ok(unmet_reference(image, survey.outers(), facts))
}

/// Where an image that meets I8 to I14 fails the demands on members and values (I15, I16).
fn unmet_value<F: Owners>(
    alloc: Global,
    image: &Image<'_>,
    names: &TypeNames<'_, '_>,
    used: &Used<'_, '_>,
    facts: &F,
) -> Result<Option<Unmet>, NoMemory>
    requires names { names.now.image ≡ image.now }
    requires used { used.now ≡ image.now }
    requires told { AreTold image.now (F.facts facts.now) }
    ensures { IfOk result (FailsOr image.now (MeetBelow image.now 17)) }
{
    if let Some(unmet) = stands_twice(alloc, image, names, facts)? {
        return Ok(Some(unmet));
    }
    Ok(bad_value(image, names, used, facts))
}

/// Where an image that meets I8 to I16 fails the demands on bodies (I17 to I20).
fn unmet_body(
    alloc: Global,
    image: &Image<'_>,
    states: &[BodyState],
) -> Result<Option<Unmet>, NoMemory>
    requires small { length image.now ≤ 2 ^ 26 }
    requires states { AreStates image.now states.now }
    requires below { MeetBelow image.now 17 }
    ensures { IfOk result (FailsOr image.now (MeetBelow image.now 21)) }
{
    if let Some(unmet) = bad_body(image, states) {
        return Ok(Some(unmet));
    }
    unknown_token(alloc, image, states)
}

/// Where an image that meets I8 to I20 fails the demands on attributes, bases and accessors (I21 to I23).
fn unmet_reference<F: Owners>(
    image: &Image<'_>,
    outers: &Outers<'_, '_>,
    facts: &F,
) -> Option<Unmet>
    requires outers { outers.now ≡ image.now }
    requires told { AreTold image.now (F.facts facts.now) }
    requires below { MeetBelow image.now 21 }
    ensures { FailsOr image.now (MeetDemands image.now) result }
{
    if let Some(unmet) = bad_attribute(image, facts) {
        return Some(unmet);
    }
    if let Some(unmet) = bad_base(image, outers) {
        return Some(unmet);
    }
    bad_accessor(image, facts)
}
