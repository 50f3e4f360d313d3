ghost use Rattle.std.specs.Prelude.{◌≡◌, ◌≤◌, ◌^◌, false, IfOk, length};
ghost use Rattle.image_demands.specs.Meeting.{MeetDemands};
ghost use Rattle.image_model.specs.Faults.{IsImageFault};
ghost use Rattle.image_model.specs.Streams.{strings_of};
ghost use Rattle.image_model.specs.declared.place.Place.TheVariants.{Whole};
ghost use Rattle.told_weights.specs.Told.{TellWeights};
ghost use Rattle.image_lightness.specs.Light.{Meets, TellsLight, TellWeighed};

use crate::fresh::fresh_rows;
use crate::maps::is_light_by_maps;
use body_weights::BodyWeights;
use il_base::NoMemory;
use image_assemblies::an_assembly_exists;
use image_demands::Survey;
use image_streams::Image;
use name_weights::NameWeights;
use row_weights::{Members, SignatureWeights};
use signature_facts::Owners;
use spec_facts::{WithSpecs, facts_of_specs};
use std::alloc::Global;
use text_lengths::TextLengths;
use told_weights::RowWeights;

/// Whether the assembly that an image reads as weighs at most 2^26, where the image meets I1 to I23. Each row is looked at a few
/// times, each signature and each body once; no more memory is taken than some numbers for each.
///
/// # Errors
///
/// There was no memory for what is known of the rows.
pub fn weighs_little(
    alloc: Global,
    image: &Image<'_>,
    survey: &Survey<'_, '_>,
) -> Result<bool, NoMemory>
    requires small { length image.now ≤ 2 ^ 26 }
    requires same { survey.now ≡ image.now }
    requires meets { MeetDemands image.now }
    ensures little { IfOk result (TellsLight image.now) }
    ensures too_large { IfOk result (λ little. little ≡ false → IsImageFault image.now 24 Whole) }
{
    let _tables = image.tables();
    an_assembly_exists();
    let little = by_survey(alloc, survey)?;
    Ok(little)
}

/// The same, by what is known of the image.
fn by_survey(alloc: Global, survey: &Survey<'_, '_>) -> Result<bool, NoMemory>
    requires { Meets survey.now }
    ensures { IfOk result (TellsLight survey.now) }
{
    let lengths = TextLengths::new(alloc, survey.image().strings())?;
    by_lengths(alloc, survey, &lengths)
}

/// By the lengths of texts.
fn by_lengths<'i, 'a>(
    alloc: Global,
    survey: &Survey<'i, 'a>,
    lengths: &TextLengths<'a>,
) -> Result<bool, NoMemory>
    requires meets { Meets survey.now }
    requires lengths { lengths.now ≡ strings_of survey.now }
    ensures { IfOk result (TellsLight survey.now) }
{
    let image = survey.image();
    let names = NameWeights::new(alloc, image, survey.outers(), survey.names(), lengths)?;
    by_names(alloc, survey, lengths, &names)
}

/// By the weights of names.
fn by_names<'i, 'a>(
    alloc: Global,
    survey: &Survey<'i, 'a>,
    lengths: &TextLengths<'a>,
    names: &NameWeights<'i, 'a>,
) -> Result<bool, NoMemory>
    requires meets { Meets survey.now }
    requires lengths { lengths.now ≡ strings_of survey.now }
    requires names { names.now.image ≡ survey.now }
    ensures { IfOk result (TellsLight survey.now) }
{
    names.tell_weights();
    let specs = facts_of_specs(alloc, survey.image(), names)?;
    let facts = WithSpecs {
        names,
        specs: &specs,
    };
    by_facts(alloc, survey, lengths, names, &facts)
}

/// By facts of what tokens name.
fn by_facts<'i, 'a, O: Owners>(
    alloc: Global,
    survey: &Survey<'i, 'a>,
    lengths: &TextLengths<'a>,
    names: &NameWeights<'i, 'a>,
    facts: &O,
) -> Result<bool, NoMemory>
    requires meets { Meets survey.now }
    requires lengths { lengths.now ≡ strings_of survey.now }
    requires names { names.now.image ≡ survey.now }
    requires facts { TellWeighed survey.now (O.facts facts.now) }
    ensures { IfOk result (TellsLight survey.now) }
{
    let signatures = SignatureWeights::new(alloc, survey.image(), facts)?;
    by_signatures(alloc, survey, lengths, names, &signatures)
}

/// By the weights of signatures.
fn by_signatures<'i, 'a, O: Owners>(
    alloc: Global,
    survey: &Survey<'i, 'a>,
    lengths: &TextLengths<'a>,
    names: &NameWeights<'i, 'a>,
    signatures: &SignatureWeights<'_, 'a, O>,
) -> Result<bool, NoMemory>
    requires meets { Meets survey.now }
    requires lengths { lengths.now ≡ strings_of survey.now }
    requires names { names.now.image ≡ survey.now }
    requires image { signatures.now.image.now ≡ survey.now }
    requires facts { TellWeighed survey.now (O.facts signatures.now.owners.now) }
    ensures { IfOk result (TellsLight survey.now) }
{
    names.tell_weights();
    let members = Members::new(survey.image(), names, lengths, signatures);
    let weights = BodyWeights::new(alloc, &members)?;
    by_weights(alloc, survey, &weights)
}

/// By the weights of all that rows name.
fn by_weights<W: RowWeights>(
    alloc: Global,
    survey: &Survey<'_, '_>,
    weights: &W,
) -> Result<bool, NoMemory>
    requires meets { Meets survey.now }
    requires weights { TellWeights survey.now (W.told weights.now) }
    ensures { IfOk result (TellsLight survey.now) }
{
    let fresh = fresh_rows(alloc, survey)?;
    let image = survey.image();
    is_light_by_maps(alloc, image, survey.names(), weights, fresh.as_slice())
}
