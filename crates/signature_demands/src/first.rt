ghost use Rattle.std.specs.Prelude.{◌≡◌, ◌≤◌, ◌^◌, ℕ, IfOk, MatchOption, length};
ghost use Rattle.body_codec.specs.Names.{NameMap};
ghost use Rattle.demand_search.specs.Search.{IsFirstBad, AllMeet};
ghost use Rattle.image_model.specs.Faults.{IsImageFault};
ghost use Rattle.image_model.specs.Namings.{AreNamings};
ghost use Rattle.image_model.specs.Structure.{HasScopes};
ghost use Rattle.image_model.specs.Terms.{HasSignatures};
ghost use Rattle.row_demands.specs.Structured.{MeetStructure};
ghost use Rattle.signature_bounds.specs.Bounded.{HasBounded};
ghost use Rattle.signature_demands.specs.Named.{AreSigned, MembersAreThere};

use crate::name_facts::NameFacts;
use crate::signatures::Signatures;
use demand_search::first_bad;
use il_base::NoMemory;
use image_model::Place;
use image_namings::a_naming_exists;
use image_streams::{Image, Unmet};
use image_used::Used;
use signature_facts::Owners;
use signature_verdicts::Judgements;
use spec_facts::{WithSpecs, facts_of_specs};
use std::alloc::Global;

/// Where an image that meets I1 to I13 fails the demand on signatures (I14); None exactly where it meets it. A signature is looked at
/// once, also where rows share it.
///
/// # Errors
///
/// There was no memory for what is told of signatures.
pub fn first_unmet_signature(
    alloc: Global,
    image: &Image<'_>,
    used: &Used<'_, '_>,
) -> Result<Option<Unmet>, NoMemory>
    requires small { length image.now ≤ 2 ^ 26 }
    requires same { used.now ≡ image.now }
    requires meets { MeetStructure image.now }
    requires scopes { (table row : ℕ) → HasScopes image.now table row }
    ensures { IfOk result (λ unmet. MatchOption unmet (AreSigned image.now) (λ u. IsImageFault image.now u.rule u.at)) }
{
    let _tables = image.tables();
    a_naming_exists();
    let found = bad_signature(alloc, image, used)?;
    match found {
        Some((table, row)) => Ok(Some(Unmet {
            rule: 14,
            at: Place::Row { table, row },
        })),
        None => Ok(None),
    }
}

/// The first row whose signature is wrong.
fn bad_signature(
    alloc: Global,
    image: &Image<'_>,
    used: &Used<'_, '_>,
) -> Result<Option<(u8, u32)>, NoMemory>
    requires same { used.now ≡ image.now }
    requires meets { MeetStructure image.now }
    requires scopes { (table row : ℕ) → HasScopes image.now table row }
    ensures { IfOk result (λ at. (names : NameMap) → AreNamings image.now names → MatchOption at (AllMeet (HasSignatures image.now names)) (λ a. IsFirstBad (HasSignatures image.now names) a.0 a.1)) }
{
    let names = NameFacts { image };
    let specs = facts_of_specs(alloc, image, &names)?;
    let owners = WithSpecs {
        names: &names,
        specs: &specs,
    };
    bad_by(alloc, image, &owners, used)
}

/// The same, by what is told of tokens.
fn bad_by<O: Owners>(
    alloc: Global,
    image: &Image<'_>,
    owners: &O,
    used: &Used<'_, '_>,
) -> Result<Option<(u8, u32)>, NoMemory>
    requires same { used.now ≡ image.now }
    requires members { MembersAreThere image.now }
    ensures { IfOk result (λ at. MatchOption at (AllMeet (HasBounded image.now (O.facts owners.now))) (λ a. IsFirstBad (HasBounded image.now (O.facts owners.now)) a.0 a.1)) }
{
    let all = Judgements::new(alloc, image, owners)?;
    let demand = Signatures::new(&all, used);
    Ok(first_bad(&demand))
}
