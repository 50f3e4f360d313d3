ghost use Rattle.std.specs.Prelude.{IfOk};
ghost use Rattle.interface_numbers.specs.Known.{CanNumber};
ghost use Rattle.owner_numbers.specs.Terms.{TellFacts};
ghost use Rattle.told_weights.specs.Fresh.{AreFresh};
ghost use Rattle.image_lightness.specs.Light.{Meets};

use il_base::{Items, NoMemory};
use image_demands::Survey;
use image_streams::Image;
use interface_marks::mark_interfaces;
use interface_numbers::number_interfaces;
use numbered_names::NumberedNames;
use owner_numbers::OwnerNumbers;
use signature_equality::Numbering;
use signature_facts::Owners;
use spec_facts::{WithSpecs, facts_of_specs};
use std::alloc::Global;

/// For each row of InterfaceImpl, and for row 0 besides, whether no earlier row of its class names its type.
pub(crate) fn fresh_rows(alloc: Global, survey: &Survey<'_, '_>) -> Result<Items<bool>, NoMemory>
    requires { Meets survey.now }
    ensures { IfOk result (λ marks. AreFresh survey.now marks) }
{
    let image = survey.image();
    let names = NumberedNames::new(image, survey.names());
    names.tell_facts();
    let specs = facts_of_specs(alloc, image, &names)?;
    let facts = WithSpecs {
        names: &names,
        specs: &specs,
    };
    fresh_by(alloc, survey, &facts)
}

/// The same, by facts of what tokens name.
fn fresh_by<O: Owners>(
    alloc: Global,
    survey: &Survey<'_, '_>,
    facts: &O,
) -> Result<Items<bool>, NoMemory>
    requires meets { Meets survey.now }
    requires facts { TellFacts survey.now (O.facts facts.now) }
    ensures { IfOk result (λ marks. AreFresh survey.now marks) }
{
    let image = survey.image();
    let numbers = OwnerNumbers::new(alloc, image, survey.names(), facts)?;
    fresh_with(alloc, image, facts, &numbers)
}

/// The same, by a test that tells tokens that name the same.
fn fresh_with<O: Owners, N: Numbering>(
    alloc: Global,
    image: &Image<'_>,
    facts: &O,
    numbers: &N,
) -> Result<Items<bool>, NoMemory>
    requires meets { Meets image.now }
    requires can { CanNumber image.now (O.facts facts.now) (N.canon numbers.now) }
    ensures { IfOk result (λ marks. AreFresh image.now marks) }
{
    let types = number_interfaces(alloc, image, facts, numbers)?;
    mark_interfaces(alloc, image, types.as_slice())
}
