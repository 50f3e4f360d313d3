ghost use Rattle.std.specs.Prelude.{◌≡◌, ◌≢◌, ◌-◌, IfOk, OnOk};
ghost use Rattle.body_codec.specs.declared.fault.BodyFault.{BodyFault};
ghost use Rattle.image_model.specs.Columns.{method_rva};
ghost use Rattle.image_model.specs.Rows.{HasRow};
ghost use Rattle.pe_layout.specs.FileMap.{readable};
ghost use Rattle.row_weights.specs.Rows.{TellRows, known};
ghost use Rattle.body_weights.specs.Tokens.{AreTokens, tokens};
ghost use Rattle.body_weights.specs.Bodies.{BodyTold, BodyAtTold, TellTo, AreSeen};

use crate::outlines::weigh_outline;
use crate::tokens::{TokenWeights, number_at};
use body_codec::BodyFault;
use body_outlines::outline;
use hash_places::HashPlaces;
use heaps::blob_is_computed;
use il_base::NoMemory;
use image_streams::Image;
use signature_facts::Owners;
use std::alloc::Global;

/// What the bodies of the rows of MethodDef weigh; that of row 0 counts for nothing. The body at an RVA is looked at once.
pub(crate) fn bodies_of<O: Owners>(
    alloc: Global,
    image: &Image<'_>,
    given: &TokenWeights<'_, '_, O>,
) -> Result<Vec<u32>, NoMemory>
    requires are { AreTokens (tokens (known given.now.members.now.image.now given.now.members.now.names.now.weights (O.facts given.now.members.now.signatures.now.owners.now)) given.now.methods given.now.fields.items) }
    requires same { image.now ≡ given.now.members.now.image.now }
    ensures { IfOk result (λ weights. TellRows image.now 0x06 (BodyAtTold image.now) weights.items) }
{
    let count = image.tables().rows(0x06);
    let mut seen = HashPlaces::new(alloc);
    let mut weights = Vec::from_elem(alloc, 0, count as usize + 1)?;
    for row in 0..count {
        let weight = body_at(alloc, image, given, &mut seen, weights.as_slice(), row + 1)?;
        weights[row as usize + 1] = weight;
    }
    Ok(weights)
}

/// What the body of a method weighs, by those of the methods above.
fn body_at<O: Owners>(
    alloc: Global,
    image: &Image<'_>,
    given: &TokenWeights<'_, '_, O>,
    seen: &mut HashPlaces,
    weights: &[u32],
    row: u32,
) -> Result<u32, NoMemory>
    requires are { AreTokens (tokens (known given.now.members.now.image.now given.now.members.now.names.now.weights (O.facts given.now.members.now.signatures.now.owners.now)) given.now.methods given.now.fields.items) }
    requires same { image.now ≡ given.now.members.now.image.now }
    requires there { HasRow image.now 0x06 row }
    requires above { TellTo image.now (row - 1) weights.now }
    requires seen { AreSeen image.now (row - 1) seen.old }
    ensures told { IfOk result (BodyAtTold image.now row) }
    ensures seen { OnOk result (AreSeen image.now row seen.new) }
{
    let rva = rva_of(image, row);
    if rva == 0 {
        return Ok(0);
    }
    if let Some(first) = seen.get(u64::from(rva)) {
        return Ok(number_at(weights, first));
    }
    let weight = weigh_at(alloc, image, given, rva)?;
    seen.insert(u64::from(rva), row as usize)?;
    Ok(weight)
}

/// The RVA of a method.
#[tactic(auto, unfolding(metadata_tables::specs::Schema::schema))]
fn rva_of(image: &Image<'_>, method: u32) -> u32
    requires { HasRow image.now 0x06 method }
    ensures { result ≡ method_rva image.now method }
{
    image.tables().cell(0x06, method, 0)
}

/// What the body at an RVA weighs.
fn weigh_at<O: Owners>(
    alloc: Global,
    image: &Image<'_>,
    given: &TokenWeights<'_, '_, O>,
    rva: u32,
) -> Result<u32, NoMemory>
    requires are { AreTokens (tokens (known given.now.members.now.image.now given.now.members.now.names.now.weights (O.facts given.now.members.now.signatures.now.owners.now)) given.now.methods given.now.fields.items) }
    requires same { image.now ≡ given.now.members.now.image.now }
    ensures { IfOk result (BodyTold image.now (readable image.now rva)) }
{
    blob_is_computed();
    let bytes = readable(image, rva);
    match outline(alloc, bytes) {
        Ok(outline) => Ok(weigh_outline(given, &outline)),
        Err(fault) => weight_by(fault),
    }
}

/// What can be read from an RVA on.
fn readable<'a>(image: &Image<'a>, rva: u32) -> &'a [u8]
    ensures { result.now ≡ readable image.now rva }
{
    match image.pe().at_rva(rva) {
        Some(bytes) => bytes,
        None => &[],
    }
}

/// What is told of a body with a fault: nothing reads it, so any number is right.
fn weight_by(fault: BodyFault) -> Result<u32, NoMemory>
    ensures { IfOk result (λ _. fault ≢ BodyFault.NoMemory) }
{
    match fault {
        BodyFault::NoMemory => Err(NoMemory),
        _ => Ok(0),
    }
}
