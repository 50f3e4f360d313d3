ghost use Rattle.std.specs.Prelude.{◌≡◌, ◌↔◌, IsTrue, length};
ghost use Rattle.image_model.specs.Columns.{method_signature};
ghost use Rattle.image_model.specs.Members.{generics_of};
ghost use Rattle.image_model.specs.Rows.{HasRow};
ghost use Rattle.attribute_demands.specs.Judging.{CanJudge};
ghost use Rattle.row_demands.specs.Structured.{MeetStructure};
ghost use Rattle.value_demands.specs.Valued.{HasValuesByNames, SignatureFitsByNames};

use crate::counts::counts_at;
use crate::params::params_fit;
use image_streams::Image;
use member_demands::method_has_generics;
use row_groups::owned_rows;
use signature_facts::Owners;

/// Whether a method meets the demand on values (I16): its generic parameters are numbered from 0 and as many as its signature says, and
/// its params have numbers up to that of its parameters (II.22.20, II.22.33).
pub fn method_has_values<O: Owners>(image: &Image<'_>, facts: &O, row: u32) -> bool
    requires there { HasRow image.now 0x06 row }
    requires can { CanJudge image.now (O.facts facts.now) }
    ensures { IsTrue result ↔ HasValuesByNames image.now 0x06 row }
{
    if !method_has_generics(image, row) {
        return false;
    }
    fits_signature(image, facts, row)
}

/// Whether a method has as many generic parameters as its signature says, and params up to its parameters.
fn fits_signature<O: Owners>(image: &Image<'_>, facts: &O, row: u32) -> bool
    requires there { HasRow image.now 0x06 row }
    requires can { CanJudge image.now (O.facts facts.now) }
    ensures { IsTrue result ↔ SignatureFitsByNames image.now row }
{
    let counts = counts_at(image, facts, signature_of(image, row));
    if generics(image, row) != u64::from(counts.generic) {
        return false;
    }
    params_fit(image, row, counts.params)
}

/// The index of the signature of a method.
#[tactic(auto, unfolding(metadata_tables::specs::Schema::schema))]
fn signature_of(image: &Image<'_>, row: u32) -> u32
    requires { HasRow image.now 0x06 row }
    ensures { result ≡ method_signature image.now row }
{
    image.tables().cell(0x06, row, 4)
}

/// How many generic parameters a method has.
#[tactic(auto, unfolding(metadata_tables::specs::Schema::schema))]
fn generics(image: &Image<'_>, row: u32) -> u64
    requires there { HasRow image.now 0x06 row }
    requires meets { MeetStructure image.now }
    ensures { result ≡ length (generics_of image.now 0x06 row) }
{
    owned_rows(image, 0x2A, 2, u64::from(row) * 2 + 1).count
}
