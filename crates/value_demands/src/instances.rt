ghost use Rattle.std.specs.Prelude.{◌≡◌, ◌↔◌, IsTrue, Some};
ghost use Rattle.image_model.specs.Columns.{instance_method, instance_arguments, method_signature, member_signature};
ghost use Rattle.image_model.specs.Rows.{HasRow};
ghost use Rattle.image_model.specs.Used.{IsUsed};
ghost use Rattle.metadata_tables.specs.CodedIndex.{unpacked};
ghost use Rattle.metadata_tables.specs.declared.coded.Coded.TheVariants.{MethodDefOrRef};
ghost use Rattle.attribute_demands.specs.Judging.{CanJudge};
ghost use Rattle.value_demands.specs.Valued.{HasValuesByNames, FitsByNames, signature_of};

use crate::UsedRows;
use crate::counts::{arguments_at, counts_at};
use image_streams::Image;
use metadata_tables::{Coded, unpack_coded};
use signature_facts::Owners;

/// Whether a row of MethodSpec meets the demand on values (I16): where it is used, it has as many arguments as its method has generic
/// parameters (II.22.29).
pub fn instance_has_values<O: Owners, U: UsedRows>(
    image: &Image<'_>,
    facts: &O,
    used: &U,
    row: u32,
) -> bool
    requires there { HasRow image.now 0x2B row }
    requires can { CanJudge image.now (O.facts facts.now) }
    requires used { U.image used.now ≡ image.now }
    ensures { IsTrue result ↔ HasValuesByNames image.now 0x2B row }
{
    if !used.is_instance_used(row) {
        return true;
    }
    fits_instance(image, facts, row)
}

/// Whether a row of MethodSpec in use has as many arguments as its method has generic parameters.
fn fits_instance<O: Owners>(image: &Image<'_>, facts: &O, row: u32) -> bool
    requires there { HasRow image.now 0x2B row }
    requires used { IsUsed image.now 0x2B row }
    requires can { CanJudge image.now (O.facts facts.now) }
    ensures { IsTrue result ↔ FitsByNames image.now row }
{
    let (table, method) = method_of(image, facts, row);
    let counts = counts_at(image, facts, signature_of(image, table, method));
    arguments_at(image, facts, arguments_of(image, row)) == counts.generic
}

/// The method that a row of MethodSpec names.
fn method_of<O: Owners>(image: &Image<'_>, _facts: &O, row: u32) -> (u8, u32)
    requires there { HasRow image.now 0x2B row }
    requires can { CanJudge image.now (O.facts _facts.now) }
    ensures names { unpacked MethodDefOrRef (instance_method image.now row) ≡ Some (result.0, result.1) }
    ensures there { HasRow image.now result.0 result.1 }
{
    match unpack_coded(Coded::MethodDefOrRef, method_index(image, row)) {
        Some(named) => named,
        None => (0, 0),
    }
}

/// The coded index of the method of a row of MethodSpec.
#[tactic(auto, unfolding(metadata_tables::specs::Schema::schema))]
fn method_index(image: &Image<'_>, row: u32) -> u32
    requires { HasRow image.now 0x2B row }
    ensures { result ≡ instance_method image.now row }
{
    image.tables().cell(0x2B, row, 0)
}

/// The index of the signature of a MethodDef or a MemberRef.
#[tactic(auto, unfolding(metadata_tables::specs::Schema::schema))]
fn signature_of(image: &Image<'_>, table: u8, row: u32) -> u32
    requires there { HasRow image.now table row }
    ensures { result ≡ signature_of image.now table row }
{
    if table == 0x06 {
        return image.tables().cell(0x06, row, 4);
    }
    if table == 0x0A {
        return image.tables().cell(0x0A, row, 2);
    }
    0
}

/// The index of the arguments of a row of MethodSpec.
#[tactic(auto, unfolding(metadata_tables::specs::Schema::schema))]
fn arguments_of(image: &Image<'_>, row: u32) -> u32
    requires { HasRow image.now 0x2B row }
    ensures { result ≡ instance_arguments image.now row }
{
    image.tables().cell(0x2B, row, 1)
}
