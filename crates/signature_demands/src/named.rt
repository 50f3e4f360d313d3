ghost use Rattle.std.specs.Prelude.{◌≡◌, ◌↔◌, ℕ, IsTrue, false};
ghost use Rattle.metadata_tables.specs.declared.coded.Coded.TheVariants.{MethodDefOrRef};
ghost use Rattle.image_model.specs.Columns.{member_signature, instance_method, instance_arguments};
ghost use Rattle.image_model.specs.Rows.{HasRow, Names};
ghost use Rattle.signature_bounds.specs.Bounded.{HasBounded, HasRank, IsKept, NamesMethod, MethodIs, scanned_at};
ghost use Rattle.signature_demands.specs.Named.{MembersAreThere};
ghost use Rattle.signature_facts.specs.Scanning.{whole_instantiation};

use crate::references::has_arguments;
use image_used::Used;
use metadata_tables::{Coded, unpack_coded};
use signature_facts::Owners;
use signature_verdicts::Judgements;

/// Whether a MemberRef has the signature of a method.
#[tactic(auto, unfolding(metadata_tables::specs::Schema::schema))]
fn is_called<O: Owners>(all: &Judgements<'_, '_, O>, row: u32) -> bool
    requires { HasRow all.now.image.now 0x0A row }
    ensures { IsTrue result ↔ MethodIs all.now.image.now (O.facts all.now.owners.now) (member_signature all.now.image.now row) (λ m. Unit {0}) }
{
    let index = all.image.tables().cell(0x0A, row, 2);
    all.is_spelled_method(index)
}

/// Whether a MethodDefOrRef index names a MethodDef, or a MemberRef with a method's signature.
fn names_method<O: Owners>(all: &Judgements<'_, '_, O>, value: u32) -> bool
    requires { (member : ℕ) → Names MethodDefOrRef value 0x0A member → HasRow all.now.image.now 0x0A member }
    ensures { IsTrue result ↔ NamesMethod all.now.image.now (O.facts all.now.owners.now) value }
{
    match unpack_coded(Coded::MethodDefOrRef, value) {
        None => false,
        Some((table, row)) => {
            if table == 0x0A {
                return is_called(all, row);
            }
            true
        }
    }
}

/// Whether the body and the declaration of a MethodImpl are methods.
#[tactic(auto, unfolding(metadata_tables::specs::Schema::schema))]
pub(crate) fn meets_override<O: Owners>(all: &Judgements<'_, '_, O>, row: u32) -> bool
    requires there { HasRow all.now.image.now 0x19 row }
    requires members { MembersAreThere all.now.image.now }
    ensures { IsTrue result ↔ HasBounded all.now.image.now (O.facts all.now.owners.now) 0x19 row }
{
    let body = all.image.tables().cell(0x19, row, 1);
    let declaration = all.image.tables().cell(0x19, row, 2);
    let has_body = names_method(all, body);
    let has_declaration = names_method(all, declaration);
    if has_body {
        return has_declaration;
    }
    false
}

/// Whether the method of a MethodSpec is one.
#[tactic(auto, unfolding(metadata_tables::specs::Schema::schema))]
fn has_method<O: Owners>(all: &Judgements<'_, '_, O>, row: u32) -> bool
    requires there { HasRow all.now.image.now 0x2B row }
    requires members { MembersAreThere all.now.image.now }
    ensures { IsTrue result ↔ NamesMethod all.now.image.now (O.facts all.now.owners.now) (instance_method all.now.image.now row) }
{
    let method = all.image.tables().cell(0x2B, row, 0);
    names_method(all, method)
}

/// Whether the method of a MethodSpec is one, and its arguments are in bounds.
fn has_both<O: Owners>(all: &Judgements<'_, '_, O>, row: u32) -> bool
    requires there { HasRow all.now.image.now 0x2B row }
    requires members { MembersAreThere all.now.image.now }
    ensures { IsTrue result ↔ (NamesMethod all.now.image.now (O.facts all.now.owners.now) (instance_method all.now.image.now row) × IsKept (scanned_at all.now.image.now (whole_instantiation (O.facts all.now.owners.now)) (instance_arguments all.now.image.now row)) (λ l. HasRank l.facts)) }
{
    if has_method(all, row) {
        return has_arguments(all, row);
    }
    false
}

/// Whether the method of a MethodSpec is one, and its arguments are in bounds where it is used.
pub(crate) fn meets_instance<O: Owners>(
    all: &Judgements<'_, '_, O>,
    used: &Used<'_, '_>,
    row: u32,
) -> bool
    requires there { HasRow all.now.image.now 0x2B row }
    requires members { MembersAreThere all.now.image.now }
    requires image { used.now ≡ all.now.image.now }
    ensures { IsTrue result ↔ HasBounded all.now.image.now (O.facts all.now.owners.now) 0x2B row }
{
    if used.is_used(0x2B, row) {
        return has_both(all, row);
    }
    has_method(all, row)
}
