ghost use Rattle.std.specs.Prelude.{◌≡◌, ◌⊎◌, ◌≤◌, ◌↔◌, IsTrue};
ghost use Rattle.image_model.specs.Columns.{member_signature, locals_signature, type_spec_signature, instance_arguments};
ghost use Rattle.image_model.specs.Rows.{HasRow};
ghost use Rattle.image_model.specs.Terms.{max_count};
ghost use Rattle.signature_facts.specs.Scanning.{whole_type, whole_locals, whole_instantiation};
ghost use Rattle.signature_bounds.specs.Bounded.{HasBounded, IsKept, IsBounded, HasRank, FieldIs, MethodIs, scanned_at};

use image_used::Used;
use signature_facts::Owners;
use signature_verdicts::Judgements;

/// Whether a MemberRef isn't used, or has the signature of a method or a field in bounds.
pub(crate) fn meets_member<O: Owners>(
    all: &Judgements<'_, '_, O>,
    used: &Used<'_, '_>,
    row: u32,
) -> bool
    requires there { HasRow all.now.image.now 0x0A row }
    requires image { used.now ≡ all.now.image.now }
    ensures { IsTrue result ↔ HasBounded all.now.image.now (O.facts all.now.owners.now) 0x0A row }
{
    if used.is_used(0x0A, row) {
        return has_member(all, row);
    }
    true
}

/// Whether a MemberRef has the signature of a method or a field in bounds.
#[tactic(auto, unfolding(metadata_tables::specs::Schema::schema))]
fn has_member<O: Owners>(all: &Judgements<'_, '_, O>, row: u32) -> bool
    requires { HasRow all.now.image.now 0x0A row }
    ensures { IsTrue result ↔ (MethodIs all.now.image.now (O.facts all.now.owners.now) (member_signature all.now.image.now row) IsBounded ⊎ FieldIs all.now.image.now (O.facts all.now.owners.now) (member_signature all.now.image.now row)) }
{
    let index = all.image.tables().cell(0x0A, row, 2);
    if all.is_method(index) {
        return true;
    }
    all.is_field(index)
}

/// Whether a StandAloneSig isn't used, or locals in bounds.
pub(crate) fn meets_locals<O: Owners>(
    all: &Judgements<'_, '_, O>,
    used: &Used<'_, '_>,
    row: u32,
) -> bool
    requires there { HasRow all.now.image.now 0x11 row }
    requires image { used.now ≡ all.now.image.now }
    ensures { IsTrue result ↔ HasBounded all.now.image.now (O.facts all.now.owners.now) 0x11 row }
{
    if used.is_used(0x11, row) {
        return has_locals(all, row);
    }
    true
}

/// Whether a StandAloneSig has locals in bounds.
#[tactic(auto, unfolding(metadata_tables::specs::Schema::schema))]
fn has_locals<O: Owners>(all: &Judgements<'_, '_, O>, row: u32) -> bool
    requires { HasRow all.now.image.now 0x11 row }
    ensures { IsTrue result ↔ IsKept (scanned_at all.now.image.now (whole_locals (O.facts all.now.owners.now)) (locals_signature all.now.image.now row)) (λ l. (l.count ≤ max_count) × HasRank l.facts) }
{
    let index = all.image.tables().cell(0x11, row, 0);
    all.are_locals(index)
}

/// Whether a TypeSpec isn't used, or a type in bounds.
pub(crate) fn meets_type<O: Owners>(
    all: &Judgements<'_, '_, O>,
    used: &Used<'_, '_>,
    row: u32,
) -> bool
    requires there { HasRow all.now.image.now 0x1B row }
    requires image { used.now ≡ all.now.image.now }
    ensures { IsTrue result ↔ HasBounded all.now.image.now (O.facts all.now.owners.now) 0x1B row }
{
    if used.is_used(0x1B, row) {
        return has_type(all, row);
    }
    true
}

/// Whether a TypeSpec has a type in bounds.
#[tactic(auto, unfolding(metadata_tables::specs::Schema::schema))]
fn has_type<O: Owners>(all: &Judgements<'_, '_, O>, row: u32) -> bool
    requires { HasRow all.now.image.now 0x1B row }
    ensures { IsTrue result ↔ IsKept (scanned_at all.now.image.now (whole_type (O.facts all.now.owners.now)) (type_spec_signature all.now.image.now row)) HasRank }
{
    let index = all.image.tables().cell(0x1B, row, 0);
    all.is_type(index)
}

/// Whether the arguments of a MethodSpec are in bounds.
#[tactic(auto, unfolding(metadata_tables::specs::Schema::schema))]
pub(crate) fn has_arguments<O: Owners>(all: &Judgements<'_, '_, O>, row: u32) -> bool
    requires { HasRow all.now.image.now 0x2B row }
    ensures { IsTrue result ↔ IsKept (scanned_at all.now.image.now (whole_instantiation (O.facts all.now.owners.now)) (instance_arguments all.now.image.now row)) (λ l. HasRank l.facts) }
{
    let index = all.image.tables().cell(0x2B, row, 1);
    all.are_arguments(index)
}
