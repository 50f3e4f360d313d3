ghost use Rattle.std.specs.Prelude.{◌↔◌, IsTrue};
ghost use Rattle.image_model.specs.Rows.{HasRow};
ghost use Rattle.signature_bounds.specs.Bounded.{HasBounded};

use signature_facts::Owners;
use signature_verdicts::Judgements;

/// Whether the signature of a field is in bounds.
#[tactic(auto, unfolding(metadata_tables::specs::Schema::schema))]
pub(crate) fn meets_field<O: Owners>(all: &Judgements<'_, '_, O>, row: u32) -> bool
    requires { HasRow all.now.image.now 0x04 row }
    ensures { IsTrue result ↔ HasBounded all.now.image.now (O.facts all.now.owners.now) 0x04 row }
{
    let index = all.image.tables().cell(0x04, row, 2);
    all.is_field(index)
}

/// Whether the signature of a method is in bounds, without a sentinel.
#[tactic(auto, unfolding(metadata_tables::specs::Schema::schema))]
pub(crate) fn meets_method<O: Owners>(all: &Judgements<'_, '_, O>, row: u32) -> bool
    requires { HasRow all.now.image.now 0x06 row }
    ensures { IsTrue result ↔ HasBounded all.now.image.now (O.facts all.now.owners.now) 0x06 row }
{
    let index = all.image.tables().cell(0x06, row, 4);
    all.is_declared_method(index)
}

/// Whether the signature of a property is in bounds.
#[tactic(auto, unfolding(metadata_tables::specs::Schema::schema))]
pub(crate) fn meets_property<O: Owners>(all: &Judgements<'_, '_, O>, row: u32) -> bool
    requires { HasRow all.now.image.now 0x17 row }
    ensures { IsTrue result ↔ HasBounded all.now.image.now (O.facts all.now.owners.now) 0x17 row }
{
    let index = all.image.tables().cell(0x17, row, 2);
    all.is_property(index)
}
