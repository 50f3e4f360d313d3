ghost use Rattle.std.specs.Prelude.{◌≡◌, ◌<◌, ◌≤◌, ◌+◌, ◌*◌, ℕ, IfOk};
ghost use Rattle.std.specs.List.{AllZip};
ghost use Rattle.image_methods.specs.Overriders.{AreOverriders};
ghost use Rattle.image_model.specs.Columns.{override_body, override_declaration};
ghost use Rattle.image_model.specs.Members.{OverridesInClass};
ghost use Rattle.image_model.specs.Reading.{MethodIs, overrides_of};
ghost use Rattle.image_model.specs.Rows.{HasRow};
ghost use Rattle.image_source.specs.Names.{names_of};
ghost use Rattle.image_source.specs.Ready.{IsReady};

use il_base::{Items, NoMemory, Numbers};
use image_source::{Source, method};
use image_streams::Image;
use metadata_tables::{Coded, unpack_coded};
use row_chains::Chains;
use std::alloc::Global;
use type_terms::{MethodRef, MethodRefs};

/// For each row of MethodImpl, counted from 1, the row of the method that is its body, where all bodies are methods of the image.
#[tactic(auto, unfolding(metadata_tables::specs::Schema::schema))]
pub fn overriders(alloc: Global, image: &Image<'_>) -> Result<Numbers, NoMemory>
    requires { (row : ℕ) → HasRow image.now 0x19 row → OverridesInClass image.now row }
    ensures { IfOk result (λ bodies. AreOverriders image.now bodies) }
{
    let mut bodies = Items::one(alloc, 0)?;
    for row in 0..image.tables().rows(0x19) {
        bodies.push(overrider(image, row + 1))?;
    }
    Ok(bodies)
}

/// The method that is the body of a row of MethodImpl.
#[tactic(auto, unfolding(metadata_tables::specs::Schema::schema))]
fn overrider(image: &Image<'_>, row: u32) -> u32
    requires there { HasRow image.now 0x19 row }
    requires own { OverridesInClass image.now row }
    ensures { override_body image.now row ≡ result * 2 }
{
    match unpack_coded(Coded::MethodDefOrRef, image.tables().cell(0x19, row, 1)) {
        Some(at) => at.1,
        None => unreachable!(),
    }
}

/// What a method overrides, in row order (II.22.27).
pub(crate) fn overrides(
    alloc: Global,
    source: &Source<'_, '_>,
    chains: &Chains<'_>,
    row: u32,
) -> Result<MethodRefs, NoMemory>
    requires chains { AreOverriders source.now.image.now chains.now }
    requires ready { IsReady source.now.image.now source.now.kept.now source.now.sizes.now }
    ensures { IfOk result (AllZip (λ k. MethodIs (names_of source.now.kept.now) (override_declaration source.now.image.now k)) (overrides_of source.now.image.now row)) }
{
    let mut all = Items::new(alloc);
    let mut at = chains.first(row);
    while at != 0 {
        let declared = declaration(alloc, source, at)?;
        all.push(declared)?;
        at = chains.next(at);
    }
    Ok(all)
}

/// The method that a row of MethodImpl overrides.
#[tactic(auto, unfolding(metadata_tables::specs::Schema::schema))]
fn declaration(alloc: Global, source: &Source<'_, '_>, row: u32) -> Result<MethodRef, NoMemory>
    requires there { HasRow source.now.image.now 0x19 row }
    requires ready { IsReady source.now.image.now source.now.kept.now source.now.sizes.now }
    ensures { IfOk result (MethodIs (names_of source.now.kept.now) (override_declaration source.now.image.now row)) }
{
    let value = source.image.tables().cell(0x19, row, 2);
    method(alloc, source, Coded::MethodDefOrRef, value)
}
