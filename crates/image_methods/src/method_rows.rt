ghost use Rattle.std.specs.Prelude.{◌≡◌, ◌<◌, ◌≤◌, ◌+◌, ◌^◌, ◌↔◌, ℕ, IfOk, IsTrue};
ghost use Rattle.std.specs.List.{AllZip, range_with_len};
ghost use Rattle.image_methods.specs.Overriders.{AreOverriders};
ghost use Rattle.image_model.specs.Reading.{IsMethod, IsParam};
ghost use Rattle.image_model.specs.Rows.{HasRow, params_of, token_of};
ghost use Rattle.image_source.specs.Names.{names_of};
ghost use Rattle.image_source.specs.Ready.{IsReady};
ghost use Rattle.pe_layout.specs.CliHeader.{entry_token_of};

use crate::override_rows::overrides;
use assembly_tree::{Method, Methods, Params};
use il_base::NoMemory;
use image_attributes::{attributes, generics};
use image_fields::params;
use image_source::{Source, body, method_signature};
use image_streams::Image;
use row_chains::Chains;
use row_groups::{Owners, Rows};
use row_parts::{Part, number_of, read_all, run_rows, seven, text_of};
use std::alloc::Global;

/// Methods that stand side by side, in row order (II.22.26).
pub fn methods(
    alloc: Global,
    source: &Source<'_, '_>,
    chains: &Chains<'_>,
    rows: Rows,
) -> Result<Methods, NoMemory>
    requires few { rows.first + rows.count ≤ 2 ^ 32 }
    requires there { (k : ℕ) → k < rows.count → HasRow source.now.image.now 0x06 (rows.first + k) }
    requires chains { AreOverriders source.now.image.now chains.now }
    requires ready { IsReady source.now.image.now source.now.kept.now source.now.sizes.now }
    ensures { IfOk result (AllZip (IsMethod source.now.image.now (names_of source.now.kept.now)) (range_with_len rows.first rows.count)) }
{
    read_all(alloc, &MethodRows { source, chains }, rows)
}

/// Rows of MethodDef.
#[derive(Drop)]
struct MethodRows<'r, 's, 'o, 'a> {
    source: &'r Source<'s, 'a>,
    chains: &'r Chains<'o>,
}

impl<'r, 's, 'o, 'a> Part<Method> for MethodRows<'r, 's, 'o, 'a> {
    ghost use Rattle.image_methods.specs.Overriders.{AreOverriders};
    ghost use Rattle.image_model.specs.Reading.{IsMethod};
    ghost use Rattle.image_model.specs.Rows.{HasRow};
    ghost use Rattle.image_source.specs.Names.{names_of};
    ghost use Rattle.image_source.specs.Ready.{IsReady};

    ghost there = { λ it row. HasRow it.source.now.image.now 0x06 row × AreOverriders it.source.now.image.now it.chains.now × IsReady it.source.now.image.now it.source.now.kept.now it.source.now.sizes.now };

    ghost gives = { λ it row method. IsMethod it.source.now.image.now (names_of it.source.now.kept.now) row method };

    fn read(&self, alloc: Global, row: u32) -> Result<Method, NoMemory> {
        method(alloc, self.source, self.chains, row)
    }
}

/// The runs of params, by their methods.
const PARAMS: Owners = Owners {
    table: 0x06,
    column: 5,
    members: 0x08,
};

/// A method.
#[tactic(auto, unfolding(metadata_tables::specs::Schema::schema))]
fn method(
    alloc: Global,
    source: &Source<'_, '_>,
    chains: &Chains<'_>,
    row: u32,
) -> Result<Method, NoMemory>
    requires there { HasRow source.now.image.now 0x06 row }
    requires chains { AreOverriders source.now.image.now chains.now }
    requires ready { IsReady source.now.image.now source.now.kept.now source.now.sizes.now }
    ensures { IfOk result (IsMethod source.now.image.now (names_of source.now.kept.now) row) }
{
    let impl_flags = number_of(source.image, 0x06, row, 1);
    let flags = number_of(source.image, 0x06, row, 2);
    let entry = is_entry(source.image, row);
    let (name, sig, generics, params, overrides, body, attributes) = seven(
        text_of(alloc, source.image, 0x06, row, 3),
        method_signature(alloc, source, row),
        generics(alloc, source, u64::from(row) * 2 + 1),
        method_params(alloc, source, row),
        overrides(alloc, source, chains, row),
        body(alloc, source, row),
        attributes(alloc, source, u64::from(row) * 32),
    )?;
    Ok(Method {
        name,
        flags,
        impl_flags,
        sig,
        generics,
        params,
        overrides,
        entry,
        body,
        attributes,
    })
}

/// The params of a method.
#[tactic(auto, unfolding(metadata_tables::specs::Schema::schema))]
fn method_params(alloc: Global, source: &Source<'_, '_>, row: u32) -> Result<Params, NoMemory>
    requires there { HasRow source.now.image.now 0x06 row }
    requires ready { IsReady source.now.image.now source.now.kept.now source.now.sizes.now }
    ensures { IfOk result (AllZip (IsParam source.now.image.now (names_of source.now.kept.now)) (params_of source.now.image.now row)) }
{
    let rows = run_rows(source.image, PARAMS, row);
    params(alloc, source, rows)
}

/// Whether the program starts at a method.
fn is_entry(image: &Image<'_>, row: u32) -> bool
    ensures { IsTrue result ↔ (entry_token_of image.now ≡ token_of 0x06 row) }
{
    u64::from(image.entry_token()) == 0x0600_0000 + u64::from(row)
}
