//! The rows of Module, Assembly and AssemblyRef (ECMA-335 II.22.2, II.22.5, II.22.30).
ghost use Rattle.std.specs.Prelude.{◌+◌, ◌^◌, ◌<◌, ◌≤◌, length, OnOk};
ghost use Rattle.std.specs.List.{AllByRecursion};
ghost use Rattle.image_tokens.specs.References.{size, AreKnown};
ghost use Rattle.image_rows.specs.Filled.{HoldsManifest};
ghost use Rattle.image_members.specs.ManifestRows.{IsPlainManifest, IsPlainExtern};
ghost use Rattle.image_tables.specs.Filling.{Fills};
ghost use Rattle.image_tables.specs.Parts.{LacksFrom};
ghost use Rattle.laws_tree_weights.specs.ImageBytes.{manifest_bytes};

use assembly_tree::Assembly;
use il_base::NoMemory;
use image_rows::manifest_rows::{push_assembly, push_externs, push_module};
use image_tokens::references::References;
use metadata_tables::Rows;

/// Adds the rows of the module, of the assembly, and of the assemblies that it names.
pub fn push_manifest<'a>(
    refs: &mut References<'a>,
    rows: &mut Rows,
    a: &Assembly,
) -> Result<(), NoMemory>
    requires known { AreKnown refs.old }
    requires plain { IsPlainManifest a.now.manifest }
    requires externs { AllByRecursion IsPlainExtern a.now.externs }
    requires few { length a.now.externs < 2 ^ 23 }
    requires lacks { LacksFrom 0 rows.old }
    requires room { size refs.old + manifest_bytes a.now ≤ 2 ^ 26 }
    ensures { OnOk result (Fills 0 (manifest_bytes a.now) (HoldsManifest a.now) refs.old refs.new rows.old rows.new) }
{
    push_module(refs, rows, &a.manifest)?;
    push_assembly(refs, rows, &a.manifest)?;
    push_externs(refs, rows, a.externs.as_slice())?;
    Ok(())
}
