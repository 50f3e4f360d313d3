//! The rows of the module, of the assembly, and of the assemblies that it names (ECMA-335 II.22.2, II.22.5,
//! II.22.30).
ghost use Rattle.std.specs.Prelude.{◌≡◌, ◌+◌, ◌-◌, ◌^◌, ◌<◌, ◌≤◌, ◌∷◌, [], length, sum_by, OnOk};
ghost use Rattle.std.specs.List.{AllByRecursion};
ghost use Rattle.metadata_tables.specs.Encoding.{rows_in, IsRowOf};
ghost use Rattle.image_members.specs.ManifestRows.{assembly_cells, extern_cells, IsModuleRow, IsAssemblyRow, IsExternRow, module_bytes, assembly_bytes, extern_bytes, IsPlainManifest, IsPlainExtern};
ghost use Rattle.image_members.specs.Pushing.{Pushes};
ghost use Rattle.image_tokens.specs.References.{size, AreKnown};

use assembly_tree::{ExternAssembly, Manifest};
use il_base::NoMemory;
use image_tokens::blobs::refer_blob;
use image_tokens::members::refer_text;
use image_tokens::references::References;
use image_tokens::tokens::{ASSEMBLY, ASSEMBLY_REF, MODULE};
use metadata_tables::{Rows, row_of_columns};

/// Adds the row of Module, whose identifier is the first of the heap of identifiers.
pub fn push_module<'a>(
    refs: &mut References<'a>,
    rows: &mut Rows,
    m: &Manifest,
) -> Result<(), NoMemory>
    requires known { AreKnown refs.old }
    requires plain { IsPlainManifest m.now }
    requires few { rows_in rows.old 0x00 < 2 ^ 24 - 1 }
    requires room { size refs.old + module_bytes m.now ≤ 2 ^ 26 }
    ensures { OnOk result (Pushes 0x00 IsModuleRow module_bytes (m.now ∷ []) refs.old refs.new rows.old rows.new) }
{
    row_of_columns();
    let name = refer_text(refs, &m.module)?;
    rows.push(MODULE, &[0, name, 1, 0, 0])?;
    Ok(())
}

/// Adds the row of Assembly.
pub fn push_assembly<'a>(
    refs: &mut References<'a>,
    rows: &mut Rows,
    m: &Manifest,
) -> Result<(), NoMemory>
    requires known { AreKnown refs.old }
    requires plain { IsPlainManifest m.now }
    requires few { rows_in rows.old 0x20 < 2 ^ 24 - 1 }
    requires room { size refs.old + assembly_bytes m.now ≤ 2 ^ 26 }
    ensures { OnOk result (Pushes 0x20 IsAssemblyRow assembly_bytes (m.now ∷ []) refs.old refs.new rows.old rows.new) }
{
    let key = refer_blob(refs, m.key.as_slice())?;
    let name = refer_text(refs, &m.name)?;
    let culture = refer_text(refs, &m.culture)?;
    let cells = assembly_cells(m.hash, m.version, m.flags, key, name, culture);
    rows.push(ASSEMBLY, &cells)?;
    Ok(())
}

/// The cells of the row of Assembly; the last three are indexes into the heaps.
fn assembly_cells(
    hash: u32,
    version: [u16; 4],
    flags: u32,
    key: u32,
    name: u32,
    culture: u32,
) -> [u32; 9]
    ensures cells { result ≡ assembly_cells hash version flags key name culture }
    ensures row { IsRowOf 0x20 result }
{
    row_of_columns();
    [
        hash,
        u32::from(version[0]),
        u32::from(version[1]),
        u32::from(version[2]),
        u32::from(version[3]),
        flags,
        key,
        name,
        culture,
    ]
}

/// Adds a row of AssemblyRef for each assembly that is named; that of item k has the number k + 1 where
/// there was none before.
pub fn push_externs<'a>(
    refs: &mut References<'a>,
    rows: &mut Rows,
    externs: &[ExternAssembly],
) -> Result<(), NoMemory>
    requires known { AreKnown refs.old }
    requires plain { AllByRecursion IsPlainExtern externs.now }
    requires few { rows_in rows.old 0x23 + length externs.now < 2 ^ 24 }
    requires room { size refs.old + sum_by extern_bytes externs.now ≤ 2 ^ 26 }
    ensures { OnOk result (Pushes 0x23 IsExternRow extern_bytes externs.now refs.old refs.new rows.old rows.new) }
{
    for named in externs {
        push_extern(refs, rows, named)?;
    }
    Ok(())
}

/// Adds the row of an assembly that is named.
fn push_extern<'a>(
    refs: &mut References<'a>,
    rows: &mut Rows,
    named: &ExternAssembly,
) -> Result<(), NoMemory>
    requires known { AreKnown refs.old }
    requires plain { IsPlainExtern named.now }
    requires few { rows_in rows.old 0x23 < 2 ^ 24 - 1 }
    requires room { size refs.old + extern_bytes named.now ≤ 2 ^ 26 }
    ensures { OnOk result (Pushes 0x23 IsExternRow extern_bytes (named.now ∷ []) refs.old refs.new rows.old rows.new) }
{
    let key = refer_blob(refs, named.key.as_slice())?;
    let name = refer_text(refs, &named.name)?;
    let culture = refer_text(refs, &named.culture)?;
    let hash = refer_blob(refs, named.hash.as_slice())?;
    let cells = extern_cells(named.version, named.flags, key, name, culture, hash);
    rows.push(ASSEMBLY_REF, &cells)?;
    Ok(())
}

/// The cells of a row of AssemblyRef; the last four are indexes into the heaps.
fn extern_cells(
    version: [u16; 4],
    flags: u32,
    key: u32,
    name: u32,
    culture: u32,
    hash: u32,
) -> [u32; 9]
    ensures cells { result ≡ extern_cells version flags key name culture hash }
    ensures row { IsRowOf 0x23 result }
{
    row_of_columns();
    [
        u32::from(version[0]),
        u32::from(version[1]),
        u32::from(version[2]),
        u32::from(version[3]),
        flags,
        key,
        name,
        culture,
        hash,
    ]
}
