//! What an assembly says of itself, and the assemblies that it names.

use crate::outline::items::{push_bytes, push_flags, push_number};
use crate::outline::members::push_attributes;
use assembly_tree::{Assembly, ExternAssembly, Manifest};
use il_base::NoMemory;

/// The manifest and the externs.
pub fn push_manifest(out: &mut String, a: &Assembly) -> Result<(), NoMemory> {
    push_assembly(out, &a.manifest)?;
    push_headers(out, &a.manifest)?;
    for named in a.externs.as_slice() {
        push_extern(out, named)?;
    }
    Ok(())
}

fn push_version(out: &mut String, version: [u16; 4]) -> Result<(), NoMemory> {
    for part in version {
        push_number(out, " ", u64::from(part))?;
    }
    Ok(())
}

// A line for the assembly, and its attributes.
fn push_assembly(out: &mut String, of: &Manifest) -> Result<(), NoMemory> {
    push_flags(out, "assembly ", of.flags)?;
    out.push(' ')?;
    out.push_str(of.name.as_str())?;
    push_version(out, of.version)?;
    push_bytes(out, " key ", of.key.as_slice())?;
    push_flags(out, " hash ", of.hash)?;
    out.push_str(" culture ")?;
    out.push_str(of.culture.as_str())?;
    out.push('\n')?;
    push_attributes(out, &of.attributes)
}

// A line for the module and the numbers of its headers, and its attributes.
fn push_headers(out: &mut String, of: &Manifest) -> Result<(), NoMemory> {
    out.push_str("module ")?;
    out.push_str(of.module.as_str())?;
    push_flags(out, " base ", of.image_base)?;
    push_flags(out, " alignment ", of.file_alignment)?;
    push_flags(out, " stack ", of.stack_reserve)?;
    push_flags(out, " subsystem ", u32::from(of.subsystem))?;
    push_flags(out, " corflags ", of.cor_flags)?;
    out.push('\n')?;
    push_attributes(out, &of.module_attributes)
}

fn push_extern(out: &mut String, of: &ExternAssembly) -> Result<(), NoMemory> {
    push_flags(out, "extern ", of.flags)?;
    out.push(' ')?;
    out.push_str(of.name.as_str())?;
    push_version(out, of.version)?;
    push_bytes(out, " key ", of.key.as_slice())?;
    push_bytes(out, " hash ", of.hash.as_slice())?;
    out.push_str(" culture ")?;
    out.push_str(of.culture.as_str())?;
    out.push('\n')?;
    Ok(())
}
