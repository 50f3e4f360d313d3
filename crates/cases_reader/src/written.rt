//! Images that are written.

ghost use Rattle.std.specs.Prelude.{◌≡◌, true, IfOk, ◌≤◌, ◌^◌, length};
ghost use Rattle.assembly_tree.specs.WellFormed.{is_well_formed};

use crate::fault::Fault;
use assembly_tree::Assembly;
use il_base::Bytes;
use image_writer::write;
use pe_layout::Kind;
use source_assembly::assembly_of;
use std::alloc::Global;

/// The longest source that is looked at.
const LONGEST: usize = 1 << 27;

/// The identifier of the module of each image that is written.
const ID: [u8; 16] = [7; 16];

/// The image of a library that an assembly is written as.
pub fn image_of(alloc: Global, a: &Assembly) -> Result<Bytes, Fault>
    requires { is_well_formed a.now ≡ true }
{
    Ok(write(alloc, a, ID, Kind::Dll)?)
}

/// The image that a source is written as.
pub fn image_of_source(alloc: Global, source: &str) -> Result<Bytes, Fault> {
    if source.len() > LONGEST {
        return Err(Fault::Source);
    }
    let assembly = assembly_of(alloc, source.as_bytes())?;
    image_of(alloc, &assembly)
}
