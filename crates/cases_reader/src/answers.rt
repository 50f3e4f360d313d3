//! What is printed of an image.

ghost use Rattle.std.specs.Prelude.{◌≡◌, true};
ghost use Rattle.assembly_tree.specs.WellFormed.{is_well_formed};

use crate::counts::Counts;
use crate::fault::Fault;
use crate::written::image_of;
use assembly_tree::{Assembly, weight};
use il_base::Bytes;
use image_model::Place;
use image_reader::{ImageFault, read};

/// The greatest length of an image that is looked at.
const MAX_IMAGE: usize = 1 << 26;

/// Prints what an image reads as, or the first demand that it fails. It answers the image that its assembly is written as; that of
/// the whole image is given for a change of it.
pub fn show(
    rt: &HostRuntime,
    name: &str,
    image: &[u8],
    whole: Option<&Bytes>,
) -> Result<Option<Bytes>, Fault> {
    if image.len() > MAX_IMAGE {
        return Err(Fault::Line);
    }
    match read(rt.alloc(), image) {
        Ok(assembly) => Ok(Some(show_assembly(rt, name, &assembly, whole)?)),
        Err(ImageFault::Bad { rule, at }) => {
            show_fault(rt, name, rule, at)?;
            Ok(None)
        }
        Err(ImageFault::NoMemory) => Err(Fault::NoMemory),
    }
}

fn show_assembly(
    rt: &HostRuntime,
    name: &str,
    assembly: &Assembly,
    whole: Option<&Bytes>,
) -> Result<Bytes, Fault>
    requires { is_well_formed assembly.now ≡ true }
{
    let written = image_of(rt.alloc(), assembly)?;
    let same = likeness(&written, whole);
    let counts = Counts::of(assembly);
    let (types, methods, fields) = (counts.types, counts.methods, counts.fields);
    let weight = weight(assembly);
    print!(rt; "{name}: reads{same}, weight {weight}, ")?;
    println!(rt; "types {types}, methods {methods}, fields {fields}")?;
    Ok(written)
}

/// Whether two assemblies are one, by the images that they are written as.
fn likeness(written: &Bytes, whole: Option<&Bytes>) -> &'static str {
    match whole {
        None => "",
        Some(other) if written.as_slice() == other.as_slice() => " the same",
        Some(_) => " as another",
    }
}

fn show_fault(rt: &HostRuntime, name: &str, rule: u8, at: Place) -> Result<(), Fault> {
    match at {
        Place::Byte(at) => println!(rt; "{name}: I{rule} at byte {at}")?,
        Place::Row { table, row } => println!(rt;
            "{name}: I{rule} at table {table:02X} row {row}"
        )?,
        Place::Whole => println!(rt; "{name}: I{rule} at the whole")?,
    }
    Ok(())
}
