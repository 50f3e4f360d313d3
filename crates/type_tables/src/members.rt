//! The assemblies of a world.
ghost use Rattle.std.specs.Prelude.{◌≡◌, ◌<◌, ◌^◌, IfOk, length, map};
ghost use Rattle.std.specs.List.{list_any};
ghost use Rattle.type_tables.specs.Members.{assembly_of, member};
ghost use Rattle.type_hierarchy.specs.Scopes.{sources, name_of, members};
ghost use Rattle.type_hierarchy.specs.Names.{same_text};

use assembly_tree::Assembly;
use il_lists::{Items, NoMemory, Numbers};
use std::alloc::Global;

/// Reference assemblies in order.
pub type Assemblies = Items<Assembly>;

/// The assembly of that number: the image is 0, and references count from 1.
pub fn assembly_of<'a>(image: &'a Assembly, references: &'a Assemblies, number: u32) -> &'a Assembly
    ensures { result.now ≡ assembly_of (sources image.now references.now) number }
{
    if number == 0 {
        return image;
    }
    match references.get(number as usize - 1) {
        Some(reference) => reference,
        None => image,
    }
}

/// The numbers of the image and of each reference whose name no assembly before it has.
pub fn member_numbers(
    alloc: Global,
    image: &Assembly,
    references: &Assemblies,
) -> Result<Numbers, NoMemory>
    requires { length references.now < 2 ^ 31 }
    ensures { let s = sources image.now references.now in IfOk result (λ ns. map (member s) ns ≡ members s) }
{
    let mut numbers = Items::new(alloc);
    numbers.push(0)?;
    for k in 0..references.len() as u32 {
        let name = references.at(k as usize).manifest.name.as_bytes();
        if !has_name(image, references, numbers.as_slice(), name) {
            numbers.push(k + 1)?;
        }
    }
    Ok(numbers)
}

/// Whether one of the assemblies with these numbers has that name.
fn has_name(image: &Assembly, references: &Assemblies, numbers: &[u32], name: &[u8]) -> bool
    ensures { let s = sources image.now references.now in result ≡ list_any (same_text name.now) (map (λ n. name_of (assembly_of s n)) numbers.now) }
{
    for number in numbers {
        if name
            == assembly_of(image, references, *number)
                .manifest
                .name
                .as_bytes()
        {
            return true;
        }
    }
    false
}
