ghost use Rattle.std.specs.Prelude.{◌≡◌, ◌<◌, ◌^◌, ℕ, IfOk, length};
ghost use Rattle.type_tables.specs.Entries.{IsNaming};
ghost use Rattle.type_tables.specs.Members.{AreMeanings, IsScopes, assembly_of};
ghost use Rattle.type_hierarchy.specs.Scopes.{sources};

use crate::members::{Assemblies, assembly_of, member_numbers};
use crate::naming::{Naming, meanings, read_names};
use assembly_tree::Assembly;
use il_lists::{Items, NoMemory, Numbers};
use std::alloc::Global;
use type_hierarchy::meanings::Meanings;
use type_terms::Scope;

/// The assemblies of a world that count, and what their scopes mean.
#[derive(Drop)]
pub struct Scopes {
    /// The scope of the core.
    pub core: Scope,
    /// The numbers of the assemblies: the image is 0, and references count from 1.
    pub numbers: Numbers,
    /// What the scopes in each mean.
    pub meanings: Items<Meanings>,
}

impl Scopes {
    /// The numbers of the assemblies.
    pub fn into_numbers(self) -> Numbers
        ensures { result ≡ self.numbers }
    {
        let Scopes { numbers, .. } = self;
        numbers
    }
}

/// What the scopes in an image and its references mean.
pub fn read_scopes(
    alloc: Global,
    image: &Assembly,
    references: &Assemblies,
) -> Result<Scopes, NoMemory>
    requires references { length references.now < 2 ^ 31 }
    requires externs { (n : ℕ) → length (assembly_of (sources image.now references.now) n).externs < 2 ^ 32 }
    ensures { IfOk result (λ z. IsScopes (sources image.now references.now) z) }
{
    let numbers = member_numbers(alloc, image, references)?;
    let naming = read_names(alloc, image, references, &numbers)?;
    let meanings = all_meanings(alloc, image, references, &naming, numbers.as_slice())?;
    Ok(Scopes {
        core: naming.core,
        numbers,
        meanings,
    })
}

/// What the scopes mean in each of the assemblies with these numbers.
fn all_meanings(
    alloc: Global,
    image: &Assembly,
    references: &Assemblies,
    naming: &Naming,
    numbers: &[u32],
) -> Result<Items<Meanings>, NoMemory>
    requires naming { IsNaming (sources image.now references.now) naming.now }
    requires externs { (n : ℕ) → length (assembly_of (sources image.now references.now) n).externs < 2 ^ 32 }
    ensures { IfOk result (λ ms. AreMeanings (sources image.now references.now) numbers.now ms) }
{
    let mut all = Items::with_capacity(alloc, numbers.len())?;
    for number in numbers {
        let of = assembly_of(image, references, *number);
        let means = meanings(alloc, naming, of, *number == 0)?;
        all.push(means)?;
    }
    Ok(all)
}
