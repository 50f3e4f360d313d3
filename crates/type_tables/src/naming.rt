//! What the names of assemblies mean in a world.
ghost use Rattle.std.specs.Prelude.{◌≡◌, ◌<◌, ◌^◌, ◌∷◌, ℕ, List, IfOk, IfSome, OnOk, length, map, position};
ghost use Rattle.std.specs.List.{list_any};
ghost use Rattle.type_terms.specs.declared.name.Scope.{Scope};
ghost use Rattle.type_terms.specs.declared.name.Scope.TheVariants.{Here};
ghost use Rattle.type_tables.specs.Entries.{IsEntries, IsNaming, extended};
ghost use Rattle.type_hierarchy.specs.Gathered.{scope_by};
ghost use Rattle.type_tables.specs.Members.{member, scope_seen};
ghost use Rattle.type_hierarchy.specs.Scopes.{sources, Sources, entry, extern_names, extern_or, extern_or_here, members, name_of, scope_of_name};
ghost use Rattle.type_hierarchy.specs.Names.{same_text, is_core_name};

use crate::entries::Entries;
use crate::members::{Assemblies, assembly_of};
use assembly_tree::Assembly;
use il_lists::{Copies, Items, NoMemory, Numbers, Text, Words};
use std::alloc::Global;
use type_hierarchy::meanings::Meanings;
use type_terms::Scope;

/// How names of assemblies are read in a world.
#[derive(Drop)]
pub struct Naming {
    /// The scope of the core.
    pub core: Scope,
    /// The image's name.
    pub image: Text,
    /// The names of the references that count.
    pub given: Words,
    pub entries: Entries,
}

impl Naming {
    /// What the name of an assembly means that is seen from the image or from a reference. An extern of the image whose
    /// name no reference has means `itself`. Takes no memory.
    pub fn scope_of(&self, from_image: bool, itself: Scope, name: &[u8]) -> Scope
        ensures { (s : Sources) → IsNaming s self.now → result ≡ scope_of_name s from_image itself name.now }
    {
        if is_core_name(name) {
            return self.core;
        }
        if name == self.image.as_bytes() {
            return Scope::Here;
        }
        if !from_image {
            return self.entry_or(itself, name);
        }
        if is_among(name, self.given.as_slice()) {
            self.entry_or(itself, name)
        } else {
            itself
        }
    }

    /// The first entry with that name, or else `itself`.
    fn entry_or(&self, itself: Scope, name: &[u8]) -> Scope
        ensures { (s : Sources) → IsNaming s self.now → result ≡ entry s itself name.now }
    {
        extern_or(itself, self.entries.place(name))
    }
}

fn extern_or(itself: Scope, place: Option<u32>) -> Scope
    ensures { result ≡ extern_or itself place }
{
    match place {
        Some(place) => Scope::Extern(place),
        None => itself,
    }
}

/// Whether a text is among these.
fn is_among(text: &[u8], texts: &[Text]) -> bool
    ensures { result ≡ list_any (same_text text.now) texts.now }
{
    for other in texts {
        if text == other.as_bytes() {
            return true;
        }
    }
    false
}

/// Whether an assembly of that name has the standard's own types.
fn is_core_name(name: &[u8]) -> bool
    ensures { result ≡ is_core_name name.now }
{
    name == "mscorlib".as_bytes()
        || name == "System.Runtime".as_bytes()
        || name == "System.Private.CoreLib".as_bytes()
        || name == "netstandard".as_bytes()
}

/// The first extern of the image with a core name, or else the image.
fn core_of(image: &Assembly) -> Scope
    requires { length image.now.externs < 2 ^ 32 }
    ensures { result ≡ extern_or_here (position is_core_name (extern_names image.now)) }
{
    match first_core(image) {
        Some(number) => Scope::Extern(number as u32),
        None => Scope::Here,
    }
}

/// The place of the first extern with a core name.
fn first_core(image: &Assembly) -> Option<usize>
    ensures first { result ≡ position (λ e. is_core_name e.name) image.now.externs }
    ensures within { IfSome result (λ k. k < length image.now.externs) }
{
    image
        .externs
        .as_slice()
        .iter()
        .position(|e| is_core_name(e.name.as_bytes()))
}

/// How names are read in the world of these assemblies, of which those with the numbers `numbers` count.
pub fn read_names(
    alloc: Global,
    image: &Assembly,
    references: &Assemblies,
    numbers: &Numbers,
) -> Result<Naming, NoMemory>
    requires externs { length image.now.externs < 2 ^ 32 }
    requires counted { let s = sources image.now references.now in map (member s) numbers.now ≡ members s }
    ensures { IfOk result (λ n. IsNaming (sources image.now references.now) n) }
{
    let core = core_of(image);
    let mut given = Items::new(alloc);
    let mut entries = Entries::new(alloc);
    for other in image.externs.as_slice() {
        entries.push(alloc, &other.name)?;
    }
    for number in &numbers.as_slice()[1..] {
        let reference = assembly_of(image, references, *number);
        let name = reference.manifest.name.copy(alloc)?;
        given.push(name)?;
        add_names(alloc, &image.manifest.name, reference, &mut entries)?;
    }
    let image = image.manifest.name.copy(alloc)?;
    Ok(Naming {
        core,
        image,
        given,
        entries,
    })
}

/// Adds entries for the names of a reference and of its externs, where they are new.
fn add_names(
    alloc: Global,
    image: &Text,
    reference: &Assembly,
    entries: &mut Entries,
) -> Result<(), NoMemory>
    ensures { OnOk result ((all : List (List ℕ)) → IsEntries entries.old all → IsEntries entries.new (extended image.now all (name_of reference.now ∷ extern_names reference.now))) }
{
    entries.push_new(alloc, image, &reference.manifest.name)?;
    for other in reference.externs.as_slice() {
        entries.push_new(alloc, image, &other.name)?;
    }
    Ok(())
}

/// What the scopes in an assembly of the world mean, which is the image or a reference.
pub fn meanings(
    alloc: Global,
    naming: &Naming,
    of: &Assembly,
    is_image: bool,
) -> Result<Meanings, NoMemory>
    requires { length of.now.externs < 2 ^ 32 }
    ensures { IfOk result (λ m. (s : Sources) → IsNaming s naming.now → (scope : Scope) → scope_by m scope ≡ scope_seen s is_image of.now scope) }
{
    let own = own_scope(naming, of, is_image);
    let mut externs = Items::with_capacity(alloc, of.externs.len())?;
    for (number, other) in of.externs.as_slice().iter().enumerate() {
        let itself = Scope::Extern(number as u32);
        externs.push(naming.scope_of(is_image, itself, other.name.as_bytes()))?;
    }
    Ok(Meanings { own, externs })
}

/// What an assembly itself is in the world.
fn own_scope(naming: &Naming, of: &Assembly, is_image: bool) -> Scope
    ensures { (s : Sources) → IsNaming s naming.now → result ≡ scope_seen s is_image of.now Here }
{
    if is_image {
        return Scope::Here;
    }
    naming.scope_of(false, Scope::Here, of.manifest.name.as_bytes())
}
