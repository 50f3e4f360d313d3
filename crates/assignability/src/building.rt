//! A world from an image and its references.
ghost use Rattle.std.specs.Prelude.{◌≡◌, [], ◌<◌, ◌≤◌, ℕ, length, slice_get, IfErr, IfOk, IfSome, Some};
ghost use Rattle.std.specs.List.{All};
ghost use Rattle.type_hierarchy.specs.Scopes.{sources, Sources};
ghost use Rattle.type_order.specs.Worlds.{IsFit, IsWorldOf};
ghost use Rattle.assignability.specs.Worlds.{IsFaultAt, IsFaultOf, IsFirstOf, IsRead};

use assembly_tree::Assembly;
use il_lists::{Copies, Items, NoMemory, Numbers};
use std::alloc::Global;
use type_hierarchy::tables::Tables;
use type_order::types::World;
use type_tables::cyclic::first_cyclic;
use type_tables::filling::{fill, value_types};
use type_tables::members::Assemblies;
use type_tables::places::read_places;
use type_tables::scopes::read_scopes;
use type_tables::stepping::all_steps;
use type_terms::{Scope, TypeName};

/// Why there is no world.
#[derive(Drop)]
pub enum WorldFault {
    /// The type `at` of an assembly is its own ancestor (ECMA-335 I.8.9.9, II.10.1), and none before it is. The assembly 0 is
    /// the image, and k the kth reference; `at` has the scope `Here`.
    Cyclic { assembly: u32, at: TypeName },
    /// There was no memory.
    NoMemory,
}

/// What an image and its references, at most eight, say of types (ECMA-335 I.8.7). Each of them is well formed, and its
/// weight at most 2^26.
///
/// # Errors
///
/// `Cyclic` names the first type that is its own ancestor: the first of the image in preorder, else of the first reference
/// that has one.
pub fn world(alloc: Global, a: &Assembly, references: &Assemblies) -> Result<World, WorldFault>
    requires image { IsFit a.now }
    requires references { All IsFit references.now }
    requires count { length references.now ≤ 8 }
    ensures world { IfOk result (λ w. IsWorldOf (sources a.now references.now) w) }
    ensures fault { IfErr result (λ e. IsFaultOf (sources a.now references.now) e) }
{
    match read_assemblies(alloc, a, references) {
        Err(_) => Err(WorldFault::NoMemory),
        Ok(read) => world_of(alloc, read),
    }
}

/// What is read of the assemblies of a world.
#[derive(Drop)]
pub struct Read {
    pub tables: Tables,
    /// The numbers of the assemblies that count: the image is 0, and references count from 1.
    pub numbers: Numbers,
    /// For each declared type the place of its assembly among those.
    pub members: Items<usize>,
}

/// Reads the assemblies of a world.
fn read_assemblies(alloc: Global, a: &Assembly, references: &Assemblies) -> Result<Read, NoMemory>
    requires image { IsFit a.now }
    requires references { All IsFit references.now }
    requires count { length references.now ≤ 8 }
    ensures { IfOk result (λ r. IsRead (sources a.now references.now) r) }
{
    let scopes = read_scopes(alloc, a, references)?;
    let places = read_places(alloc, a, references, &scopes)?;
    let members = Items::from_slice(alloc, places.members.as_slice())?;
    let values = value_types(alloc, a, references, &scopes, &places)?;
    let tables = fill(alloc, values, &scopes, places)?;
    let numbers = scopes.into_numbers();
    Ok(Read {
        tables,
        numbers,
        members,
    })
}

/// The world of what was read, unless a type is its own ancestor.
fn world_of(alloc: Global, read: Read) -> Result<World, WorldFault>
    requires paired { length read.tables.names ≡ length read.tables.entries }
    requires aligned { length read.members ≡ length read.tables.names }
    requires within { (k at : ℕ) → slice_get read.members k ≡ Some at → at < length read.numbers }
    ensures world { (s : Sources) → IsRead s read → IfOk result (λ w. IsWorldOf s w) }
    ensures fault { (s : Sources) → IsRead s read → IfErr result (λ e. IsFaultOf s e) }
{
    match first_of(alloc, &read.tables) {
        Err(_) => Err(WorldFault::NoMemory),
        Ok(Some(place)) => Err(fault_at(alloc, &read, place)),
        Ok(None) => Ok(world_over(alloc, read)),
    }
}

/// The world of the tables that were read.
fn world_over(alloc: Global, read: Read) -> World
    requires { length read.tables.names ≡ length read.tables.entries }
    ensures nodes { result.nodes ≡ [] }
    ensures tables { result.tables ≡ read.tables }
{
    let Read { tables, .. } = read;
    World::over(alloc, tables)
}

/// The place of the first type that is its own ancestor.
fn first_of(alloc: Global, tables: &Tables) -> Result<Option<usize>, NoMemory>
    requires { length tables.now.names ≡ length tables.now.entries }
    ensures is { IfOk result (λ first. IsFirstOf tables.now first) }
    ensures within { IfOk result (λ first. IfSome first (λ k. k < length tables.now.names)) }
{
    let steps = all_steps(alloc, tables)?;
    first_cyclic(alloc, &steps)
}

/// The type at a place as a fault.
fn fault_at(alloc: Global, read: &Read, place: usize) -> WorldFault
    requires low { place < length read.now.tables.names }
    requires aligned { length read.now.members ≡ length read.now.tables.names }
    requires within { (k at : ℕ) → slice_get read.now.members k ≡ Some at → at < length read.now.numbers }
    ensures { IsFaultAt read.now place result }
{
    let name = read.tables.names.at(place);
    let assembly = *read.numbers.at(*read.members.at(place));
    match name.path.copy(alloc) {
        Err(_) => WorldFault::NoMemory,
        Ok(path) => WorldFault::Cyclic {
            assembly,
            at: TypeName {
                scope: Scope::Here,
                path,
            },
        },
    }
}
