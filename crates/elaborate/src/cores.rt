//! Where the root of all classes stands: in the first assembly with the name of a core library, or else in the source itself
//! (ECMA-335 II.10.1.2, IV.5).

ghost use Rattle.std.specs.Prelude.{◌≡◌, ◌<◌, ◌^◌, ◌∷◌, [], IfOk, bytes_eq, length, position};
ghost use Rattle.std.specs.List.{list_any};
ghost use Rattle.elaborate.specs.Cores.{is_core_assembly};
ghost use Rattle.source_model.specs.Classes.{core_names, core_scope, system_object};
ghost use Rattle.source_model.specs.Manifests.{extern_assemblies};
ghost use Rattle.source_model.specs.Names.{is_declared_path};
ghost use Rattle.source_model.specs.Source.{Source};
ghost use Rattle.source_nodes.specs.Readers.{Reads};
ghost use Rattle.source_nodes.specs.Walk.{IsForest};

use assembly_tree::ExternAssembly;
use check_names::class_rules::collect_classes;
use il_base::{NoMemory, Text};
use source_nodes::narrowing::word_of;
use source_nodes::reader::Reader;
use std::alloc::Global;
use type_terms::{Scope, TypeId};

/// Where `System.Object` stands, by the assemblies that the source names; None where it stands nowhere.
pub fn core_scope(
    alloc: Global,
    reader: &Reader,
    externs: &[ExternAssembly],
) -> Result<Option<Scope>, NoMemory>
    requires { IsForest reader.now.nodes.now }
    ensures { (s : Source) → Reads reader.now s → externs.now ≡ extern_assemblies s → length externs.now < 2 ^ 32 → IfOk result (λ scope. scope ≡ core_scope s) }
{
    if let Some(k) = first_core(externs) {
        return Ok(Some(Scope::Extern(word_of(k))));
    }
    if declares_object(alloc, reader)? {
        Ok(Some(Scope::Here))
    } else {
        Ok(None)
    }
}

// The number of the first assembly with the name of a core library.
fn first_core(externs: &[ExternAssembly]) -> Option<usize>
    ensures { result ≡ position is_core_assembly externs.now }
{
    externs
        .iter()
        .position(|named| is_core_name(named.name.as_bytes()))
}

fn is_core_name(name: &[u8]) -> bool
    ensures { result ≡ list_any (bytes_eq name.now) core_names }
{
    name == "mscorlib".as_bytes()
        || name == "System.Runtime".as_bytes()
        || name == "System.Private.CoreLib".as_bytes()
        || name == "netstandard".as_bytes()
}

// Whether the source itself declares `System.Object`.
fn declares_object(alloc: Global, reader: &Reader) -> Result<bool, NoMemory>
    requires { IsForest reader.now.nodes.now }
    ensures { (s : Source) → Reads reader.now s → IfOk result (λ b. b ≡ is_declared_path s system_object) }
{
    let classes = collect_classes(alloc, reader)?;
    let object = object_id(alloc)?;
    Ok(classes.paths.child(0, &object).is_some())
}

/// The name of the root of all classes.
pub fn object_id(alloc: Global) -> Result<TypeId, NoMemory>
    ensures { IfOk result (λ id. system_object ≡ id ∷ []) }
{
    let space = Text::new(alloc, "System")?;
    let name = Text::new(alloc, "Object")?;
    Ok(TypeId { space, name })
}
