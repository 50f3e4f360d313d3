//! The sizes of a source's classes in data, by their paths (ECMA-335 II.10.7, II.16.3, II.22.8).

ghost use Rattle.std.specs.Prelude.{◌≡◌, ◌∷◌, [], IfOk, map};
ghost use Rattle.elaborate.specs.KnownSizes.{known_size};
ghost use Rattle.elaborate.specs.Standing.{stands_outside};
ghost use Rattle.ilasm_grammar.specs.declared.productions.TheConstants.{MEMBER_SIZE};
ghost use Rattle.lower_members.specs.ClassSizes.{AreSizes};
ghost use Rattle.source_flags.specs.InRange.{AllInRange};
ghost use Rattle.source_model.specs.Forest.{parts};
ghost use Rattle.source_model.specs.Source.{Source};
ghost use Rattle.source_nodes.specs.Readers.{Reads};
ghost use Rattle.source_nodes.specs.Walk.{IsForest};

use check_data::declared_sizes::collect_sizes;
use check_names::class_rules::collect_classes;
use il_base::{Items, NoMemory};
use lower_members::class_sizes::ClassSizes;
use source_nodes::reader::Reader;
use source_syntax::class_paths::ClassPaths;
use std::alloc::Global;

/// The sizes of the classes of a source, from whether a class states one.
pub fn read_sizes(alloc: Global, reader: &Reader, some: bool) -> Result<ClassSizes, NoMemory>
    requires { IsForest reader.now.nodes.now }
    ensures { (s : Source) → Reads reader.now s → AllInRange s s.tree → some ≡ stands_outside MEMBER_SIZE s.tree → IfOk result (λ sizes. AreSizes s sizes) }
{
    if some {
        let sizes = stated_sizes(alloc, reader)?;
        Ok(sizes)
    } else {
        Ok(no_sizes(alloc))
    }
}

// What a source has in which no class states a size.
fn no_sizes(alloc: Global) -> ClassSizes
    ensures { (s : Source) → parts (MEMBER_SIZE ∷ []) s.tree ≡ [] → AreSizes s result }
{
    let sizes = Items::new(alloc);
    ClassSizes {
        paths: ClassPaths::new(alloc),
        sizes,
    }
}

// What any source has.
fn stated_sizes(alloc: Global, reader: &Reader) -> Result<ClassSizes, NoMemory>
    requires { IsForest reader.now.nodes.now }
    ensures { (s : Source) → Reads reader.now s → AllInRange s s.tree → IfOk result (λ sizes. AreSizes s sizes) }
{
    let classes = collect_classes(alloc, reader)?;
    let asked = collect_sizes(alloc, reader, &classes)?;
    let sizes = known_of(alloc, asked.as_slice())?;
    Ok(ClassSizes {
        paths: classes.paths,
        sizes,
    })
}

// The sizes that are known.
fn known_of(alloc: Global, asked: &[Option<Option<u32>>]) -> Result<Items<Option<u32>>, NoMemory>
    ensures { IfOk result (λ sizes. sizes ≡ map known_size asked.now) }
{
    let mut sizes = Items::with_capacity(alloc, asked.len())?;
    for size in asked {
        sizes.push(known_size(*size))?;
    }
    Ok(sizes)
}

fn known_size(size: Option<Option<u32>>) -> Option<u32>
    ensures { result ≡ known_size size }
{
    match size {
        Some(known) => known,
        None => None,
    }
}
