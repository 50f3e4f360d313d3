//! The rules on what a source declares twice (ECMA-335 II.5.4, II.6.2, II.6.3, II.10, II.15.4.1.2, II.16.3, II.22).

ghost use Rattle.std.specs.Prelude.{◌≡◌, ◌<◌, ◌^◌, IfOk, length};
ghost use Rattle.source_model.specs.DeclaredTwice.{entries_twice, manifests_twice};
ghost use Rattle.source_model.specs.Denotes.{broken_d};
ghost use Rattle.source_model.specs.Faults.{earliest};
ghost use Rattle.source_model.specs.Forest.{preorder};
ghost use Rattle.source_model.specs.Source.{Source};
ghost use Rattle.source_nodes.specs.Least.{least};
ghost use Rattle.source_nodes.specs.Readers.{Reads};
ghost use Rattle.source_nodes.specs.Walk.{IsForest};
ghost use Rattle.check_names.specs.Breaches.{any_broken};
ghost use Rattle.check_names.specs.Leasts.{AreTwice};
ghost use Rattle.check_source.specs.AllDeclared.{AreDeclarations};
ghost use Rattle.check_source.specs.Census.{IsCensus};
ghost use Rattle.check_source.specs.Passes.{KeepsPasses, broken_in_passes};

use crate::all_declared::Declarations;
use crate::census::Census;
use check_bodies::label_rules::label_twice;
use check_members::broken_signatures::signatures_of;
use check_members::member_rules::member_twice;
use check_names::firsts::{Twice, first_twice};
use check_names::merging::Breach;
use check_visitor::repeats::{entry_twice, manifest_twice};
use il_base::NoMemory;
use ilasm_grammar::productions::{ASSEMBLY_ASSEMBLY_ATTR_STAR, DECL_MODULE, ITEM_ENTRYPOINT};
use source_nodes::reader::Reader;
use source_syntax::name_lists::{assembly_again, label_again};
use std::alloc::Global;

/// The first rule of class D that a source breaks, where `found` is the least token at which a rule is broken that is asked in
/// the passes.
pub fn declared_twice(
    alloc: Global,
    reader: &Reader,
    declared: &Declarations,
    found: Option<u32>,
) -> Result<Option<Breach>, NoMemory>
    requires forest { IsForest reader.now.nodes.now }
    requires few { length reader.now.nodes.now < 2 ^ 32 }
    ensures { (s : Source) → Reads reader.now s → AreDeclarations s declared.now → found ≡ least (broken_in_passes s) →
        IfOk result (λ b. any_broken b ≡ earliest (broken_d s)) }
{
    let twice = twice(alloc, reader, declared, found)?;
    Ok(first_twice(&twice))
}

fn twice(
    alloc: Global,
    reader: &Reader,
    declared: &Declarations,
    found: Option<u32>,
) -> Result<Twice, NoMemory>
    requires forest { IsForest reader.now.nodes.now }
    requires few { length reader.now.nodes.now < 2 ^ 32 }
    ensures { (s : Source) → Reads reader.now s → AreDeclarations s declared.now → found ≡ least (broken_in_passes s) → IfOk result (AreTwice s) }
{
    match found {
        None => Ok(other_twice(reader, declared)),
        Some(_) => each_twice(alloc, reader, declared),
    }
}

// Where nothing is found in the passes.
fn other_twice(reader: &Reader, declared: &Declarations) -> Twice
    requires { IsForest reader.now.nodes.now }
    ensures { (s : Source) → Reads reader.now s → AreDeclarations s declared.now → KeepsPasses s → AreTwice s result }
{
    Twice {
        types: declared.classes.again,
        members: None,
        externs: assembly_again(&declared.externs),
        labels: None,
        entries: entry_again(reader, &declared.census),
        manifests: manifest_again(reader, &declared.census),
        data_labels: label_again(&declared.labels),
    }
}

fn each_twice(alloc: Global, reader: &Reader, declared: &Declarations) -> Result<Twice, NoMemory>
    requires forest { IsForest reader.now.nodes.now }
    requires few { length reader.now.nodes.now < 2 ^ 32 }
    ensures { (s : Source) → Reads reader.now s → AreDeclarations s declared.now → IfOk result (AreTwice s) }
{
    let rule = signatures_of(&declared.externs, &declared.own, &declared.classes);
    Ok(Twice {
        types: declared.classes.again,
        members: member_twice(&rule, alloc, reader, &declared.externs, &declared.own)?,
        externs: assembly_again(&declared.externs),
        labels: label_twice(alloc, reader)?,
        entries: entry_again(reader, &declared.census),
        manifests: manifest_again(reader, &declared.census),
        data_labels: label_again(&declared.labels),
    })
}

// The least `.entrypoint` after the first.
fn entry_again(reader: &Reader, census: &Census) -> Option<u32>
    requires { IsForest reader.now.nodes.now }
    ensures { (s : Source) → Reads reader.now s → IsCensus (preorder s.tree) census.now → result ≡ least (entries_twice s) }
{
    let entries = census.count(ITEM_ENTRYPOINT);
    if entries > 1 {
        return entry_twice(reader);
    }
    None
}

// The least name of a second `.assembly` or `.module`.
fn manifest_again(reader: &Reader, census: &Census) -> Option<u32>
    requires { IsForest reader.now.nodes.now }
    ensures { (s : Source) → Reads reader.now s → IsCensus (preorder s.tree) census.now → result ≡ least (manifests_twice s) }
{
    let assemblies = census.count(ASSEMBLY_ASSEMBLY_ATTR_STAR);
    let modules = census.count(DECL_MODULE);
    if assemblies > 1 {
        return manifest_twice(reader);
    }
    if modules > 1 {
        return manifest_twice(reader);
    }
    None
}
