//! The rules on what a source names and doesn't declare (ECMA-335 II.6.2, II.7.3, II.10.1.7, II.15.4.1, II.16.3, II.17, II.18).

ghost use Rattle.std.specs.Prelude.{◌≡◌, ◌<◌, ◌++◌, ◌^◌, IfOk, List, None, false, length};
ghost use Rattle.std.specs.List.{list_any};
ghost use Rattle.ilasm_grammar.specs.declared.tree.TreeNode.{TreeNode};
ghost use Rattle.check_members.specs.OwnMethods.{is_owner};
ghost use Rattle.source_model.specs.Denotes.{broken_n};
ghost use Rattle.source_model.specs.Faults.{earliest};
ghost use Rattle.source_model.specs.Forest.{preorder};
ghost use Rattle.source_model.specs.Nodes.{Node};
ghost use Rattle.source_model.specs.Source.{Source};
ghost use Rattle.source_model.specs.TypeRules.{breaks_signature, is_nothing};
ghost use Rattle.source_model.specs.Undeclared.{accessors_undeclared, objects_undeclared, scopes_undeclared};
ghost use Rattle.source_nodes.specs.Least.{least};
ghost use Rattle.source_syntax.specs.Namings.{AreNames};
ghost use Rattle.source_nodes.specs.Readers.{Reads};
ghost use Rattle.source_syntax.specs.declared.name_lists.Naming.TheVariants as naming;
ghost use Rattle.check_members.specs.BrokenSignatures.{part_broken};
ghost use Rattle.source_nodes.specs.Walk.{IsForest};
ghost use Rattle.check_names.specs.Breaches.{any_broken};
ghost use Rattle.check_names.specs.DeclaredClasses.{AreClasses};
ghost use Rattle.check_names.specs.Leasts.{AreUndeclared};
ghost use Rattle.check_source.specs.AllDeclared.{AreDeclarations};
ghost use Rattle.check_source.specs.Census.{IsCensus};
ghost use Rattle.check_source.specs.Passes.{KeepsPasses, broken_in_passes};

use crate::all_declared::Declarations;
use crate::census::Census;
use check_bodies::label_rules::label_undeclared;
use check_bodies::variable_rules::variable_undeclared;
use check_members::accessor_rules::accessor_undeclared;
use check_members::broken_signatures::{BrokenSignatures, signatures_of};
use check_names::class_rules::Classes;
use check_names::extern_rules::extern_undeclared;
use check_names::firsts::{Undeclared, first_undeclared};
use check_names::merging::Breach;
use check_names::named_types::type_undeclared;
use check_names::roots::object_undeclared;
use check_names::undeclared::{label_undeclared as data_undeclared, typar_undeclared};
use check_visitor::repeats::without_assembly;
use il_base::NoMemory;
use ilasm_grammar::productions::{EVENT, PROPERTY};
use source_nodes::reader::Reader;
use source_syntax::name_lists::Named;
use std::alloc::Global;

/// The first rule of class N that a source breaks, where `found` is the least token at which a rule is broken that is asked in
/// the passes.
pub fn not_declared(
    alloc: Global,
    reader: &Reader,
    declared: &Declarations,
    found: Option<u32>,
) -> Result<Option<Breach>, NoMemory>
    requires forest { IsForest reader.now.nodes.now }
    requires few { length reader.now.spans.now < 2 ^ 32 }
    requires few_nodes { length reader.now.nodes.now < 2 ^ 32 }
    ensures { (s : Source) → Reads reader.now s → AreDeclarations s declared.now → found ≡ least (broken_in_passes s) →
        IfOk result (λ b. any_broken b ≡ earliest (broken_n s)) }
{
    let undeclared = undeclared(alloc, reader, declared, found)?;
    Ok(first_undeclared(&undeclared))
}

fn undeclared(
    alloc: Global,
    reader: &Reader,
    declared: &Declarations,
    found: Option<u32>,
) -> Result<Undeclared, NoMemory>
    requires forest { IsForest reader.now.nodes.now }
    requires few { length reader.now.spans.now < 2 ^ 32 }
    requires few_nodes { length reader.now.nodes.now < 2 ^ 32 }
    ensures { (s : Source) → Reads reader.now s → AreDeclarations s declared.now → found ≡ least (broken_in_passes s) → IfOk result (AreUndeclared s) }
{
    match found {
        None => other_undeclared(alloc, reader, declared),
        Some(_) => each_undeclared(alloc, reader, declared),
    }
}

// Where nothing is found in the passes.
fn other_undeclared(
    alloc: Global,
    reader: &Reader,
    declared: &Declarations,
) -> Result<Undeclared, NoMemory>
    requires forest { IsForest reader.now.nodes.now }
    requires few { length reader.now.spans.now < 2 ^ 32 }
    requires few_nodes { length reader.now.nodes.now < 2 ^ 32 }
    ensures { (s : Source) → Reads reader.now s → AreDeclarations s declared.now → KeepsPasses s → IfOk result (AreUndeclared s) }
{
    let Declarations {
        externs,
        own,
        classes,
        census,
        ..
    } = declared;
    let rule = signatures_of(externs, own, classes);
    Ok(Undeclared {
        types: None,
        externs: object_alone(alloc, reader, classes)?,
        labels: None,
        variables: None,
        typars: None,
        accessors: accessor_absent(&rule, alloc, reader, externs, own, census)?,
        assembly: without_assembly(reader),
        data_labels: None,
    })
}

// The least name of a class that would have `System.Object` as its base where that stands nowhere; no name in brackets is at
// fault.
fn object_alone(alloc: Global, reader: &Reader, classes: &Classes) -> Result<Option<u32>, NoMemory>
    requires { IsForest reader.now.nodes.now }
    ensures { (s : Source) → Reads reader.now s → AreClasses s classes.now → None ≡ least (scopes_undeclared s) →
        IfOk result (λ k. k ≡ least (scopes_undeclared s ++ objects_undeclared s)) }
{
    let object = object_undeclared(alloc, reader, classes)?;
    Ok(object)
}

fn each_undeclared(
    alloc: Global,
    reader: &Reader,
    declared: &Declarations,
) -> Result<Undeclared, NoMemory>
    requires forest { IsForest reader.now.nodes.now }
    requires few { length reader.now.spans.now < 2 ^ 32 }
    requires few_nodes { length reader.now.nodes.now < 2 ^ 32 }
    ensures { (s : Source) → Reads reader.now s → AreDeclarations s declared.now → IfOk result (AreUndeclared s) }
{
    let Declarations {
        labels,
        externs,
        own,
        classes,
        census,
    } = declared;
    let rule = signatures_of(externs, own, classes);
    Ok(Undeclared {
        types: type_undeclared(alloc, reader, externs, own, classes)?,
        externs: extern_undeclared(alloc, reader, externs, own, classes)?,
        labels: label_undeclared(alloc, reader)?,
        variables: variable_undeclared(alloc, reader)?,
        typars: typar_undeclared(alloc, reader)?,
        accessors: accessor_absent(&rule, alloc, reader, externs, own, census)?,
        assembly: without_assembly(reader),
        data_labels: data_undeclared(alloc, reader, labels)?,
    })
}

// The least token of a directive that names an accessor which is no method of its class.
fn accessor_absent(
    rule: &BrokenSignatures,
    alloc: Global,
    reader: &Reader,
    externs: &Named,
    own: &Named,
    census: &Census,
) -> Result<Option<u32>, NoMemory>
    requires forest { IsForest reader.now.nodes.now }
    requires few { length reader.now.nodes.now < 2 ^ 32 }
    ensures { (s : Source) → Reads reader.now s → AreNames s naming.Assembly externs.now → AreNames s naming.Own own.now → IsCensus (preorder s.tree) census.now →
        ((n : Node) → is_nothing (part_broken rule.now.types.scopes.keys.now rule.now.types.scopes.own.now rule.now.types.classes.now s n) ≡ is_nothing (breaks_signature s n)) →
        IfOk result (λ k. k ≡ least (accessors_undeclared s)) }
{
    if !has_owners(census) {
        return Ok(None);
    }
    let absent = accessor_undeclared(rule, alloc, reader, externs, own)?;
    Ok(absent)
}

// Whether there is a property or an event.
fn has_owners(census: &Census) -> bool
    ensures { (nodes : List TreeNode) → IsCensus nodes census.now → result ≡ false → list_any is_owner nodes ≡ false }
{
    let properties = census.count(PROPERTY);
    let events = census.count(EVENT);
    if properties > 0 {
        return true;
    }
    if events > 0 {
        return true;
    }
    false
}
