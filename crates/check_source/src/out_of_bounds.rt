//! The rules on what is out of its bounds in a source (ECMA-335 II.15.4.1, II.19, II.22, II.23, III.1.7.2).

ghost use Rattle.std.specs.Prelude.{◌≡◌, ◌++◌, IfOk, None};
ghost use Rattle.std.specs.List.{list_any};
ghost use Rattle.source_model.specs.BodyFaults.{body_numbers_out_of_range};
ghost use Rattle.source_model.specs.Denotes.{broken_b};
ghost use Rattle.source_model.specs.Faults.{earliest};
ghost use Rattle.source_model.specs.Forest.{preorder};
ghost use Rattle.source_model.specs.OutOfRange.{numbers_out_of_range, types_too_deep};
ghost use Rattle.source_model.specs.Source.{Source};
ghost use Rattle.source_nodes.specs.Least.{least};
ghost use Rattle.source_nodes.specs.Readers.{Reads};
ghost use Rattle.source_nodes.specs.Walk.{IsForest};
ghost use Rattle.check_names.specs.Breaches.{any_broken};
ghost use Rattle.check_names.specs.Leasts.{AreUnbounded};
ghost use Rattle.check_data.specs.FieldFaults.{AreDataFaults};
ghost use Rattle.check_source.specs.AllDeclared.{AreDeclarations};
ghost use Rattle.check_source.specs.Census.{is_long};
ghost use Rattle.check_source.specs.Passes.{KeepsPasses, broken_in_passes};

use crate::all_declared::Declarations;
use crate::census::Census;
use check_bodies::body_numbers::body_number;
use check_bodies::branch_rules::branch_to_the_end;
use check_bodies::clause_rules::clause_backwards;
use check_bodies::short_branches::branch_too_far;
use check_data::mapped_fields::{DataFaults, data_faults};
use check_names::firsts::{Unbounded, first_unbounded};
use check_names::merging::Breach;
use check_names::nestings::nesting_too_deep;
use check_names::out_of_range::number_out_of_range;
use check_names::type_depths::type_too_deep;
use il_base::NoMemory;
use ilasm_grammar::productions::AT_NAME;
use source_nodes::least::sooner;
use source_nodes::reader::Reader;
use std::alloc::Global;

/// The first rule of class B that a source breaks, where `found` is the least token at which a rule is broken that is asked in
/// the passes.
pub fn out_of_bounds(
    alloc: Global,
    reader: &Reader,
    declared: &Declarations,
    found: Option<u32>,
) -> Result<Option<Breach>, NoMemory>
    requires { IsForest reader.now.nodes.now }
    ensures { (s : Source) → Reads reader.now s → AreDeclarations s declared.now → found ≡ least (broken_in_passes s) →
        IfOk result (λ b. any_broken b ≡ earliest (broken_b s)) }
{
    let unbounded = unbounded(alloc, reader, declared, found)?;
    Ok(first_unbounded(&unbounded))
}

fn unbounded(
    alloc: Global,
    reader: &Reader,
    declared: &Declarations,
    found: Option<u32>,
) -> Result<Unbounded, NoMemory>
    requires { IsForest reader.now.nodes.now }
    ensures { (s : Source) → Reads reader.now s → AreDeclarations s declared.now → found ≡ least (broken_in_passes s) → IfOk result (AreUnbounded s) }
{
    match found {
        None => other_unbounded(alloc, reader, declared),
        Some(_) => each_unbounded(alloc, reader, declared),
    }
}

// Where nothing is found in the passes.
fn other_unbounded(
    alloc: Global,
    reader: &Reader,
    declared: &Declarations,
) -> Result<Unbounded, NoMemory>
    requires { IsForest reader.now.nodes.now }
    ensures { (s : Source) → Reads reader.now s → AreDeclarations s declared.now → KeepsPasses s → IfOk result (AreUnbounded s) }
{
    let data = mapped_faults(alloc, reader, declared)?;
    Ok(Unbounded {
        numbers: None,
        branches: None,
        clauses: None,
        types: deep_type(reader, &declared.census),
        ends: None,
        nestings: None,
        short: data.short,
        without_size: data.without_size,
    })
}

fn each_unbounded(
    alloc: Global,
    reader: &Reader,
    declared: &Declarations,
) -> Result<Unbounded, NoMemory>
    requires { IsForest reader.now.nodes.now }
    ensures { (s : Source) → Reads reader.now s → AreDeclarations s declared.now → IfOk result (AreUnbounded s) }
{
    let data = mapped_faults(alloc, reader, declared)?;
    Ok(Unbounded {
        numbers: any_number(alloc, reader)?,
        branches: branch_too_far(alloc, reader)?,
        clauses: clause_backwards(alloc, reader)?,
        types: deep_type(reader, &declared.census),
        ends: branch_to_the_end(alloc, reader)?,
        nestings: nesting_too_deep(alloc, reader)?,
        short: data.short,
        without_size: data.without_size,
    })
}

// The first number or count that is out of its range, in bodies and outside of them.
fn any_number(alloc: Global, reader: &Reader) -> Result<Option<u32>, NoMemory>
    requires { IsForest reader.now.nodes.now }
    ensures { (s : Source) → Reads reader.now s → IfOk result (λ k. k ≡ least (numbers_out_of_range s ++ body_numbers_out_of_range s)) }
{
    let outside = number_out_of_range(alloc, reader)?;
    let inside = body_number(alloc, reader)?;
    Ok(sooner(outside, inside))
}

// The least labels of the source's fields that break the rules of data.
fn mapped_faults(
    alloc: Global,
    reader: &Reader,
    declared: &Declarations,
) -> Result<DataFaults, NoMemory>
    requires { IsForest reader.now.nodes.now }
    ensures { (s : Source) → Reads reader.now s → AreDeclarations s declared.now → IfOk result (AreDataFaults s) }
{
    let Declarations {
        labels,
        externs,
        classes,
        census,
        ..
    } = declared;
    let mapped = census.count(AT_NAME);
    if mapped == 0 {
        return Ok(no_faults());
    }
    let faults = data_faults(alloc, reader, externs, classes, labels)?;
    Ok(faults)
}

fn no_faults() -> DataFaults
    ensures short { result.short ≡ None }
    ensures without_size { result.without_size ≡ None }
{
    DataFaults {
        short: None,
        without_size: None,
    }
}

// The least first token of a type that is deeper than 100.
fn deep_type(reader: &Reader, census: &Census) -> Option<u32>
    requires { IsForest reader.now.nodes.now }
    ensures { (s : Source) → Reads reader.now s → census.now.long_types ≡ list_any is_long (preorder s.tree) → result ≡ least (types_too_deep s) }
{
    if census.long_types {
        return type_too_deep(reader);
    }
    None
}
