//! Assemblies checked together.
ghost use Rattle.std.specs.Prelude.{◌≡◌, ◌≤◌, ◌^◌, ◌∷◌, ℕ, List, [], length, is_some, slice_index_or, IfOk, IsTrue};
ghost use Rattle.std.specs.List.{All};
ghost use Rattle.assembly_tree.specs.Weight.{weight_of};
ghost use Rattle.assignability.specs.Worlds.{IsCyclicType};
ghost use Rattle.body_verifier.specs.declared.report.Failure.{Failure as TheFailure};
ghost use Rattle.listing_model.specs.Canon.{reference_at, type_line};
ghost use Rattle.run_endings.specs.Ends.{prints_only, says_only};
ghost use Rattle.run_reports.specs.Reports.{GivesFailures, MeritsFailures, assembly_by, status_of};
ghost use Rattle.run_reports.specs.Texts.{IsRule, cyclic_text, report_text};
ghost use Rattle.type_hierarchy.specs.Scopes.{Sources, sources};
ghost use Rattle.type_order.specs.Worlds.{IsFit, IsWorldOf};

use crate::lines::{cyclic_said, report_said};
use all_bodies::check_all;
use assembly_tree::Assembly;
use assignability::{WorldFault, world, worlds_go_on};
use body_verifier::Failure;
use il_base::{Items, NoMemory, Text};
use listing_printer::print_type;
use run_endings::{Ending, prints, says};
use std::alloc::Global;
use type_order::types::World;
use type_terms::TypeName;

/// What is said of the bodies of an assembly, which stands in `file`, beside those that it refers to, which stand in `names`.
pub(crate) fn checked(
    alloc: Global,
    file: &str,
    names: &[Text],
    a: &Assembly,
    references: &Items<Assembly>,
) -> Result<Ending, NoMemory>
    requires image { IsFit a.now }
    requires references { All IsFit references.now }
    requires few { length references.now ≤ 8 }
    ensures gives { IfOk result (GivesFailures (file.now ∷ names.now) (sources a.now references.now)) }
    ensures merits { (m : ℕ) → MeritsFailures (sources a.now references.now) m → IfOk result (λ e. e.number ≡ m) }
{
    match world(alloc, a, references) {
        Ok(mut w) => bodies_given(alloc, a, references, &mut w),
        Err(WorldFault::Cyclic { assembly, at }) => {
            ring_given(alloc, file, names, a, references, assembly, &at)
        }
        Err(WorldFault::NoMemory) => Err(NoMemory),
    }
}

/// What is said of the bodies of an assembly, by the world of it and of those that it refers to.
fn bodies_given(
    alloc: Global,
    a: &Assembly,
    references: &Items<Assembly>,
    w: &mut World,
) -> Result<Ending, NoMemory>
    ghost s: { Sources }
    requires same { s ≡ sources a.now references.now }
    requires image { IsFit a.now }
    requires references { All IsFit references.now }
    requires few { length references.now ≤ 8 }
    requires world { IsWorldOf (sources a.now references.now) w.old }
    ensures gives { (names : List (List ℕ)) → IfOk result (GivesFailures names (sources a.now references.now)) }
    ensures merits { (m : ℕ) → MeritsFailures (sources a.now references.now) m → IfOk result (λ e. e.number ≡ m) }
{
    worlds_go_on();
    // The references stand in the clauses alone.
    let _ = references;
    let report = check_all(alloc, a, w)?;
    let ending = report_given(alloc, a, report.as_slice())?;
    Ok(ending)
}

/// The ending of a run that checked all bodies of an assembly.
fn report_given(alloc: Global, a: &Assembly, report: &[Failure]) -> Result<Ending, NoMemory>
    requires placed { All (λ (f : TheFailure). IsTrue (is_some (reference_at a.now f.method))) report.now }
    requires ruled { All (λ (f : TheFailure). IsRule f.rule) report.now }
    requires small { weight_of a.now ≤ 2 ^ 26 }
    ensures { IfOk result (λ e. e ≡ prints_only (status_of report.now) (report_text a.now report.now)) }
{
    let text = report_said(alloc, a, report)?;
    let status = if report.is_empty() { 0 } else { 1 };
    prints(alloc, status, text)
}

/// The ending of a run that found a type of the assembly with a number that is its own ancestor.
fn ring_given(
    alloc: Global,
    file: &str,
    names: &[Text],
    a: &Assembly,
    references: &Items<Assembly>,
    number: u32,
    at: &TypeName,
) -> Result<Ending, NoMemory>
    requires { IsCyclicType (sources a.now references.now) number at.now }
    ensures gives { IfOk result (GivesFailures (file.now ∷ names.now) (sources a.now references.now)) }
    ensures merits { (m : ℕ) → MeritsFailures (sources a.now references.now) m → IfOk result (λ e. e.number ≡ m) }
{
    let file = name_by(file, names, number as usize);
    let of = assembly_by(a, references, number as usize);
    let ending = ring_said(alloc, file, of, at)?;
    Ok(ending)
}

/// The ending of a run that found a type of an assembly, which stands in `file`, that is its own ancestor.
fn ring_said(alloc: Global, file: &str, a: &Assembly, at: &TypeName) -> Result<Ending, NoMemory>
    ensures { IfOk result (λ e. e ≡ says_only 1 (cyclic_text file.now (type_line a.now at.now))) }
{
    let name = print_type(alloc, a, at)?;
    let text = cyclic_said(alloc, file, name.as_str())?;
    says(alloc, 1, text)
}

/// The name of the file with a number: 0 is `file`, and the others count from 1.
pub(crate) fn name_by<'a>(file: &'a str, names: &'a [Text], number: usize) -> &'a str
    ensures { result.now ≡ slice_index_or (file.now ∷ names.now) number [] }
{
    if number == 0 {
        return file;
    }
    match names.get(number - 1) {
        Some(name) => name.as_str(),
        None => "",
    }
}

/// The assembly with a number: 0 is the image, and references count from 1.
fn assembly_by<'a>(a: &'a Assembly, references: &'a Items<Assembly>, number: usize) -> &'a Assembly
    ensures { result.now ≡ assembly_by (sources a.now references.now) number }
{
    one_by(a, references.as_slice(), number)
}

/// Of a first and others behind it the one with a number; the first where there is none.
fn one_by<'a, T>(first: &'a T, others: &'a [T], number: usize) -> &'a T
    ensures { result.now ≡ slice_index_or (first.now ∷ others.now) number first.now }
{
    if number == 0 {
        return first;
    }
    match others.get(number - 1) {
        Some(other) => other,
        None => first,
    }
}
