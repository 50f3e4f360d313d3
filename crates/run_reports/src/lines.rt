//! The lines of a report.
ghost use Rattle.std.specs.Prelude.{◌≡◌, ◌≤◌, ◌^◌, IsTrue, IfOk, OnOk, is_some, string_bytes};
ghost use Rattle.std.specs.List.{All};
ghost use Rattle.assembly_tree.specs.Weight.{weight_of};
ghost use Rattle.body_verifier.specs.declared.report.Failure.{Failure as TheFailure};
ghost use Rattle.listing_model.specs.Canon.{reference_at};
ghost use Rattle.print_leaves.specs.Page.{added};
ghost use Rattle.run_reports.specs.Texts.{IsRule, count_text, cyclic_text, failure_text, report_text};

use all_bodies::count;
use assembly_tree::Assembly;
use body_verifier::{Failure, rule_text};
use il_base::{NoMemory, Text};
use listing_printer::{ExternKeys, method_by};
use print_leaves::Paper;
use std::alloc::Global;

/// A report: a line for each failure, and how many methods and failures there are.
pub(crate) fn report_said(alloc: Global, a: &Assembly, report: &[Failure]) -> Result<Text, NoMemory>
    requires placed { All (λ (f : TheFailure). IsTrue (is_some (reference_at a.now f.method))) report.now }
    requires ruled { All (λ (f : TheFailure). IsRule f.rule) report.now }
    requires small { weight_of a.now ≤ 2 ^ 26 }
    ensures { IfOk result (λ text. text ≡ report_text a.now report.now) }
{
    let externs = ExternKeys::new(alloc, a.externs.as_slice())?;
    let mut paper = Paper::new(alloc);
    for failure in report {
        add_failure(&mut paper, alloc, &externs, a, failure)?;
    }
    let methods = count(a).methods;
    add_counts(&mut paper, methods, report.len() as u64)?;
    let text = Text::from_string(alloc, paper.into_string())?;
    Ok(text)
}

/// The line of a failure.
fn add_failure(
    paper: &mut Paper,
    alloc: Global,
    externs: &ExternKeys<'_>,
    a: &Assembly,
    failure: &Failure,
) -> Result<(), NoMemory>
    requires placed { IsTrue (is_some (reference_at a.now failure.now.method)) }
    requires low { 1 ≤ failure.now.rule }
    requires high { failure.now.rule ≤ 20 }
    requires same { externs.now ≡ a.now.externs }
    ensures { OnOk result (paper.new ≡ added paper.old (failure_text a.now failure.now)) }
{
    let method = method_by(alloc, externs, a, &failure.method)?;
    paper.add(method.as_str())?;
    paper.add(" [0x")?;
    paper.add_hex(false, 4, u64::from(failure.offset))?;
    paper.add("] V")?;
    paper.add_decimal(u64::from(failure.rule))?;
    paper.add(": ")?;
    paper.add(rule_text(failure.rule))?;
    paper.add("\n")?;
    Ok(())
}

/// The last line.
fn add_counts(paper: &mut Paper, methods: u64, failures: u64) -> Result<(), NoMemory>
    ensures { OnOk result (paper.new ≡ added paper.old (count_text methods failures)) }
{
    paper.add("methods ")?;
    paper.add_decimal(methods)?;
    paper.add(", failures ")?;
    paper.add_decimal(failures)?;
    paper.add("\n")?;
    Ok(())
}

/// The line for a type that is its own ancestor.
pub(crate) fn cyclic_said(alloc: Global, file: &str, name: &str) -> Result<String, NoMemory>
    ensures { IfOk result (λ text. string_bytes text ≡ cyclic_text file.now name.now) }
{
    let text = format!(in alloc; "{file}: error Y1: {name} is its own ancestor\n")?;
    Ok(text)
}
