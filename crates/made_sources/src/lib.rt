//! The source that `selfrun` assembles: classes with a method each, whose code joins two branches.
#![tactic(auto)]

ghost use Rattle.std.specs.Prelude.{◌≡◌, ◌≤◌, ◌-◌, ◌/◌, IfOk, string_bytes};
ghost use Rattle.made_sources.specs.Made.{made, base_of, class_line, line_with};

use il_base::{Bytes, NoMemory};
use std::alloc::Global;

// The lines before the classes.
const HEADING: &str = "\
.assembly extern mscorlib { .ver 4:0:0:0 }
.assembly Made { .ver 1:0:0:0 }
";

// At least as many bytes as a class has.
const CLASS_ROOM: usize = 192;

/// A source of `n` classes.
pub fn make_source(alloc: Global, n: u32) -> Result<Bytes, NoMemory>
    requires some { 1 ≤ n }
    requires few { n ≤ 65536 }
    ensures { IfOk result (λ source. source ≡ made n) }
{
    let room = CLASS_ROOM * (n as usize + 1);
    let mut source = Bytes::with_capacity(alloc, room)?;
    source.extend(HEADING.as_bytes())?;
    for class in 0..n {
        let line = line_of(alloc, class)?;
        source.extend(line.as_bytes())?;
    }
    Ok(source)
}

/// The line of the class with this number, counted from 0.
fn line_of(alloc: Global, class: u32) -> Result<String, NoMemory>
    ensures { IfOk result (λ line. string_bytes line ≡ class_line class) }
{
    let below = class.saturating_sub(1) / 2;
    let base = base_of(alloc, class, below)?;
    let line = line_with(alloc, class, base.as_str(), below)?;
    Ok(line)
}

/// The line of a class, its base and the class that it names besides itself.
fn line_with(alloc: Global, class: u32, base: &str, other: u32) -> Result<String, NoMemory>
    ensures { IfOk result (λ line. string_bytes line ≡ line_with class base.now other) }
{
    let line = format!(in alloc;
        ".class public C{class} extends {base} {{ .method public static object M(bool) cil managed {{ ldarg.0 brtrue.s L ldnull castclass C{class} br.s J L: ldnull castclass C{other} J: ret }} }}\n"
    )?;
    Ok(line)
}

/// The base of a class: the class half as far from the first, and `System.Object` for the first.
fn base_of(alloc: Global, class: u32, below: u32) -> Result<String, NoMemory>
    requires { below ≡ (class - 1) / 2 }
    ensures { IfOk result (λ base. string_bytes base ≡ base_of class) }
{
    let base = match class {
        0 => format!(in alloc; "[mscorlib]System.Object")?,
        _ => format!(in alloc; "C{below}")?,
    };
    Ok(base)
}
