//! What the program says of the fault of a source.
ghost use Rattle.std.specs.Prelude.{◌≡◌, IfOk, string_bytes};
ghost use Rattle.il_tools.specs.Texts.{bounds_text, content_text, letter, lexical_text, named_text, source_text, syntax_text, twice_text, undeclared_text};

use crate::fault::ContentFault;
use il_base::NoMemory;
use source_assembly::SourceFault;
use source_model::NameClass;
use std::alloc::Global;

/// The line for the source `file` that gives no image, with its line feed.
pub(crate) fn content_message(
    alloc: Global,
    file: &str,
    fault: ContentFault,
) -> Result<String, NoMemory>
    ensures { IfOk result (λ text. string_bytes text ≡ content_text file.now fault) }
{
    match fault {
        ContentFault::Source(fault) => source_message(alloc, file, fault),
        ContentFault::TooLarge => too_large_message(alloc, file),
    }
}

// The line for an assembly that doesn't fit into an image.
fn too_large_message(alloc: Global, file: &str) -> Result<String, NoMemory>
    ensures { IfOk result (λ text. string_bytes text ≡ content_text file.now ContentFault.TooLarge) }
{
    let message = format!(in alloc; "{file}: error Z1: the assembly is too large\n")?;
    Ok(message)
}

// The line for the fault of the source `file`.
fn source_message(alloc: Global, file: &str, fault: SourceFault) -> Result<String, NoMemory>
    ensures { IfOk result (λ text. string_bytes text ≡ source_text file.now fault) }
{
    let message = match fault {
        SourceFault::Lexical { line, rule } => {
            let text = lexical_text(rule);
            format!(in alloc; "{file}({line}): error L{rule}: {text}\n")?
        }
        SourceFault::Syntax { line, rule } => {
            let text = syntax_text(rule);
            format!(in alloc; "{file}({line}): error S{rule}: {text}\n")?
        }
        SourceFault::Named { line, class, rule } => {
            named_message(alloc, file, line, class, rule)?
        }
    };
    Ok(message)
}

// The line for a rule on declarations, names or bounds.
fn named_message(
    alloc: Global,
    file: &str,
    line: u32,
    class: NameClass,
    rule: u8,
) -> Result<String, NoMemory>
    ensures { IfOk result (λ text. string_bytes text ≡ named_text file.now line class rule) }
{
    let letter = letter(class);
    let text = match class {
        NameClass::D => twice_text(rule),
        NameClass::N => undeclared_text(rule),
        NameClass::B => bounds_text(rule),
    };
    let message = format!(in alloc; "{file}({line}): error {letter}{rule}: {text}\n")?;
    Ok(message)
}

// The letter of a class.
#[tactic(auto, unfolding(crate::specs::Texts::letter))]
fn letter(class: NameClass) -> &'static str
    ensures { result.now ≡ letter class }
{
    match class {
        NameClass::D => "D",
        NameClass::N => "N",
        NameClass::B => "B",
    }
}

// The text of the rules L1 to L7, by their numbers.
#[tactic(auto, unfolding(crate::specs::Texts::lexical_text))]
fn lexical_text(rule: u8) -> &'static str
    ensures { result.now ≡ lexical_text rule }
{
    match rule {
        1 => "the source isn't UTF-8",
        2 => "a string, a quoted name or a comment doesn't end",
        3 => "an escape, a zero byte or an empty quoted name isn't allowed",
        4 => "a real number in decimal isn't read",
        5 => "no token begins here",
        6 => "more than 16777216 tokens",
        7 => "brackets nest deeper than 400",
        _ => "",
    }
}

// The text of the rules S1 and S2, by their numbers.
#[tactic(auto, unfolding(crate::specs::Texts::syntax_text))]
fn syntax_text(rule: u8) -> &'static str
    ensures { result.now ≡ syntax_text rule }
{
    match rule {
        1 => "no declaration goes on with this token",
        2 => "this construct is left out",
        _ => "",
    }
}

// The text of the rules on what is declared twice, D1 to D7, by their numbers.
#[tactic(auto, unfolding(crate::specs::Texts::twice_text))]
fn twice_text(rule: u8) -> &'static str
    ensures { result.now ≡ twice_text rule }
{
    match rule {
        1 => "type declared twice",
        2 => "member declared twice",
        3 => "extern or alias declared twice",
        4 => "label declared twice",
        5 => "a second .entrypoint",
        6 => "a second .assembly or .module",
        7 => "data label declared twice",
        _ => "",
    }
}

// The text of the rules on what isn't declared, N1 to N8, by their numbers.
#[tactic(auto, unfolding(crate::specs::Texts::undeclared_text))]
fn undeclared_text(rule: u8) -> &'static str
    ensures { result.now ≡ undeclared_text rule }
{
    match rule {
        1 => "type isn't declared here",
        2 => "extern isn't declared",
        3 => "label isn't declared",
        4 => "local or argument isn't declared",
        5 => "generic parameter isn't declared",
        6 => "accessor isn't a method of this class",
        7 => "no .assembly",
        8 => "data label isn't declared",
        _ => "",
    }
}

// The text of the rules on what is out of its bounds, B1 to B8, by their numbers.
#[tactic(auto, unfolding(crate::specs::Texts::bounds_text))]
fn bounds_text(rule: u8) -> &'static str
    ensures { result.now ≡ bounds_text rule }
{
    match rule {
        1 => "a number or a count is out of its range",
        2 => "a short branch is too far",
        3 => "a clause's range is empty or backwards",
        4 => "a signature is deeper than 100",
        5 => "a branch goes to the end of the code",
        6 => "classes or a path nest deeper than 100",
        7 => "data is shorter than its field",
        8 => "a field with data has no stated size",
        _ => "",
    }
}
