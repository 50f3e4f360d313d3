//! What words that fit say.
ghost use Rattle.std.specs.Prelude.{◌≡◌, ◌++◌, true, take, drop, codes, IfOk};
ghost use Rattle.std.specs.Str.{bytes_eq};
ghost use Rattle.std.specs.Option.{option_copied};
ghost use Rattle.command_words.specs.Words.{first_of, command_by, file_among, kind_among, optimize_among, output_among, extension_of, stem_of};

use crate::command::Command;
use crate::shape::Shape;
use crate::slot::{Slot, is_slot};
use il_base::{NoMemory, Text};
use pe_layout::Kind;
use std::alloc::Global;

/// The command that the words behind its own ask for.
pub(crate) fn command_by(alloc: Global, shape: Shape, words: &[Text]) -> Result<Command, NoMemory>
    ensures { IfOk result (λ command. command ≡ command_by shape words.now) }
{
    match shape {
        Shape::Ilasm => ilasm(alloc, words),
    }
}

/// What `ilasm` is asked for.
fn ilasm(alloc: Global, words: &[Text]) -> Result<Command, NoMemory>
    ensures { IfOk result (λ command. command ≡ command_by Shape.Ilasm words.now) }
{
    let output = output_among(alloc, words)?;
    let file = Text::new(alloc, file_among(words))?;
    Ok(Command::Ilasm {
        file,
        kind: kind_among(words),
        optimize: optimize_among(words),
        output,
    })
}

/// The first word of a kind, where there is one.
fn first_of(slot: Slot, words: &[Text]) -> Option<&Text>
    ensures { option_copied result ≡ first_of slot words.now }
{
    words.iter().find(|word| is_slot(slot, word.as_str()))
}

/// FILE.
fn file_among(words: &[Text]) -> &str
    ensures { result.now ≡ file_among words.now }
{
    match first_of(Slot::File, words) {
        Some(word) => word.as_str(),
        None => "",
    }
}

/// The kind of the image: that of a program unless another is said.
fn kind_among(words: &[Text]) -> Kind
    ensures { result ≡ kind_among words.now }
{
    match first_of(Slot::Kind, words) {
        Some(word) => {
            if word.as_str() == "-dll" {
                Kind::Dll
            } else {
                Kind::Exe
            }
        }
        None => Kind::Exe,
    }
}

/// Whether short branches are asked for.
fn optimize_among(words: &[Text]) -> bool
    ensures { result ≡ optimize_among words.now }
{
    first_of(Slot::Optimize, words).is_some()
}

/// The name of the output: NAME of `-output=NAME`, else FILE with another extension.
fn output_among(alloc: Global, words: &[Text]) -> Result<Text, NoMemory>
    ensures { IfOk result (λ name. name ≡ output_among words.now) }
{
    match first_of(Slot::Output, words) {
        Some(word) => {
            let name = Text::new(alloc, named(word.as_str()))?;
            Ok(name)
        }
        None => {
            let name = default_output(alloc, file_among(words), kind_among(words))?;
            Ok(name)
        }
    }
}

/// NAME of a word `-output=NAME`.
fn named(word: &str) -> &str
    requires { bytes_eq (take 8 word.now) (codes "-output=") ≡ true }
    ensures { result.now ≡ drop 8 word.now }
{
    match word.strip_prefix("-output=") {
        Some(name) => name,
        None => "",
    }
}

/// The name of the output where none is asked for.
fn default_output(alloc: Global, file: &str, kind: Kind) -> Result<Text, NoMemory>
    ensures { IfOk result (λ name. name ≡ stem_of file.now ++ extension_of kind) }
{
    let mut name = Text::new(alloc, stem(file))?;
    name.push_str(extension(kind))?;
    Ok(name)
}

/// A name without its last `.il`.
fn stem(name: &str) -> &str
    ensures { result.now ≡ stem_of name.now }
{
    match name.strip_suffix(".il") {
        Some(stem) => stem,
        None => name,
    }
}

/// The extension of an image of a kind.
fn extension(kind: Kind) -> &'static str
    ensures { result.now ≡ extension_of kind }
{
    match kind {
        Kind::Exe => ".exe",
        Kind::Dll => ".dll",
    }
}
