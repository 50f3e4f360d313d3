//! Labels that a method declares twice, and names of labels that it doesn't declare (ECMA-335 II.5.4, II.15.4.1).

ghost use Rattle.std.specs.Prelude.{◌≡◌, map, not, filter, bytes_eq, is_some, position, IfOk};
ghost use Rattle.source_model.specs.BodyFaults.{is_same_name, label_names, labels_twice, labels_undeclared};
ghost use Rattle.source_model.specs.DeclaredTwice.{repeats};
ghost use Rattle.source_model.specs.Instructions.{is_label, labels};
ghost use Rattle.source_model.specs.Source.{Source};
ghost use Rattle.source_model.specs.Values.{name_text};
ghost use Rattle.source_syntax.specs.Labels.{is_below};
ghost use Rattle.source_nodes.specs.Least.{least};
ghost use Rattle.source_syntax.specs.Methods.{AreNames};
ghost use Rattle.source_nodes.specs.Readers.{Reads};
ghost use Rattle.source_nodes.specs.Walk.{IsForest};

use il_base::NoMemory;
use ilasm_grammar::TreeNode;
use source_nodes::least::sooner;
use source_nodes::reader::Reader;
use source_syntax::declared::Declared;
use source_syntax::labels::{label_names, label_tokens, names_at};
use source_syntax::methods::{MethodRule, first_in_methods};
use std::alloc::Global;

/// The least label with the name of an earlier one of its method.
pub fn label_twice(alloc: Global, reader: &Reader) -> Result<Option<u32>, NoMemory>
    requires { IsForest reader.now.nodes.now }
    ensures { (s : Source) → Reads reader.now s → IfOk result (λ k. k ≡ least (labels_twice s)) }
{
    let first = first_in_methods(&LabelsTwice, alloc, reader)?;
    Ok(first)
}

/// The least name that stands for a label where its method has none with that name.
pub fn label_undeclared(alloc: Global, reader: &Reader) -> Result<Option<u32>, NoMemory>
    requires { IsForest reader.now.nodes.now }
    ensures { (s : Source) → Reads reader.now s → IfOk result (λ k. k ≡ least (labels_undeclared s)) }
{
    let first = first_in_methods(&LabelsUndeclared, alloc, reader)?;
    Ok(first)
}

// Labels with the names of earlier ones.
struct LabelsTwice;

impl MethodRule for LabelsTwice {
    ghost broken = { λ _ s n. repeats (is_same_name s) (labels n.below) };

    fn first(
        &self,
        alloc: Global,
        reader: &Reader,
        below: &[TreeNode],
    ) -> Result<Option<u32>, NoMemory> {
        let tokens = label_tokens(alloc, below)?;
        let names = names_at(alloc, reader, tokens.as_slice())?;
        first_repeat(alloc, reader, &names, tokens.as_slice())
    }
}

// Names of labels that the method doesn't have.
struct LabelsUndeclared;

impl MethodRule for LabelsUndeclared {
    ghost broken = { λ _ s n. filter (λ k. not (is_label s n.below k)) (label_names n.below) };

    fn first(
        &self,
        alloc: Global,
        reader: &Reader,
        below: &[TreeNode],
    ) -> Result<Option<u32>, NoMemory> {
        let tokens = label_tokens(alloc, below)?;
        let names = names_at(alloc, reader, tokens.as_slice())?;
        let named = label_names(alloc, below)?;
        first_missing(alloc, reader, &names, named.as_slice())
    }
}

// The least of these tokens that has the name of an earlier one, with the names of all of them.
fn first_repeat(
    alloc: Global,
    reader: &Reader,
    names: &Declared,
    tokens: &[u32],
) -> Result<Option<u32>, NoMemory>
    ensures { (s : Source) → Reads reader.now s → AreNames s tokens.now → names.now ≡ map (name_text s) tokens.now →
        IfOk result (λ k. k ≡ least (repeats (is_same_name s) tokens.now)) }
{
    let mut found = None;
    for at in 0..tokens.len() {
        let token = tokens[at];
        let name = reader.name_text(alloc, token)?;
        if is_below(names.find(name.as_bytes()), at) {
            found = sooner(found, Some(token));
        }
    }
    Ok(found)
}

// Whether a number was found that is less than another.
fn is_below(number: Option<usize>, most: usize) -> bool
    ensures { result ≡ is_below number most }
{
    match number {
        Some(n) => n < most,
        None => false,
    }
}

/// The least of these tokens whose name isn't among the names.
pub fn first_missing(
    alloc: Global,
    reader: &Reader,
    names: &Declared,
    tokens: &[u32],
) -> Result<Option<u32>, NoMemory>
    ensures { (s : Source) → Reads reader.now s → AreNames s tokens.now →
        IfOk result (λ k. k ≡ least (filter (λ t. not (is_some (position (bytes_eq (name_text s t)) names.now))) tokens.now)) }
{
    let mut found = None;
    for token in tokens {
        let name = reader.name_text(alloc, *token)?;
        if names.find(name.as_bytes()).is_none() {
            found = sooner(found, Some(*token));
        }
    }
    Ok(found)
}
