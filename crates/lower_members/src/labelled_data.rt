//! The data of a source by its labels (ECMA-335 II.16.3).

ghost use Rattle.std.specs.Prelude.{◌≡◌, ◌∷◌, ◌++◌, [], IfOk, List, filter, if◌then◌else◌, map, slice_get};
ghost use Rattle.std.specs.List.{AllByRecursion};
ghost use Rattle.ilasm_grammar.specs.declared.productions.TheConstants.{DATA, DATA_LABEL};
ghost use Rattle.lower_members.specs.LabelledData.{AreData};
ghost use Rattle.lower_members.specs.Runs.{bytes_of_each, bytes_of_runs};
ghost use Rattle.source_flags.specs.InRange.{AllInRange};
ghost use Rattle.source_model.specs.Data.{bytes_at, data_bytes, data_named};
ghost use Rattle.source_model.specs.Forest.{Forest, Part, below_each, has, parts, preorder};
ghost use Rattle.source_model.specs.Source.{Source};
ghost use Rattle.source_nodes.specs.Pieces.{ArePieces, AreParts};
ghost use Rattle.source_nodes.specs.Readers.{Reads};
ghost use Rattle.source_nodes.specs.Walk.{IsForest};

use crate::data_items::data_runs;
use crate::runs::{Run, Runs};
use il_base::{Items, NoMemory};
use ilasm_grammar::TreeNode;
use ilasm_grammar::productions::{DATA, DATA_LABEL};
use source_flags::gathering::Kind;
use source_flags::outside::{Shut, parts_outside};
use source_nodes::pieces::{Piece, nodes_of};
use source_nodes::reader::Reader;
use source_nodes::walk::has;
use source_syntax::declared::Declared;
use source_syntax::name_lists::{Named, Naming, collect};
use std::alloc::Global;

/// The declarations of data that have labels.
#[derive(Drop)]
pub struct LabelledData {
    /// Their labels.
    pub labels: Named,
    /// The bytes of each, as runs.
    pub contents: Items<Runs>,
}

/// All data of a source that has a label, in order.
pub fn collect_data(alloc: Global, reader: &Reader) -> Result<LabelledData, NoMemory>
    requires { IsForest reader.now.nodes.now }
    ensures { (s : Source) → Reads reader.now s → AllInRange s s.tree → IfOk result (λ d. AreData s d) }
{
    let all = parts_outside(alloc, reader.nodes, Shut::Methods, Kind::One(DATA))?;
    if all.is_empty() {
        return Ok(no_data(alloc));
    }
    let labels = collect(alloc, reader, Naming::Label)?;
    let contents = contents_of(alloc, reader, all.as_slice())?;
    Ok(LabelledData { labels, contents })
}

/// What a source without data has.
pub fn no_data(alloc: Global) -> LabelledData
    ensures { (s : Source) → parts (DATA ∷ []) s.tree ≡ [] → AreData s result }
{
    let tokens = Items::new(alloc);
    let names = Declared::new(alloc);
    let contents = Items::new(alloc);
    LabelledData {
        labels: Named { tokens, names },
        contents,
    }
}

// The bytes of those of these declarations of data that have a label.
fn contents_of(alloc: Global, reader: &Reader, all: &[Piece]) -> Result<Items<Runs>, NoMemory>
    requires { AreParts reader.now.nodes.now all.now }
    ensures { (s : Source) (ps : List Part) → Reads reader.now s → ArePieces reader.now.nodes.now all.now ps → AllByRecursion (λ p. AllInRange s p.below) ps →
        IfOk result (λ contents. bytes_of_each contents ≡ map (data_bytes s) (filter (has DATA_LABEL) (below_each ps))) }
{
    let mut contents = Items::new(alloc);
    for piece in all {
        push_labelled(&mut contents, alloc, reader, nodes_of(reader.nodes, *piece))?;
    }
    Ok(contents)
}

// Adds the bytes of a declaration of data, where it has a label.
fn push_labelled(
    contents: &mut Items<Runs>,
    alloc: Global,
    reader: &Reader,
    below: &[TreeNode],
) -> Result<(), NoMemory>
    requires { IsForest below.now }
    ensures { (s : Source) (f : Forest) → Reads reader.now s → preorder f ≡ below.now → AllInRange s f →
        IfOk result (λ _. bytes_of_each contents.new ≡ bytes_of_each contents.old ++ (if has DATA_LABEL f then data_bytes s f ∷ [] else [])) }
{
    if !has(below, DATA_LABEL) {
        return Ok(());
    }
    let runs = data_runs(alloc, reader, below)?;
    contents.push(runs)
}

impl LabelledData {
    /// The bytes of the first data with a label, as runs; none where there is no such data. Takes no memory.
    pub fn runs_named(&self, label: &[u8]) -> &[Run]
        ensures { (s : Source) → AreData s self.now → bytes_of_runs result.now ≡ bytes_at s (data_named s label.now) }
    {
        match self.labels.names.find(label) {
            Some(k) => runs_numbered(&self.contents, k),
            None => &[],
        }
    }
}

// The bytes of one of these declarations of data, by its number, where there is one.
fn runs_numbered(contents: &Items<Runs>, k: usize) -> &[Run]
    ensures { (s : Source) (fs : List Forest) → bytes_of_each contents.now ≡ map (data_bytes s) fs → bytes_of_runs result.now ≡ bytes_at s (slice_get fs k) }
{
    match contents.get(k) {
        Some(runs) => runs.as_slice(),
        None => &[],
    }
}
