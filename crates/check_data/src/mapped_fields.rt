//! Fields that are mapped to data: those with more bytes than the data has, and those whose types have no stated size
//! (ECMA-335 II.16.3).

ghost use Rattle.std.specs.Prelude.{◌≡◌, ◌<◌, ◌^◌, ℕ, [], IfOk, None, Option, Some, if◌then◌else◌, length, map, option_map, true};
ghost use Rattle.ilasm_grammar.specs.declared.productions.TheConstants.{AT_NAME};
ghost use Rattle.check_names.specs.MappedData.{counted_by};
ghost use Rattle.check_data.specs.DeclaredSizes.{flat};
ghost use Rattle.check_data.specs.FieldFaults.{AreDataFaults, AreFieldFaults, AreLeast, Maps, label_below};
ghost use Rattle.source_model.specs.Forest.{Forest, has, preorder};
ghost use Rattle.source_model.specs.Names.{extern_key, externs};
ghost use Rattle.source_model.specs.Nodes.{Around, Node, nodes_in, nothing_around};
ghost use Rattle.source_model.specs.Source.{Source};
ghost use Rattle.source_nodes.specs.Derived.{HasBodies};
ghost use Rattle.source_nodes.specs.Least.{sooner};
ghost use Rattle.source_syntax.specs.Namings.{AreNames};
ghost use Rattle.source_syntax.specs.Places.{IsAt};
ghost use Rattle.source_nodes.specs.Readers.{Reads};
ghost use Rattle.source_nodes.specs.Walk.{IsForest};
ghost use Rattle.source_syntax.specs.declared.name_lists.Naming.TheVariants as naming;
ghost use Rattle.check_names.specs.DeclaredClasses.{AreClasses};

use crate::declared_sizes::collect_sizes;
use crate::type_sizes::Measure;
use check_names::class_rules::Classes;
use check_names::mapped_data::{length_named, lengths};
use il_base::NoMemory;
use ilasm_grammar::TreeNode;
use ilasm_grammar::productions::{AT_NAME, FIELD, TYPE};
use source_model::forests_join;
use source_nodes::derived::derivations_have_bodies;
use source_nodes::least::sooner;
use source_nodes::reader::Reader;
use source_nodes::walk::{child, has, is_of, leaf_at, open, the};
use source_syntax::declared::Declared;
use source_syntax::name_lists::Named;
use source_syntax::place::Place;
use std::alloc::Global;

/// The least labels behind `at` of fields that break the rules of data.
#[derive(Debug, Clone, Copy, Drop)]
pub struct DataFaults {
    /// Of one with more bytes than the data with the label.
    pub short: Option<u32>,
    /// Of one whose type has no stated size.
    pub without_size: Option<u32>,
}

// The sizes of types, and the labels of data with the lengths of these.
#[derive(Clone, Copy)]
struct Mapping<'a> {
    measure: Measure<'a>,
    labels: &'a Named,
    lengths: &'a [u64],
}

/// The least labels of a source's fields that break the rules of data.
pub fn data_faults(
    alloc: Global,
    reader: &Reader,
    externs: &Named,
    classes: &Classes,
    labels: &Named,
) -> Result<DataFaults, NoMemory>
    requires { IsForest reader.now.nodes.now }
    ensures { (s : Source) → Reads reader.now s → AreNames s naming.Assembly externs.now → AreClasses s classes.now → AreNames s naming.Label labels.now →
        IfOk result (λ faults. AreDataFaults s faults) }
{
    if !has(reader.nodes, AT_NAME) {
        return Ok(no_faults());
    }
    externs_are_few(reader);
    let sizes = collect_sizes(alloc, reader, classes)?;
    let lengths = lengths(alloc, reader)?;
    let none = Declared::new(alloc);
    // The reader is borrowed anew, for as long as what was collected.
    let place = Place {
        reader: Reader {
            source: &*reader.source,
            spans: &*reader.spans,
            nodes: &*reader.nodes,
        },
        keys: &externs.names,
        class: &none,
        method: &none,
    };
    let mapping = Mapping {
        measure: Measure {
            place,
            classes: &classes.paths,
            sizes: &sizes,
        },
        labels,
        lengths: lengths.as_slice(),
    };
    let faults = faults_of_all(alloc, reader, &mapping)?;
    Ok(faults)
}

// The same, with what is known of the source.
fn faults_of_all(alloc: Global, reader: &Reader, mapping: &Mapping) -> Result<DataFaults, NoMemory>
    requires { IsForest reader.now.nodes.now }
    ensures { (s : Source) → Reads reader.now s → Maps mapping.now s → IfOk result (λ faults. AreDataFaults s faults) }
{
    derivations_have_bodies();
    let faults = faults_among(alloc, mapping, reader.nodes)?;
    Ok(faults)
}

// Other assemblies are fewer than 2^32: their nodes stand below the first of the source, which counts those in 32 bits.
fn externs_are_few(reader: &Reader)
    ensures { (s : Source) → Reads reader.now s → length (externs s) < 2 ^ 32 }
{
    derivations_have_bodies();
    forests_join();
    let _first = open(reader.nodes);
}

// The least labels of the fields among these nodes that break the rules of data.
fn faults_among(
    alloc: Global,
    mapping: &Mapping,
    nodes: &[TreeNode],
) -> Result<DataFaults, NoMemory>
    requires { IsForest nodes.now }
    ensures { (s : Source) (a : Around) (f : Forest) → Maps mapping.now s → preorder f ≡ nodes.now → HasBodies s f →
        IfOk result (λ faults. AreLeast s (nodes_in s a f) faults) }
{
    forests_join();
    let mut found = no_faults();
    let mut left = nodes;
    while let Some(x) = open(left) {
        if is_of(x.node, FIELD) {
            let here = field_faults(alloc, mapping, x.below)?;
            found = sooner_of(found, here);
            left = x.behind;
        } else {
            left = x.behind;
        }
    }
    Ok(found)
}

fn no_faults() -> DataFaults
    ensures short { result.short ≡ None }
    ensures without_size { result.without_size ≡ None }
{
    DataFaults {
        short: None,
        without_size: None,
    }
}

// The less of each.
fn sooner_of(some: DataFaults, others: DataFaults) -> DataFaults
    ensures short { result.short ≡ sooner some.short others.short }
    ensures without_size { result.without_size ≡ sooner some.without_size others.without_size }
{
    DataFaults {
        short: sooner(some.short, others.short),
        without_size: sooner(some.without_size, others.without_size),
    }
}

// What a field breaks.
fn field_faults(
    alloc: Global,
    mapping: &Mapping,
    below: &[TreeNode],
) -> Result<DataFaults, NoMemory>
    requires { IsForest below.now }
    ensures { (s : Source) (n : Node) → Maps mapping.now s → preorder n.below ≡ below.now → HasBodies s n.below →
        IfOk result (λ faults. AreFieldFaults s n faults) }
{
    if has(below, AT_NAME) {
        mapped_faults(alloc, mapping, below)
    } else {
        Ok(no_faults())
    }
}

// What a field with data breaks.
fn mapped_faults(
    alloc: Global,
    mapping: &Mapping,
    below: &[TreeNode],
) -> Result<DataFaults, NoMemory>
    requires { IsForest below.now }
    ensures { (s : Source) (n : Node) → Maps mapping.now s → preorder n.below ≡ below.now → HasBodies s n.below → has AT_NAME n.below ≡ true →
        IfOk result (λ faults. AreFieldFaults s n faults) }
{
    let token = leaf_at(the(below, AT_NAME), 1);
    let size = mapping.measure.type_size(alloc, child(below, TYPE))?;
    match size {
        Some(size) => {
            let text = mapping.measure.place.reader.name_text(alloc, token)?;
            let length = length_named(mapping.labels, mapping.lengths, text.as_bytes());
            Ok(DataFaults {
                short: label_if_short(size, length, token),
                without_size: None,
            })
        }
        None => Ok(DataFaults {
            short: None,
            without_size: Some(token),
        }),
    }
}

// The label of data with fewer bytes than the field has, from its length as it is counted.
fn label_if_short(size: u32, length: Option<u64>, token: u32) -> Option<u32>
    ensures { (known : Option (Option ℕ)) → length ≡ option_map counted_by known → result ≡ label_below size (flat known) token }
{
    match length {
        Some(length) => label_if(length < u64::from(size), token),
        None => None,
    }
}

fn label_if(short: bool, token: u32) -> Option<u32>
    ensures { result ≡ (if short then Some token else None) }
{
    if short { Some(token) } else { None }
}
