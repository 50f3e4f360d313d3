//! The assembly as a whole (ECMA-335 II.6, II.10.8).

ghost use Rattle.std.specs.Prelude.{◌≡◌, ◌<◌, ◌^◌, IfOk, length, true};
ghost use Rattle.elaborate.specs.ClassParts.{AreGlobals};
ghost use Rattle.elaborate.specs.WholeParts.{AllWhole};
ghost use Rattle.ilasm_grammar.specs.declared.productions.TheConstants.{ASSEMBLY_ASSEMBLY_ATTR_STAR};
ghost use Rattle.source_model.specs.Classes.{assembly};
ghost use Rattle.source_model.specs.Forest.{has};
ghost use Rattle.source_model.specs.Items.{declarations};
ghost use Rattle.source_model.specs.Nodes.{nothing_around};
ghost use Rattle.source_model.specs.Source.{Source};
ghost use Rattle.source_nodes.specs.Pieces.{ArePieces, AreParts};
ghost use Rattle.source_syntax.specs.Places.{IsAt};
ghost use Rattle.source_nodes.specs.Readers.{Reads};
ghost use Rattle.source_nodes.specs.Walk.{IsForest};

use crate::classes::{Known, classes_in};
use crate::cores::core_scope;
use crate::extern_keys::extern_keys;
use crate::member_reader::MemberReader;
use assembly_tree::{Assembly, Fields, Methods};
use il_base::NoMemory;
use lower_manifest::externs::extern_assemblies;
use lower_manifest::manifests::manifest;
use source_flags::gathering::{Kind, parts_of};
use source_nodes::pieces::Piece;
use source_nodes::reader::Reader;
use source_syntax::declared::Declared;
use source_syntax::place::Place;
use std::alloc::Global;

/// The assembly that a source denotes whose productions are whole and which has the declaration of an assembly.
pub fn read_assembly<R: MemberReader>(
    members: &R,
    alloc: Global,
    reader: &Reader,
) -> Result<Assembly, NoMemory>
    requires forest { IsForest reader.now.nodes.now }
    requires few { length reader.now.nodes.now < 2 ^ 32 }
    ensures { (s : Source) → R.knows members.now s → Reads reader.now s → AllWhole s s.tree → has ASSEMBLY_ASSEMBLY_ATTR_STAR s.tree ≡ true →
        IfOk result (λ a. a ≡ assembly s) }
{
    let declared = parts_of(alloc, reader.nodes, Kind::Declarations)?;
    let keys = extern_keys(alloc, reader, declared.as_slice())?;
    let none = Declared::new(alloc);
    let outside = Place {
        reader: *reader,
        keys: &keys,
        class: &none,
        method: &none,
    };
    assembly_at(members, alloc, &outside, declared.as_slice())
}

// The same, from a place outside of all classes and all declarations of the source.
fn assembly_at<R: MemberReader>(
    members: &R,
    alloc: Global,
    place: &Place,
    declared: &[Piece],
) -> Result<Assembly, NoMemory>
    requires forest { IsForest place.now.reader.nodes.now }
    requires parts { AreParts place.now.reader.nodes.now declared.now }
    requires few { length place.now.reader.nodes.now < 2 ^ 32 }
    ensures { (s : Source) → R.knows members.now s → IsAt place.now s nothing_around → ArePieces place.now.reader.nodes.now declared.now (declarations s.tree) →
        AllWhole s s.tree → has ASSEMBLY_ASSEMBLY_ATTR_STAR s.tree ≡ true → IfOk result (λ a. a ≡ assembly s) }
{
    let manifest = manifest(alloc, place, declared)?;
    let externs = extern_assemblies(alloc, &place.reader, declared)?;
    let core = core_scope(alloc, &place.reader, externs.as_slice())?;
    let own = read_globals(members, alloc, place, declared)?;
    let known = Known {
        reader: place.reader,
        keys: place.keys,
        none: place.class,
        core,
    };
    let types = classes_in(members, alloc, &known, true, place.reader.nodes)?;
    Ok(Assembly {
        manifest,
        externs,
        fields: own.fields,
        methods: own.methods,
        types,
    })
}

/// The fields and methods that stand outside of any class.
#[derive(Drop)]
pub struct Globals {
    pub fields: Fields,
    pub methods: Methods,
}

fn read_globals<R: MemberReader>(
    members: &R,
    alloc: Global,
    place: &Place,
    declared: &[Piece],
) -> Result<Globals, NoMemory>
    requires parts { AreParts place.now.reader.nodes.now declared.now }
    requires few { length place.now.reader.nodes.now < 2 ^ 32 }
    ensures { (s : Source) → R.knows members.now s → IsAt place.now s nothing_around → ArePieces place.now.reader.nodes.now declared.now (declarations s.tree) →
        AllWhole s s.tree → IfOk result (λ x. AreGlobals s x) }
{
    let nodes = place.reader.nodes;
    let fields = members.fields(alloc, place, nodes, declared)?;
    let methods = members.methods(alloc, place, nodes, declared)?;
    Ok(Globals { fields, methods })
}
