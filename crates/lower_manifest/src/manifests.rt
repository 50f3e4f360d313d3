//! What a source says of its assembly and module (ECMA-335 II.6.2, II.25.2.3).

ghost use Rattle.std.specs.Prelude.{◌≡◌, ◌<◌, ◌^◌, IfOk, length, true};
ghost use Rattle.source_flags.specs.InRange.{AllInRange};
ghost use Rattle.lower_manifest.specs.ManifestParts.{AreCustoms, AreNames, AreNumbers, AreSigns};
ghost use Rattle.ilasm_grammar.specs.declared.productions.TheConstants.{ASSEMBLY_ASSEMBLY_ATTR_STAR};
ghost use Rattle.source_model.specs.Forest.{Forest, has, preorder, the};
ghost use Rattle.source_model.specs.Items.{declarations};
ghost use Rattle.source_model.specs.Manifests.{manifest};
ghost use Rattle.source_model.specs.Nodes.{nothing_around};
ghost use Rattle.source_model.specs.Source.{Source};
ghost use Rattle.source_nodes.specs.Pieces.{ArePieces, AreParts};
ghost use Rattle.source_syntax.specs.Places.{IsAt};
ghost use Rattle.source_nodes.specs.Readers.{Reads};
ghost use Rattle.source_nodes.specs.Walk.{IsForest};

use crate::attributes::attributes;
use crate::externs::culture;
use crate::keys::{flags_with_key, key, version};
use crate::names::{assembly_name, module_name};
use crate::runs::own_customs;
use crate::settings::{Setting, setting_declared, setting_said};
use assembly_tree::{Attributes, Manifest};
use il_base::{Bytes, NoMemory, Text};
use ilasm_grammar::TreeNode;
use ilasm_grammar::productions::{ASSEMBLY_ASSEMBLY_ATTR_STAR, ASSEMBLY_ITEM_CUSTOM};
use source_flags::gathering::{Kind, parts_of};
use source_flags::naturals::short_of;
use source_nodes::pieces::Piece;
use source_nodes::reader::Reader;
use source_nodes::walk::the;
use source_syntax::place::Place;
use std::alloc::Global;

// The names of the assembly and its module, and the assembly's version.
#[derive(Drop)]
struct Names {
    name: Text,
    of_module: Text,
    version: [u16; 4],
}

// What identifies the assembly beside its name and version.
#[derive(Drop)]
struct Signs {
    flags: u32,
    key: Bytes,
    culture: Text,
}

// The numbers that a source sets.
#[derive(Clone, Copy, Drop)]
struct Numbers {
    hash: u32,
    image_base: u32,
    file_alignment: u32,
    stack_reserve: u32,
    subsystem: u16,
    cor_flags: u32,
}

// The attributes of the assembly and of its module.
#[derive(Drop)]
struct Customs {
    assembly: Attributes,
    outside: Attributes,
}

/// The manifest of a source, from a place outside of all classes and all declarations of the source.
pub fn manifest(alloc: Global, place: &Place, declared: &[Piece]) -> Result<Manifest, NoMemory>
    requires forest { IsForest place.now.reader.nodes.now }
    requires parts { AreParts place.now.reader.nodes.now declared.now }
    requires few { length place.now.reader.nodes.now < 2 ^ 32 }
    ensures { (s : Source) → IsAt place.now s nothing_around → ArePieces place.now.reader.nodes.now declared.now (declarations s.tree) → AllInRange s s.tree →
        has ASSEMBLY_ASSEMBLY_ATTR_STAR s.tree ≡ true → IfOk result (λ m. m ≡ manifest s) }
{
    let names = read_names(alloc, &place.reader, declared)?;
    let signs = read_signs(alloc, &place.reader)?;
    let numbers = read_numbers(alloc, &place.reader, declared)?;
    let customs = read_customs(alloc, place, declared)?;
    Ok(put_together(names, signs, numbers, customs))
}

fn put_together(names: Names, signs: Signs, numbers: Numbers, customs: Customs) -> Manifest
    ensures { (s : Source) → AreNames s names → AreSigns s signs → AreNumbers s numbers → AreCustoms s customs → result ≡ manifest s }
{
    let version = names.version;
    Manifest {
        name: names.name,
        version,
        flags: signs.flags,
        key: signs.key,
        culture: signs.culture,
        hash: numbers.hash,
        module: names.of_module,
        image_base: numbers.image_base,
        file_alignment: numbers.file_alignment,
        stack_reserve: numbers.stack_reserve,
        subsystem: numbers.subsystem,
        cor_flags: numbers.cor_flags,
        attributes: customs.assembly,
        module_attributes: customs.outside,
    }
}

// What stands below the declaration of the assembly.
fn declaration<'a>(reader: &Reader<'a>) -> &'a [TreeNode]
    requires { IsForest reader.now.nodes.now }
    ensures { (f : Forest) → preorder f ≡ reader.now.nodes.now → preorder (the ASSEMBLY_ASSEMBLY_ATTR_STAR f) ≡ result.now }
{
    the(reader.nodes, ASSEMBLY_ASSEMBLY_ATTR_STAR)
}

fn read_names(alloc: Global, reader: &Reader, declared: &[Piece]) -> Result<Names, NoMemory>
    requires forest { IsForest reader.now.nodes.now }
    requires parts { AreParts reader.now.nodes.now declared.now }
    ensures { (s : Source) → Reads reader.now s → ArePieces reader.now.nodes.now declared.now (declarations s.tree) → AllInRange s s.tree → has ASSEMBLY_ASSEMBLY_ATTR_STAR s.tree ≡ true → IfOk result (λ x. AreNames s x) }
{
    let name = assembly_name(alloc, reader)?;
    let of_module = module_name(alloc, reader, declared, &name)?;
    let version = version(alloc, reader, declaration(reader))?;
    Ok(Names {
        name,
        of_module,
        version,
    })
}

fn read_signs(alloc: Global, reader: &Reader) -> Result<Signs, NoMemory>
    requires { IsForest reader.now.nodes.now }
    ensures { (s : Source) → Reads reader.now s → AllInRange s s.tree → IfOk result (λ x. AreSigns s x) }
{
    let below = declaration(reader);
    let flags = flags_with_key(alloc, reader, below)?;
    let key = key(alloc, reader, below)?;
    let culture = culture(alloc, reader, below)?;
    Ok(Signs {
        flags,
        key,
        culture,
    })
}

fn read_numbers(alloc: Global, reader: &Reader, declared: &[Piece]) -> Result<Numbers, NoMemory>
    requires forest { IsForest reader.now.nodes.now }
    requires parts { AreParts reader.now.nodes.now declared.now }
    ensures { (s : Source) → Reads reader.now s → ArePieces reader.now.nodes.now declared.now (declarations s.tree) → AllInRange s s.tree →
        IfOk result (λ x. AreNumbers s x) }
{
    let nodes = reader.nodes;
    let hash = setting_said(alloc, reader, declaration(reader), Setting::HashAlgorithm)?;
    let image_base = setting_declared(alloc, reader, nodes, declared, Setting::ImageBase)?;
    let file_alignment = setting_declared(alloc, reader, nodes, declared, Setting::FileAlignment)?;
    let stack_reserve = setting_declared(alloc, reader, nodes, declared, Setting::StackReserve)?;
    let subsystem = setting_declared(alloc, reader, nodes, declared, Setting::Subsystem)?;
    let cor_flags = setting_declared(alloc, reader, nodes, declared, Setting::CorFlags)?;
    Ok(Numbers {
        hash,
        image_base,
        file_alignment,
        stack_reserve,
        subsystem: short_of(subsystem),
        cor_flags: cor_flags - (cor_flags & 8),
    })
}

fn read_customs(alloc: Global, place: &Place, declared: &[Piece]) -> Result<Customs, NoMemory>
    requires forest { IsForest place.now.reader.nodes.now }
    requires parts { AreParts place.now.reader.nodes.now declared.now }
    requires few { length place.now.reader.nodes.now < 2 ^ 32 }
    ensures { (s : Source) → IsAt place.now s nothing_around → ArePieces place.now.reader.nodes.now declared.now (declarations s.tree) → AllInRange s s.tree →
        IfOk result (λ x. AreCustoms s x) }
{
    let below = declaration(&place.reader);
    let own = parts_of(alloc, below, Kind::One(ASSEMBLY_ITEM_CUSTOM))?;
    let assembly = attributes(alloc, place, below, own.as_slice())?;
    let free = own_customs(alloc, declared)?;
    let outside = attributes(alloc, place, place.reader.nodes, free.as_slice())?;
    Ok(Customs { assembly, outside })
}
