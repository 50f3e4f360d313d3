//! What the declaration of an assembly says of its version and its public key (ECMA-335 II.6.2.1, II.6.3).

ghost use Rattle.std.specs.Prelude.{◌≡◌, IfOk};
ghost use Rattle.source_flags.specs.InRange.{AllInRange, IsInRange};
ghost use Rattle.ilasm_grammar.specs.declared.productions.TheConstants.{KEY_VER};
ghost use Rattle.lower_manifest.specs.Settings.{hash_said};
ghost use Rattle.source_model.specs.Forest.{Forest, Part, preorder};
ghost use Rattle.source_model.specs.Manifests.{assembly_flags, key, version, version_in, with_key};
ghost use Rattle.source_model.specs.Source.{Source};
ghost use Rattle.source_nodes.specs.Readers.{Reads};
ghost use Rattle.source_nodes.specs.Walk.{IsForest};

use il_base::{Bytes, NoMemory};
use ilasm_grammar::TreeNode;
use ilasm_grammar::productions::{EXTERN_ITEM_HASH, KEY_PUBLICKEY, KEY_VER};
use source_flags::declared_flags::assembly_flags;
use source_flags::gathering::Kind;
use source_flags::lines::last_line;
use source_flags::naturals::natural_16;
use source_nodes::reader::Reader;
use source_nodes::walk::leaf_at;
use std::alloc::Global;

/// The version of an assembly, from what stands below its production; 0:0:0:0 where none is said.
pub fn version(alloc: Global, reader: &Reader, nodes: &[TreeNode]) -> Result<[u16; 4], NoMemory>
    requires { IsForest nodes.now }
    ensures { (s : Source) (f : Forest) → Reads reader.now s → preorder f ≡ nodes.now → AllInRange s f → IfOk result (λ said. said ≡ version s f) }
{
    let said = last_line(alloc, nodes, Kind::One(KEY_VER))?;
    match said {
        Some(line) => Ok(version_in(reader, line.below)),
        None => Ok([0, 0, 0, 0]),
    }
}

// The version that a line says.
fn version_in(reader: &Reader, nodes: &[TreeNode]) -> [u16; 4]
    requires { IsForest nodes.now }
    ensures { (s : Source) (f : Forest) → Reads reader.now s → preorder f ≡ nodes.now → IsInRange s KEY_VER f → result ≡ version_in s f }
{
    [
        natural_16(reader, leaf_at(nodes, 1)),
        natural_16(reader, leaf_at(nodes, 3)),
        natural_16(reader, leaf_at(nodes, 5)),
        natural_16(reader, leaf_at(nodes, 7)),
    ]
}

/// The public key of an assembly or its token; empty where neither is said.
pub fn key(alloc: Global, reader: &Reader, nodes: &[TreeNode]) -> Result<Bytes, NoMemory>
    requires { IsForest nodes.now }
    ensures { (s : Source) (f : Forest) → Reads reader.now s → preorder f ≡ nodes.now → AllInRange s f → IfOk result (λ said. said ≡ key s f) }
{
    let said = last_line(alloc, nodes, Kind::Keys)?;
    match said {
        Some(line) => reader.equals_bytes(alloc, leaf_at(line.below, 1)),
        None => Ok(Bytes::new(alloc)),
    }
}

/// The bytes of the hash of another assembly; empty where none is said.
pub fn hash(alloc: Global, reader: &Reader, nodes: &[TreeNode]) -> Result<Bytes, NoMemory>
    requires { IsForest nodes.now }
    ensures { (s : Source) (f : Forest) → Reads reader.now s → preorder f ≡ nodes.now → AllInRange s f → IfOk result (λ said. said ≡ hash_said s f) }
{
    let said = last_line(alloc, nodes, Kind::One(EXTERN_ITEM_HASH))?;
    match said {
        Some(line) => reader.equals_bytes(alloc, leaf_at(line.below, 1)),
        None => Ok(Bytes::new(alloc)),
    }
}

/// The flags of an assembly, of which the lowest bit says that it has a public key.
pub fn flags_with_key(alloc: Global, reader: &Reader, nodes: &[TreeNode]) -> Result<u32, NoMemory>
    requires { IsForest nodes.now }
    ensures { (s : Source) (f : Forest) → Reads reader.now s → preorder f ≡ nodes.now → AllInRange s f → IfOk result (λ flags. flags ≡ assembly_flags s f) }
{
    let flags = assembly_flags(reader, nodes);
    let said = last_line(alloc, nodes, Kind::Keys)?;
    match said {
        Some(line) => Ok(with_key(flags, line.production)),
        None => Ok(flags),
    }
}

// What a public key or its token makes of the flags.
fn with_key(flags: u32, production: u16) -> u32
    ensures { (p : Part) → production ≡ p.production → result ≡ with_key flags p }
{
    if production == KEY_PUBLICKEY {
        flags | 1
    } else {
        flags - (flags & 1)
    }
}
