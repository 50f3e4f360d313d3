//! The flags of each kind of declaration, in the width of its row (ECMA-335 II.22, II.23.1).

ghost use Rattle.std.specs.Prelude.{◌≡◌, ◌%◌, ◌^◌};
ghost use Rattle.source_flags.specs.InRange.{AllInRange};
ghost use Rattle.source_model.specs.Classes.{is_interface};
ghost use Rattle.source_model.specs.Flags.{assembly_words, assembly_flags_in, event_flags, field_flags, flags_of, implementation_flags, method_flags, parameter_flags_in, parameter_words, property_flags, typar_flags, type_flags};
ghost use Rattle.source_model.specs.Forest.{Forest, preorder};
ghost use Rattle.source_model.specs.Source.{Source};
ghost use Rattle.source_nodes.specs.Readers.{Reads};
ghost use Rattle.source_nodes.specs.Walk.{IsForest};

use crate::flag_rows::{Row, row_flags};
use ilasm_grammar::TreeNode;
use source_nodes::reader::Reader;

/// Those of a class: their lowest 32 bits, which are all of them where each number is in its range.
pub fn type_flags(reader: &Reader, nodes: &[TreeNode]) -> u32
    requires { IsForest nodes.now }
    ensures low { (s : Source) (f : Forest) → Reads reader.now s → preorder f ≡ nodes.now → result ≡ type_flags s f % 2 ^ 32 }
    ensures all { (s : Source) (f : Forest) → Reads reader.now s → preorder f ≡ nodes.now → AllInRange s f → result ≡ type_flags s f }
{
    row_flags(reader, Row::Class, nodes)
}

/// Whether a class is an interface.
pub fn is_interface(reader: &Reader, nodes: &[TreeNode]) -> bool
    requires { IsForest nodes.now }
    ensures { (s : Source) (f : Forest) → Reads reader.now s → preorder f ≡ nodes.now → result ≡ is_interface s f }
{
    type_flags(reader, nodes) & 0x20 != 0
}

/// Those of an assembly without what its key says: their lowest 32 bits, which are all of them where each number is in its range.
pub fn assembly_flags(reader: &Reader, nodes: &[TreeNode]) -> u32
    requires { IsForest nodes.now }
    ensures low { (s : Source) (f : Forest) → Reads reader.now s → preorder f ≡ nodes.now → result ≡ flags_of s assembly_words (assembly_flags_in f) % 2 ^ 32 }
    ensures all { (s : Source) (f : Forest) → Reads reader.now s → preorder f ≡ nodes.now → AllInRange s f → result ≡ flags_of s assembly_words (assembly_flags_in f) }
{
    row_flags(reader, Row::Assembly, nodes)
}

/// Those of a field: their lowest 16 bits, which are all of them where each number is in its range.
pub fn field_flags(reader: &Reader, nodes: &[TreeNode]) -> u16
    requires { IsForest nodes.now }
    ensures low { (s : Source) (f : Forest) → Reads reader.now s → preorder f ≡ nodes.now → result ≡ field_flags s f % 2 ^ 16 }
    ensures all { (s : Source) (f : Forest) → Reads reader.now s → preorder f ≡ nodes.now → AllInRange s f → result ≡ field_flags s f }
{
    let flags = low(row_flags(reader, Row::Field, nodes));
    flags - (flags & 0x8100)
}

/// Those of a method: their lowest 16 bits, which are all of them where each number is in its range.
pub fn method_flags(reader: &Reader, nodes: &[TreeNode]) -> u16
    requires { IsForest nodes.now }
    ensures low { (s : Source) (f : Forest) → Reads reader.now s → preorder f ≡ nodes.now → result ≡ method_flags s f % 2 ^ 16 }
    ensures all { (s : Source) (f : Forest) → Reads reader.now s → preorder f ≡ nodes.now → AllInRange s f → result ≡ method_flags s f }
{
    low(row_flags(reader, Row::Method, nodes))
}

/// Those of a method's implementation: their lowest 16 bits, which are all of them where each number is in its range.
pub fn implementation_flags(reader: &Reader, nodes: &[TreeNode]) -> u16
    requires { IsForest nodes.now }
    ensures low { (s : Source) (f : Forest) → Reads reader.now s → preorder f ≡ nodes.now → result ≡ implementation_flags s f % 2 ^ 16 }
    ensures all { (s : Source) (f : Forest) → Reads reader.now s → preorder f ≡ nodes.now → AllInRange s f → result ≡ implementation_flags s f }
{
    low(row_flags(reader, Row::Implementation, nodes))
}

/// Those of a parameter before lines of `.param` add to them: their lowest 16 bits, which are all of them where each number is in its range.
pub fn parameter_flags(reader: &Reader, nodes: &[TreeNode]) -> u16
    requires { IsForest nodes.now }
    ensures low { (s : Source) (f : Forest) → Reads reader.now s → preorder f ≡ nodes.now → result ≡ flags_of s parameter_words (parameter_flags_in f) % 2 ^ 16 }
    ensures all { (s : Source) (f : Forest) → Reads reader.now s → preorder f ≡ nodes.now → AllInRange s f → result ≡ flags_of s parameter_words (parameter_flags_in f) }
{
    low(row_flags(reader, Row::Parameter, nodes))
}

/// Those of a property: their lowest 16 bits, which are all of them where each number is in its range.
pub fn property_flags(reader: &Reader, nodes: &[TreeNode]) -> u16
    requires { IsForest nodes.now }
    ensures low { (s : Source) (f : Forest) → Reads reader.now s → preorder f ≡ nodes.now → result ≡ property_flags s f % 2 ^ 16 }
    ensures all { (s : Source) (f : Forest) → Reads reader.now s → preorder f ≡ nodes.now → AllInRange s f → result ≡ property_flags s f }
{
    let flags = low(row_flags(reader, Row::Property, nodes));
    flags - (flags & 0x1000)
}

/// Those of an event: their lowest 16 bits, which are all of them where each number is in its range.
pub fn event_flags(reader: &Reader, nodes: &[TreeNode]) -> u16
    requires { IsForest nodes.now }
    ensures low { (s : Source) (f : Forest) → Reads reader.now s → preorder f ≡ nodes.now → result ≡ event_flags s f % 2 ^ 16 }
    ensures all { (s : Source) (f : Forest) → Reads reader.now s → preorder f ≡ nodes.now → AllInRange s f → result ≡ event_flags s f }
{
    low(row_flags(reader, Row::Property, nodes))
}

/// Those of a generic parameter: their lowest 16 bits, which are all of them where each number is in its range.
pub fn typar_flags(reader: &Reader, nodes: &[TreeNode]) -> u16
    requires { IsForest nodes.now }
    ensures low { (s : Source) (f : Forest) → Reads reader.now s → preorder f ≡ nodes.now → result ≡ typar_flags s f % 2 ^ 16 }
    ensures all { (s : Source) (f : Forest) → Reads reader.now s → preorder f ≡ nodes.now → AllInRange s f → result ≡ typar_flags s f }
{
    low(row_flags(reader, Row::Typar, nodes))
}

// The lowest 16 bits.
fn low(flags: u32) -> u16
    ensures { result ≡ flags % 2 ^ 16 }
{
    (flags % 0x1_0000) as u16
}
