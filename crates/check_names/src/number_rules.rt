//! Numbers out of their ranges in the manifest, in flags, constants and layouts (ECMA-335 II.6.2, II.10.7, II.16.2, II.23.1,
//! II.25.2.3).

ghost use Rattle.std.specs.Prelude.{◌≡◌};
ghost use Rattle.source_model.specs.Constants.{bits_of, const_token};
ghost use Rattle.source_model.specs.Flags.{flags_token};
ghost use Rattle.source_model.specs.Forest.{Forest, preorder};
ghost use Rattle.source_model.specs.Nodes.{Node};
ghost use Rattle.source_model.specs.OutOfRange.{constant_out_of_range, flags_out_of_range, layout_number_out_of_range, manifest_number_out_of_range};
ghost use Rattle.source_model.specs.Source.{Source};
ghost use Rattle.source_model.specs.Types.{int_type};
ghost use Rattle.source_nodes.specs.Least.{least};
ghost use Rattle.check_visitor.specs.NumberTests.{bits_in, place_out_of_range, unsigned_bits, version_out_of_range};
ghost use Rattle.source_nodes.specs.Readers.{Reads};
ghost use Rattle.source_nodes.specs.Walk.{IsForest};

use check_visitor::ranges::{Limit, Test, Width, beyond_in_each, failing, outside, outside_width};
use ilasm_grammar::{TreeNode, productions};
use source_nodes::least::sooner;
use source_nodes::reader::Reader;
use source_nodes::walk::{child, has, last_token, leaf_at, the};

/// The least number of the manifest that is out of its range, where this production is one of its lines.
pub fn manifest_number(reader: &Reader, production: u16, below: &[TreeNode]) -> Option<u32>
    requires { IsForest below.now }
    ensures { (s : Source) (n : Node) → Reads reader.now s → n.production ≡ production → preorder n.below ≡ below.now → result ≡ least (manifest_number_out_of_range s n) }
{
    match production {
        productions::KEY_VER => version_number(reader, below),
        productions::DECL_SUBSYSTEM => outside(reader, leaf_at(below, 1), 0, 0xFFFF),
        productions::DECL_STACKRESERVE => outside(reader, leaf_at(below, 1), 0, 0xFFFF_FFFF),
        productions::ASSEMBLY_ITEM_HASH => outside(reader, leaf_at(below, 2), 0, 0xFFFF_FFFF),
        productions::DECL_IMAGEBASE => failing(reader, leaf_at(below, 1), Test::ImageBase),
        productions::DECL_FILE => failing(reader, leaf_at(below, 2), Test::FileAlignment),
        productions::DECL_CORFLAGS => failing(reader, leaf_at(below, 1), Test::CorFlags),
        _ => None,
    }
}

// The least part of a version that is out of its range.
fn version_number(reader: &Reader, below: &[TreeNode]) -> Option<u32>
    requires { IsForest below.now }
    ensures { (s : Source) (f : Forest) → Reads reader.now s → preorder f ≡ below.now → result ≡ least (version_out_of_range s f) }
{
    let major = outside(reader, leaf_at(below, 1), 0, 0xFFFF);
    let minor = outside(reader, leaf_at(below, 3), 0, 0xFFFF);
    let build = outside(reader, leaf_at(below, 5), 0, 0xFFFF);
    let revision = outside(reader, leaf_at(below, 7), 0, 0xFFFF);
    sooner(major, sooner(minor, sooner(build, revision)))
}

/// The number of `flags(n)` that is out of its range, where this production holds it.
pub fn flags_number(reader: &Reader, production: u16, below: &[TreeNode]) -> Option<u32>
    requires { IsForest below.now }
    ensures { (s : Source) (n : Node) → Reads reader.now s → n.production ≡ production → preorder n.below ≡ below.now → result ≡ least (flags_out_of_range s n) }
{
    match production {
        productions::ASSEMBLY_ATTR_FLAGS | productions::CLASS_ATTR_FLAGS => {
            outside(reader, flags_token(below), 0, 0xFFFF_FFFF)
        }
        productions::IMPL_ATTR_FLAGS => failing(reader, flags_token(below), Test::Implementation),
        productions::FIELD_ATTR_FLAGS
        | productions::METHOD_ATTR_FLAGS
        | productions::TYPAR_ATTR_FLAGS
        | productions::PROPERTY_ATTR_FLAGS
        | productions::FLAGS_OPT_SOME => outside(reader, flags_token(below), 0, 0xFFFF),
        _ => None,
    }
}

/// The token of the number of `flags(n)`.
pub fn flags_token(nodes: &[TreeNode]) -> u32
    requires { IsForest nodes.now }
    ensures { (f : Forest) → preorder f ≡ nodes.now → result ≡ flags_token f }
{
    leaf_at(the(nodes, productions::FLAGS), 2)
}

/// The number of a constant that is out of its range, where this production is one.
pub fn constant_number(reader: &Reader, production: u16, below: &[TreeNode]) -> Option<u32>
    requires { IsForest below.now }
    ensures { (s : Source) (n : Node) → Reads reader.now s → n.production ≡ production → preorder n.below ≡ below.now → result ≡ least (constant_out_of_range s n) }
{
    match production {
        productions::CONST_INT_TYPE => {
            outside_width(reader, const_token(below), int_width(below))
        }
        productions::CONST_FLOAT32 => outside_width(reader, const_token(below), Width::Bits32),
        productions::CONST_FLOAT64 => outside_width(reader, const_token(below), Width::Bits64),
        productions::CONST_CHAR => outside(reader, const_token(below), 0, 0xFFFF),
        _ => None,
    }
}

// The number in a constant's parentheses: the last token but one.
fn const_token(nodes: &[TreeNode]) -> u32
    requires { IsForest nodes.now }
    ensures { (f : Forest) → preorder f ≡ nodes.now → result ≡ const_token f }
{
    last_token(nodes).saturating_sub(1)
}

/// The width of an integer type.
pub fn int_width(nodes: &[TreeNode]) -> Width
    requires { IsForest nodes.now }
    ensures { (f : Forest) → preorder f ≡ nodes.now → bits_in result ≡ bits_of (int_type f) }
{
    if has(nodes, productions::INT_TYPE_INT8) {
        Width::Bits8
    } else if has(nodes, productions::INT_TYPE_INT16) {
        Width::Bits16
    } else if has(nodes, productions::INT_TYPE_INT32) {
        Width::Bits32
    } else if has(nodes, productions::INT_TYPE_INT64) {
        Width::Bits64
    } else {
        unsigned_width(nodes)
    }
}

// The same of one without a sign.
fn unsigned_width(nodes: &[TreeNode]) -> Width
    requires { IsForest nodes.now }
    ensures { (f : Forest) → preorder f ≡ nodes.now → bits_in result ≡ unsigned_bits f }
{
    if has(nodes, productions::INT_TYPE_UINT8) || has(nodes, productions::UNSIGNED_INT_INT8) {
        Width::Bits8
    } else if has(nodes, productions::INT_TYPE_UINT16)
        || has(nodes, productions::UNSIGNED_INT_INT16)
    {
        Width::Bits16
    } else if has(nodes, productions::INT_TYPE_UINT32)
        || has(nodes, productions::UNSIGNED_INT_INT32)
    {
        Width::Bits32
    } else {
        Width::Bits64
    }
}

/// The least number of a layout that is out of its range, where this production has one.
pub fn layout_number(reader: &Reader, production: u16, below: &[TreeNode]) -> Option<u32>
    requires { IsForest below.now }
    ensures { (s : Source) (n : Node) → Reads reader.now s → n.production ≡ production → preorder n.below ≡ below.now → result ≡ least (layout_number_out_of_range s n) }
{
    match production {
        productions::MEMBER_PACK => failing(reader, leaf_at(below, 1), Test::Pack),
        productions::MEMBER_SIZE => outside(reader, leaf_at(below, 1), 0, 0xFFFF_FFFF),
        productions::FIELD => field_place(reader, below),
        _ => None,
    }
}

// The place of a field that is out of its range.
fn field_place(reader: &Reader, below: &[TreeNode]) -> Option<u32>
    requires { IsForest below.now }
    ensures { (s : Source) (f : Forest) → Reads reader.now s → preorder f ≡ below.now → result ≡ least (place_out_of_range s f) }
{
    let place = child(below, productions::BRACKETED_INT_OPT_SOME);
    beyond_in_each(
        reader,
        place,
        productions::BRACKETED_INT,
        Limit::UpTo(0xFFFF_FFFF),
    )
}
