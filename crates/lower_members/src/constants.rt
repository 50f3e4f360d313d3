//! Constants (ECMA-335 II.16.2, II.22.9).

ghost use Rattle.std.specs.Prelude.{◌≡◌, IfOk};
ghost use Rattle.assembly_tree.specs.declared.members.Constant.TheVariants as constant;
ghost use Rattle.il_lexer.specs.declared.types.TokenKind.TheVariants.{ByteArray};
ghost use Rattle.lower_members.specs.Constants.{other_constant};
ghost use Rattle.source_flags.specs.InRange.{AllInRange};
ghost use Rattle.source_model.specs.Constants.{const_token, constant_in, constant_of, integer_of};
ghost use Rattle.source_model.specs.Forest.{Forest, preorder};
ghost use Rattle.source_model.specs.Source.{Source};
ghost use Rattle.source_model.specs.Types.{int_type};
ghost use Rattle.source_model.specs.Values.{array_bytes, int_at, units_of_bytes};
ghost use Rattle.source_nodes.specs.Readers.{IsOf, Reads};
ghost use Rattle.source_nodes.specs.Walk.{IsForest};

use crate::units::{units_in, units_of_bytes};
use assembly_tree::Constant;
use il_base::{NoMemory, Units};
use ilasm_grammar::TreeNode;
use ilasm_grammar::productions::{
    CONST_BOOL, CONST_BYTES, CONST_CHAR, CONST_FLOAT32, CONST_FLOAT64, CONST_INT_TYPE, CONST_TEXT,
    EQ_CONST, TEXT, TRUTH_TRUE,
};
use lower_manifest::wrapping::{integer_of, low_32};
use source_flags::naturals::natural_16;
use source_nodes::reader::Reader;
use source_nodes::walk::{has, last_token, leaf_at, the};
use source_syntax::bases::int_type;
use std::alloc::Global;

/// The constant behind `=`, where there is one.
pub fn constant_of(
    alloc: Global,
    reader: &Reader,
    nodes: &[TreeNode],
) -> Result<Option<Constant>, NoMemory>
    requires { IsForest nodes.now }
    ensures { (s : Source) (f : Forest) → Reads reader.now s → preorder f ≡ nodes.now → AllInRange s f → IfOk result (λ c. c ≡ constant_of s f) }
{
    if has(nodes, EQ_CONST) {
        let constant = constant_in(alloc, reader, the(nodes, EQ_CONST))?;
        Ok(Some(constant))
    } else {
        Ok(None)
    }
}

// A constant, from a forest that holds it.
fn constant_in(alloc: Global, reader: &Reader, nodes: &[TreeNode]) -> Result<Constant, NoMemory>
    requires { IsForest nodes.now }
    ensures { (s : Source) (f : Forest) → Reads reader.now s → preorder f ≡ nodes.now → AllInRange s f → IfOk result (λ c. c ≡ constant_in s f) }
{
    if has(nodes, CONST_INT_TYPE) {
        return Ok(int_constant(reader, the(nodes, CONST_INT_TYPE)));
    }
    if has(nodes, CONST_FLOAT32) {
        let token = const_token(the(nodes, CONST_FLOAT32));
        return Ok(Constant::Real4(low_32(reader.wrapped_integer(token))));
    }
    if has(nodes, CONST_FLOAT64) {
        let token = const_token(the(nodes, CONST_FLOAT64));
        return Ok(Constant::Real8(reader.wrapped_integer(token)));
    }
    if has(nodes, CONST_CHAR) {
        let token = const_token(the(nodes, CONST_CHAR));
        return Ok(Constant::Char(natural_16(reader, token)));
    }
    other_constant(alloc, reader, nodes)
}

// A truth, a string or no object.
fn other_constant(alloc: Global, reader: &Reader, nodes: &[TreeNode]) -> Result<Constant, NoMemory>
    requires { IsForest nodes.now }
    ensures { (s : Source) (f : Forest) → Reads reader.now s → preorder f ≡ nodes.now → AllInRange s f → IfOk result (λ c. c ≡ other_constant s f) }
{
    if has(nodes, CONST_BOOL) {
        return Ok(Constant::Bool(has(nodes, TRUTH_TRUE)));
    }
    if has(nodes, CONST_TEXT) {
        let units = units_in(alloc, reader, the(nodes, TEXT))?;
        return Ok(Constant::Str(units));
    }
    if has(nodes, CONST_BYTES) {
        let units = array_units(alloc, reader, leaf_at(the(nodes, CONST_BYTES), 0))?;
        return Ok(Constant::Str(units));
    }
    Ok(Constant::Null)
}

// The units that the bytes of `bytearray ( .. )` make.
fn array_units(alloc: Global, reader: &Reader, token: u32) -> Result<Units, NoMemory>
    ensures { (s : Source) → Reads reader.now s → IsOf s ByteArray token → IfOk result (λ units. units ≡ units_of_bytes (array_bytes s token)) }
{
    let bytes = reader.array_bytes(alloc, token)?;
    units_of_bytes(alloc, bytes.as_slice())
}

// A constant of an integer type, from what stands below its production.
fn int_constant(reader: &Reader, nodes: &[TreeNode]) -> Constant
    requires { IsForest nodes.now }
    ensures { (s : Source) (f : Forest) → Reads reader.now s → preorder f ≡ nodes.now → result ≡ constant.Int (int_type f) (integer_of (int_type f) (int_at s (const_token f))) }
{
    let of = int_type(nodes);
    let value = integer_of(of, reader.wrapped_integer(const_token(nodes)));
    Constant::Int { of, value }
}

// The token of the number in parentheses, which is the last but one.
fn const_token(nodes: &[TreeNode]) -> u32
    requires { IsForest nodes.now }
    ensures { (f : Forest) → preorder f ≡ nodes.now → result ≡ const_token f }
{
    last_token(nodes).saturating_sub(1)
}
