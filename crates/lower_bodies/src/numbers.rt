//! The numbers of instructions (ECMA-335 III.2.5, III.3.40).

ghost use Rattle.std.specs.Prelude.{◌≡◌, ℤ, pos, negsuc, int_le, true};
ghost use Rattle.source_model.specs.Operands.{number_in};
ghost use Rattle.source_model.specs.Source.{Source};
ghost use Rattle.source_model.specs.Values.{int_at};
ghost use Rattle.source_nodes.specs.Readers.{Reads};

use lower_manifest::wrapping::number_in;
use opcode_table::OperandKind;
use source_nodes::reader::Reader;

/// The number that an INT spells, as an operand of this kind holds it.
pub fn number(reader: &Reader, kind: OperandKind, token: u32) -> i64
    ensures { (s : Source) → Reads reader.now s → result ≡ number_in kind (int_at s token) }
{
    signed_64(number_in(kind, reader.wrapped_integer(token)))
}

// A number of 64 bits with a sign, where it is one.
fn signed_64(value: i128) -> i64
    ensures { int_le (negsuc 0x7FFFFFFFFFFFFFFF) value ≡ true → int_le value (pos 0x7FFFFFFFFFFFFFFF) ≡ true → result ≡ value }
{
    if -0x8000_0000_0000_0000 <= value && value <= 0x7FFF_FFFF_FFFF_FFFF {
        value as i64
    } else {
        0
    }
}
