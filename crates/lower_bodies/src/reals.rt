//! The bits of real numbers in instructions (ECMA-335 III.3.40).

ghost use Rattle.std.specs.Prelude.{◌≡◌, ◌≤◌, [], IfOk, length};
ghost use Rattle.ilasm_grammar.specs.declared.productions.TheConstants.{INSTRUCTION_OP_REAL};
ghost use Rattle.source_model.specs.BodyNumbers.{real_out_of_range};
ghost use Rattle.source_model.specs.Forest.{Part, preorder};
ghost use Rattle.source_model.specs.Operands.{real_bits};
ghost use Rattle.source_model.specs.Source.{Source};
ghost use Rattle.source_model.specs.Values.{little_number};
ghost use Rattle.source_nodes.specs.Derived.{FitsBody, HasBodies};
ghost use Rattle.source_nodes.specs.Readers.{Reads};
ghost use Rattle.source_nodes.specs.Walk.{IsForest};

use il_base::NoMemory;
use ilasm_grammar::TreeNode;
use ilasm_grammar::productions::{REAL_BITS_FLOAT32, REAL_BITS_FLOAT64, REAL_BITS_REAL_BYTES};
use lower_manifest::wrapping::low_32;
use source_nodes::reader::Reader;
use source_nodes::walk::{has, leaf_at, the};
use std::alloc::Global;

/// The bits of the real number of an instruction, from the nodes below its production.
pub fn real_bits(alloc: Global, reader: &Reader, nodes: &[TreeNode]) -> Result<u64, NoMemory>
    requires { IsForest nodes.now }
    ensures { (s : Source) (p : Part) → Reads reader.now s → FitsBody s INSTRUCTION_OP_REAL p.below → HasBodies s p.below → preorder p.below ≡ nodes.now →
        real_out_of_range s p ≡ [] → IfOk result (λ bits. bits ≡ real_bits s p.below) }
{
    if has(nodes, REAL_BITS_FLOAT32) {
        let token = leaf_at(the(nodes, REAL_BITS_FLOAT32), 2);
        return Ok(u64::from(low_32(reader.wrapped_integer(token))));
    }
    if has(nodes, REAL_BITS_FLOAT64) {
        let token = leaf_at(the(nodes, REAL_BITS_FLOAT64), 2);
        return Ok(reader.wrapped_integer(token));
    }
    let token = leaf_at(the(nodes, REAL_BITS_REAL_BYTES), 0);
    let bytes = reader.real_bytes(alloc, token)?;
    Ok(little_number(bytes.as_slice()))
}

// The number that up to 8 bytes spell, the lowest first.
fn little_number(bytes: &[u8]) -> u64
    ensures { length bytes.now ≤ 8 → result ≡ little_number bytes.now }
{
    let mut number: u64 = 0;
    let mut more = bytes.len();
    while more > 0 {
        more -= 1;
        number = number
            .wrapping_mul(256)
            .wrapping_add(u64::from(bytes[more]));
    }
    number
}
