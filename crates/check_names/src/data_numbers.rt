//! Numbers of data that are out of their ranges (ECMA-335 II.16.3).

ghost use Rattle.std.specs.Prelude.{◌≡◌};
ghost use Rattle.source_model.specs.Data.{item_bits};
ghost use Rattle.source_model.specs.Forest.{Forest, preorder};
ghost use Rattle.source_model.specs.Nodes.{Node};
ghost use Rattle.source_model.specs.OutOfRange.{data_number_out_of_range};
ghost use Rattle.source_model.specs.Source.{Source};
ghost use Rattle.source_nodes.specs.Least.{least};
ghost use Rattle.check_visitor.specs.NumberTests.{bits_in, item_out_of_range};
ghost use Rattle.source_nodes.specs.Readers.{Reads};
ghost use Rattle.source_nodes.specs.Walk.{IsForest};

use crate::number_rules::int_width;
use check_visitor::ranges::{Limit, Width, beyond_in_each};
use ilasm_grammar::{TreeNode, productions};
use source_nodes::least::sooner;
use source_nodes::reader::Reader;
use source_nodes::walk::{has, the};

// How often an item may stand.
const MOST: u32 = 67_108_864;

/// The least number of an item of data that is out of its range.
pub fn data_number(reader: &Reader, production: u16, below: &[TreeNode]) -> Option<u32>
    requires { IsForest below.now }
    ensures { (s : Source) (n : Node) → Reads reader.now s → n.production ≡ production → preorder n.below ≡ below.now → result ≡ least (data_number_out_of_range s n) }
{
    match production {
        productions::DATA_ITEM_DATA_NUM => item_number(reader, below),
        _ => None,
    }
}

fn item_number(reader: &Reader, item: &[TreeNode]) -> Option<u32>
    requires { IsForest item.now }
    ensures { (s : Source) (f : Forest) → Reads reader.now s → preorder f ≡ item.now → result ≡ least (item_out_of_range s f) }
{
    let width = item_width(item);
    let value = beyond_in_each(
        reader,
        item,
        productions::PARENTHESIZED_INT,
        Limit::Fits(width),
    );
    let count = beyond_in_each(reader, item, productions::BRACKETED_INT, Limit::UpTo(MOST));
    sooner(value, count)
}

/// The width of the numbers of an item.
pub fn item_width(item: &[TreeNode]) -> Width
    requires { IsForest item.now }
    ensures { (f : Forest) → preorder f ≡ item.now → bits_in result ≡ item_bits f }
{
    if has(item, productions::DATA_NUM_INT_TYPE) {
        int_width(the(item, productions::DATA_NUM_INT_TYPE))
    } else if has(item, productions::DATA_NUM_FLOAT32) {
        Width::Bits32
    } else {
        Width::Bits64
    }
}
