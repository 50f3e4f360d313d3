//! The layouts of classes (ECMA-335 II.10.7, II.22.8).

ghost use Rattle.std.specs.Prelude.{◌≡◌, ◌<◌, ◌^◌, ◌⊎◌, IfSome, List};
ghost use Rattle.std.specs.List.{AllByRecursion};
ghost use Rattle.ilasm_grammar.specs.declared.productions.TheConstants.{MEMBER_PACK, MEMBER_SIZE};
ghost use Rattle.lower_members.specs.Layouts.{last_member, layout_of, number_or};
ghost use Rattle.param_lines.specs.Ranged.{IsRanged};
ghost use Rattle.source_flags.specs.InRange.{AllInRange};
ghost use Rattle.source_model.specs.Data.{layout};
ghost use Rattle.source_model.specs.Forest.{Forest, Part, preorder};
ghost use Rattle.source_model.specs.Items.{members};
ghost use Rattle.source_model.specs.Source.{Source};
ghost use Rattle.source_nodes.specs.Pieces.{ArePieces, AreParts};
ghost use Rattle.source_nodes.specs.Readers.{Reads};
ghost use Rattle.source_nodes.specs.Walk.{IsForest};

use assembly_tree::Layout;
use ilasm_grammar::TreeNode;
use ilasm_grammar::productions::{MEMBER_PACK, MEMBER_SIZE};
use source_flags::naturals::{natural_32, short_of};
use source_nodes::pieces::{Piece, nodes_of};
use source_nodes::reader::Reader;
use source_nodes::walk::leaf_at;

/// The layout of a class, where a line among its members gives it one, from what stands below its production.
pub fn layout(reader: &Reader, nodes: &[TreeNode], found: &[Piece]) -> Option<Layout>
    requires { AreParts nodes.now found.now }
    ensures { (s : Source) (f : Forest) → Reads reader.now s → ArePieces nodes.now found.now (members f) → AllInRange s f → result ≡ layout s f }
{
    let pack = last_number(reader, nodes, found, MEMBER_PACK);
    let size = last_number(reader, nodes, found, MEMBER_SIZE);
    layout_of(pack, size)
}

// The layout that a packing size and a class size give; one of the two that is missing is 0.
fn layout_of(pack: Option<u32>, size: Option<u32>) -> Option<Layout>
    ensures { IfSome pack (λ n. n < 2 ^ 16) → result ≡ layout_of pack size }
{
    match (pack, size) {
        (None, None) => None,
        (Some(pack), None) => Some(Layout {
            pack: short_of(pack),
            size: 0,
        }),
        (None, Some(size)) => Some(Layout { pack: 0, size }),
        (Some(pack), Some(size)) => Some(Layout {
            pack: short_of(pack),
            size,
        }),
    }
}

// The number of the last member of a production, where there is one.
fn last_number(
    reader: &Reader,
    nodes: &[TreeNode],
    members: &[Piece],
    production: u16,
) -> Option<u32>
    requires { AreParts nodes.now members.now }
    ensures { (s : Source) (ps : List Part) → Reads reader.now s → ArePieces nodes.now members.now ps → AllByRecursion (IsRanged s) ps →
        (production ≡ MEMBER_PACK) ⊎ (production ≡ MEMBER_SIZE) → result ≡ last_member s production ps }
{
    let mut last = None;
    for member in members {
        let below = nodes_of(nodes, *member);
        last = number_or(reader, production, member.production, below, last);
    }
    last
}

// The number of a member, where it is of a production; else the one before.
fn number_or(
    reader: &Reader,
    production: u16,
    made: u16,
    below: &[TreeNode],
    before: Option<u32>,
) -> Option<u32>
    requires { IsForest below.now }
    ensures { (s : Source) (p : Part) → Reads reader.now s → made ≡ p.production → preorder p.below ≡ below.now → IsRanged s p →
        (production ≡ MEMBER_PACK) ⊎ (production ≡ MEMBER_SIZE) → result ≡ number_or s production before p }
{
    if made == production {
        Some(natural_32(reader, leaf_at(below, 1)))
    } else {
        before
    }
}
