//! The suffixes of types that hold no owner (ECMA-335 II.7.1, II.14.2).

ghost use Rattle.std.specs.Prelude.{◌≡◌, ◌<◌, ◌^◌, IfOk, length, map, true, false};
ghost use Rattle.type_terms.specs.declared.term.SigType.{Array};
ghost use Rattle.ilasm_grammar.specs.declared.productions.TheConstants.{TYPE_SUFFIX_BRACKET, TYPE_SUFFIX_MODOPT, TYPE_SUFFIX_MODREQ};
ghost use Rattle.source_model.specs.Forest.{Forest, preorder};
ghost use Rattle.source_model.specs.Nodes.{Around};
ghost use Rattle.source_model.specs.Shapes.{lower_bounds, sizes};
ghost use Rattle.source_model.specs.Source.{Source};
ghost use Rattle.source_model.specs.Types.{array};
ghost use Rattle.source_nodes.specs.Dimensions.{AreInRange, bound_of};
ghost use Rattle.source_syntax.specs.Places.{IsAt, IsReadable, IsSound};
ghost use Rattle.source_nodes.specs.Readers.{Reads};
ghost use Rattle.source_syntax.specs.Suffixes.{IsSoundAt, is_suffix, suffix_at};
ghost use Rattle.source_nodes.specs.Walk.{IsForest, is_of};

use crate::place::Place;
use il_base::{Boxed, NoMemory};
use ilasm_grammar::TreeNode;
use ilasm_grammar::productions::{
    SHAPE_CLOSE, TYPE_SUFFIX_AMPERSAND, TYPE_SUFFIX_PINNED, TYPE_SUFFIX_STAR,
};
use source_nodes::narrowing::word_of;
use source_nodes::reader::Reader;
use source_nodes::shapes::{Dimension, dimensions};
use source_nodes::walk::{has, is_of};
use std::alloc::Global;
use type_terms::SigType;

impl<'a> Place<'a> {
    /// A type with a suffix around it that holds no owner.
    pub fn with_plain_suffix(
        &self,
        alloc: Global,
        node: TreeNode,
        nodes: &[TreeNode],
        of: SigType,
    ) -> Result<SigType, NoMemory>
        requires forest { IsForest nodes.now }
        requires few { length nodes.now < 2 ^ 32 }
        ensures { (s : Source) (a : Around) → IsAt self.now s a → (f : Forest) → preorder f ≡ nodes.now → is_suffix node ≡ true →
            is_of TYPE_SUFFIX_MODREQ node ≡ false → is_of TYPE_SUFFIX_MODOPT node ≡ false → IsSoundAt s node f → IsReadable s f →
            IfOk result (λ with. with ≡ suffix_at s a node f of) }
    {
        let of = Boxed::new(alloc, of)?;
        if is_of(node, TYPE_SUFFIX_AMPERSAND) {
            return Ok(SigType::ByRef(of));
        }
        if is_of(node, TYPE_SUFFIX_STAR) {
            return Ok(SigType::Pointer(of));
        }
        if is_of(node, TYPE_SUFFIX_PINNED) {
            return Ok(SigType::Pinned(of));
        }
        self.array(alloc, nodes, of)
    }

    /// An array, from what stands below its production: a vector, or one with a shape.
    fn array(
        &self,
        alloc: Global,
        nodes: &[TreeNode],
        of: Boxed<SigType>,
    ) -> Result<SigType, NoMemory>
        requires forest { IsForest nodes.now }
        requires few { length nodes.now < 2 ^ 32 }
        ensures { (s : Source) (a : Around) → IsAt self.now s a → (f : Forest) → preorder f ≡ nodes.now → IsSound s TYPE_SUFFIX_BRACKET f →
            IfOk result (λ with. with ≡ array s f of) }
    {
        if has(nodes, SHAPE_CLOSE) {
            return Ok(SigType::SzArray(of));
        }
        let dimensions = dimensions(alloc, nodes)?;
        shaped(alloc, &self.reader, dimensions.as_slice(), of)
    }
}

// An array with these dimensions.
fn shaped(
    alloc: Global,
    reader: &Reader,
    dimensions: &[Dimension],
    of: Boxed<SigType>,
) -> Result<SigType, NoMemory>
    ensures { IfOk result (λ with. (s : Source) → Reads reader.now s → length dimensions.now < 2 ^ 32 → AreInRange s (map bound_of dimensions.now) →
        with ≡ Array of (length dimensions.now) (sizes s (map bound_of dimensions.now)) (lower_bounds s (map bound_of dimensions.now))) }
{
    let sizes = reader.sizes(alloc, dimensions)?;
    let lower = reader.lower_bounds(alloc, dimensions)?;
    let sizes = Boxed::new(alloc, sizes)?;
    let lower = Boxed::new(alloc, lower)?;
    Ok(SigType::Array {
        of,
        rank: word_of(dimensions.len()),
        sizes,
        lower,
    })
}
