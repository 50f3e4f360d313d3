//! The methods that a method overrides (ECMA-335 II.10.3.2).

ghost use Rattle.std.specs.Prelude.{◌≡◌, ◌==◌, ◌<◌, ◌^◌, IfOk, length, map, true};
ghost use Rattle.source_flags.specs.InRange.{AllInRange, IsInRange};
ghost use Rattle.ilasm_grammar.specs.declared.productions.TheConstants.{OVERRIDDEN_METHOD};
ghost use Rattle.source_flags.specs.Lines.{productions_of};
ghost use Rattle.source_flags.specs.declared.gathering.Kind.TheVariants.{Overrides};
ghost use Rattle.source_model.specs.Forest.{Forest, Part, is_among, parts, preorder};
ghost use Rattle.source_model.specs.Members.{overridden};
ghost use Rattle.source_model.specs.Nodes.{Around};
ghost use Rattle.source_model.specs.Source.{Source};
ghost use Rattle.source_syntax.specs.Places.{IsAt};
ghost use Rattle.source_nodes.specs.Walk.{IsForest};

use il_base::{Items, NoMemory};
use ilasm_grammar::TreeNode;
use ilasm_grammar::productions::{METHOD_REF, OVERRIDDEN_METHOD};
use source_flags::gathering::Kind;
use source_flags::outside::{Shut, parts_outside};
use source_nodes::pieces::nodes_of;
use source_nodes::walk::the;
use source_syntax::place::Place;
use source_syntax::references::method_name;
use std::alloc::Global;
use type_terms::{MethodRef, MethodRefs};

/// The methods that a method overrides, in order, from what stands below its production.
pub fn overrides(alloc: Global, place: &Place, nodes: &[TreeNode]) -> Result<MethodRefs, NoMemory>
    requires forest { IsForest nodes.now }
    requires few { length nodes.now < 2 ^ 32 }
    ensures { (s : Source) (a : Around) → IsAt place.now s a → (f : Forest) → preorder f ≡ nodes.now → AllInRange s f →
        IfOk result (λ all. all ≡ map (overridden s a f) (parts (productions_of Overrides) f)) }
{
    let found = parts_outside(alloc, nodes, Shut::Instructions, Kind::Overrides)?;
    let mut all = Items::new(alloc);
    for piece in found.as_slice() {
        let below = nodes_of(nodes, *piece);
        let one = overridden(alloc, place, nodes, piece.production, below)?;
        all.push(one)?;
    }
    Ok(all)
}

// Whether a whole reference says which method is overridden.
fn is_whole(production: u16) -> bool
    ensures { result ≡ (production == OVERRIDDEN_METHOD) }
{
    production == OVERRIDDEN_METHOD
}

// A method that another overrides: a whole reference, or a name of another type with the method's own signature.
fn overridden(
    alloc: Global,
    place: &Place,
    method: &[TreeNode],
    production: u16,
    below: &[TreeNode],
) -> Result<MethodRef, NoMemory>
    requires method { IsForest method.now }
    requires forest { IsForest below.now }
    requires few { length method.now < 2 ^ 32 }
    requires fewer { length below.now < 2 ^ 32 }
    ensures { (s : Source) (a : Around) → IsAt place.now s a → (f : Forest) (p : Part) → preorder f ≡ method.now → AllInRange s f →
        production ≡ p.production → preorder p.below ≡ below.now → is_among (productions_of Overrides) p.production ≡ true →
        IsInRange s p.production p.below → AllInRange s p.below → IfOk result (λ one. one ≡ overridden s a f p) }
{
    if is_whole(production) {
        return place.method_ref(alloc, the(below, METHOD_REF));
    }
    let owner = place.first_owner(alloc, below)?;
    let name = method_name(alloc, &place.reader, below)?;
    let sig = place.method_signature(alloc, method)?;
    Ok(MethodRef {
        owner,
        name,
        sig,
        args: None,
    })
}
