//! What a reference or a property can't have: generic arguments where no column holds them, and `...`, `explicit` and `vararg`
//! of a property (ECMA-335 II.17, II.22.10, II.22.27, II.22.28, II.23.2.5).

ghost use Rattle.std.specs.Prelude.{◌≡◌};
ghost use Rattle.source_model.specs.Forest.{Forest, preorder};
ghost use Rattle.source_model.specs.Nodes.{Node};
ghost use Rattle.source_model.specs.OutOfRange.{barred_arguments, barred_in_property};
ghost use Rattle.source_model.specs.Signatures.{conventions, ellipses, generic_arguments_token, not_in_property};
ghost use Rattle.source_model.specs.Source.{Source};
ghost use Rattle.source_model.specs.TypeRules.{parameter_flags_out_of_range};
ghost use Rattle.source_nodes.specs.Least.{least};
ghost use Rattle.source_nodes.specs.Readers.{Reads};
ghost use Rattle.source_nodes.specs.Walk.{IsForest};

use crate::number_rules::flags_token;
use check_visitor::ranges::outside;
use check_visitor::repeats::{Pick, first_of_parts};
use ilasm_grammar::{TreeNode, productions};
use source_nodes::least::sooner;
use source_nodes::reader::Reader;
use source_nodes::walk::{child, has, leaf_at, the};

/// The number of a parameter's `flags(n)` that is out of its range.
pub fn parameter_flags_number(reader: &Reader, production: u16, below: &[TreeNode]) -> Option<u32>
    requires { IsForest below.now }
    ensures { (s : Source) (n : Node) → Reads reader.now s → n.production ≡ production → preorder n.below ≡ below.now → result ≡ least (parameter_flags_out_of_range s n) }
{
    match production {
        productions::PARAM_ATTR_FLAGS => outside(reader, flags_token(below), 0, 0xFFFF),
        _ => None,
    }
}

/// The `<` of generic arguments of an attribute, an overridden method or an accessor.
pub fn barred_argument(production: u16, below: &[TreeNode]) -> Option<u32>
    requires { IsForest below.now }
    ensures { (n : Node) → n.production ≡ production → preorder n.below ≡ below.now → result ≡ least (barred_arguments n) }
{
    match production {
        productions::CUSTOM
        | productions::OVERRIDDEN_METHOD
        | productions::PROPERTY_ITEM_GET
        | productions::PROPERTY_ITEM_SET
        | productions::PROPERTY_ITEM_OTHER
        | productions::EVENT_ITEM_ADDON
        | productions::EVENT_ITEM_REMOVEON
        | productions::EVENT_ITEM_FIRE
        | productions::EVENT_ITEM_OTHER => {
            generic_arguments(the(below, productions::METHOD_REF))
        }
        _ => None,
    }
}

/// The `<` of a reference's generic arguments.
pub fn generic_arguments(reference: &[TreeNode]) -> Option<u32>
    requires { IsForest reference.now }
    ensures { (f : Forest) → preorder f ≡ reference.now → result ≡ least (generic_arguments_token f) }
{
    let generics = the(reference, productions::METHOD_GENERICS);
    if has(generics, productions::GEN_ARGS_TYPE) {
        Some(leaf_at(generics, 0))
    } else {
        None
    }
}

/// The least `...`, `explicit` or `vararg` of a property.
pub fn barred_of_property(production: u16, below: &[TreeNode]) -> Option<u32>
    requires { IsForest below.now }
    ensures { (n : Node) → n.production ≡ production → preorder n.below ≡ below.now → result ≡ least (barred_in_property n) }
{
    match production {
        productions::PROPERTY => not_in_property(below),
        _ => None,
    }
}

/// The same, from what stands below the property's production.
pub fn not_in_property(property: &[TreeNode]) -> Option<u32>
    requires { IsForest property.now }
    ensures { (f : Forest) → preorder f ≡ property.now → result ≡ least (not_in_property f) }
{
    sooner(ellipsis(property), convention(property))
}

fn ellipsis(property: &[TreeNode]) -> Option<u32>
    requires { IsForest property.now }
    ensures { (f : Forest) → preorder f ≡ property.now → result ≡ least (ellipses f) }
{
    let signature = child(property, productions::SIGNATURE);
    first_of_parts(signature, productions::SIG_ARG_ELLIPSIS, Pick::First, 0)
}

fn convention(property: &[TreeNode]) -> Option<u32>
    requires { IsForest property.now }
    ensures { (f : Forest) → preorder f ≡ property.now → result ≡ least (conventions f) }
{
    let conv = child(property, productions::CALL_CONV);
    let explicit = first_of_parts(conv, productions::EXPLICIT_OPT_SOME, Pick::First, 0);
    let vararg = first_of_parts(conv, productions::CALL_KIND_VARARG, Pick::First, 0);
    sooner(explicit, vararg)
}
