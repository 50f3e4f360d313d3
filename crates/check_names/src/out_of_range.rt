//! Numbers and counts that are out of their ranges, outside of instructions (ECMA-335 II.6.2, II.10.7, II.14.2, II.15.4,
//! II.16.2, II.16.3, II.22, II.23.1, II.23.2, II.25.2.3).

ghost use Rattle.std.specs.Prelude.{◌≡◌, IfOk};
ghost use Rattle.source_model.specs.Forest.{preorder};
ghost use Rattle.source_model.specs.Nodes.{Node};
ghost use Rattle.source_model.specs.OutOfRange.{numbers_out_of_range};
ghost use Rattle.source_model.specs.Source.{Source};
ghost use Rattle.source_nodes.specs.Least.{least};
ghost use Rattle.source_nodes.specs.Readers.{Reads};
ghost use Rattle.source_nodes.specs.Walk.{IsForest};
ghost use Rattle.check_names.specs.ArrayNumbers.{declared_number, number_at, number_in_signature, number_in_type};

use crate::array_numbers::array_number;
use crate::barred::{barred_argument, barred_of_property, parameter_flags_number};
use crate::data_lengths::data_too_long;
use crate::data_numbers::data_number;
use crate::number_rules::{constant_number, flags_number, layout_number, manifest_number};
use crate::param_numbers::param_number;
use check_visitor::asking::{Rule, Surrounding, first_at_all};
use check_visitor::counts::{
    argument_past_most, generic_number, index_number, second_ellipsis, typar_past_most,
};
use il_base::NoMemory;
use ilasm_grammar::TreeNode;
use source_model::tokens_stand_in_order;
use source_nodes::derived::derivations_have_bodies;
use source_nodes::least::sooner;
use source_nodes::reader::Reader;
use std::alloc::Global;

/// The least number or count of a source that is out of its range.
pub fn number_out_of_range(alloc: Global, reader: &Reader) -> Result<Option<u32>, NoMemory>
    requires { IsForest reader.now.nodes.now }
    ensures { (s : Source) → Reads reader.now s → IfOk result (λ k. k ≡ least (numbers_out_of_range s)) }
{
    tokens_stand_in_order();
    derivations_have_bodies();
    let first = first_at_all(&Numbers, alloc, reader)?;
    Ok(first)
}

/// Numbers and counts are in their ranges.
pub struct Numbers;

impl Rule for Numbers {
    ghost broken = { λ _ s n. number_at s n };

    fn first(
        &self,
        alloc: Global,
        reader: &Reader,
        place: &Surrounding,
        production: u16,
        below: &[TreeNode],
    ) -> Result<Option<u32>, NoMemory> {
        let declared = declared_number(reader, production, below);
        let long = data_too_long(alloc, reader, production, below)?;
        let typed = number_in_type(alloc, reader, production, below)?;
        let to_long = sooner(declared, long);
        let to_param = sooner(to_long, param_number(reader, place, production, below));
        let to_argument = sooner(to_param, barred_argument(production, below));
        let to_property = sooner(to_argument, barred_of_property(production, below));
        let to_type = sooner(to_property, typed);
        Ok(sooner(to_type, typar_past_most(production, below)))
    }
}

// The least number of the manifest, of flags, constants, layouts and data.
fn declared_number(reader: &Reader, production: u16, below: &[TreeNode]) -> Option<u32>
    requires { IsForest below.now }
    ensures { (s : Source) (n : Node) → Reads reader.now s → n.production ≡ production → preorder n.below ≡ below.now → result ≡ least (declared_number s n) }
{
    let manifest = manifest_number(reader, production, below);
    let to_flags = sooner(manifest, flags_number(reader, production, below));
    let to_constant = sooner(to_flags, constant_number(reader, production, below));
    let to_layout = sooner(to_constant, layout_number(reader, production, below));
    sooner(to_layout, data_number(reader, production, below))
}

/// The least number or count of a type or a signature that is out of its range, where this production is a part of one, and of
/// the flags of a parameter.
fn number_in_type(
    alloc: Global,
    reader: &Reader,
    production: u16,
    below: &[TreeNode],
) -> Result<Option<u32>, NoMemory>
    requires { IsForest below.now }
    ensures { (s : Source) (n : Node) → Reads reader.now s → n.production ≡ production → preorder n.below ≡ below.now →
        IfOk result (λ k. k ≡ least (number_in_type s n)) }
{
    let signature = number_in_signature(alloc, reader, production, below)?;
    Ok(sooner(signature, parameter_flags_number(reader, production, below)))
}

/// The least number or count of a type or a signature that is out of its range, where this production is a part of one.
pub fn number_in_signature(
    alloc: Global,
    reader: &Reader,
    production: u16,
    below: &[TreeNode],
) -> Result<Option<u32>, NoMemory>
    requires { IsForest below.now }
    ensures { (s : Source) (n : Node) → Reads reader.now s → n.production ≡ production → preorder n.below ≡ below.now →
        IfOk result (λ k. k ≡ least (number_in_signature s n)) }
{
    let array = array_number(alloc, reader, production, below)?;
    let to_array = sooner(index_number(reader, production, below), array);
    let to_generic = sooner(to_array, generic_number(reader, production, below));
    let to_argument = sooner(to_generic, argument_past_most(production, below));
    let to_ellipsis = sooner(to_argument, second_ellipsis(production, below));
    Ok(to_ellipsis)
}
