ghost use Rattle.std.specs.Prelude.{◌≡◌, nat_le};
ghost use Rattle.std.specs.List.{list_all};
ghost use Rattle.assembly_tree.specs.WellFormedMembers.{are_impl_flags, is_param_before, are_params, is_method_head, is_method};

use super::formed_parts::Formed;
use super::lists::{Before, are_rising};
use super::members::is_clear;
use super::names::is_name;
use super::references::are_plain_refs;
use super::signatures::is_declaration;
use crate::{Assembly, Method, Param, Params};

impl Before for Param {
    ghost before = { is_param_before };

    fn is_before(&self, other: &Param) -> bool {
        self.number < other.number
    }
}

/// Whether the parameters rise strictly by number, up to that of the signature's.
fn are_params(count: usize, params: &Params) -> bool
    ensures { result ≡ are_params count params.now }
{
    are_rising(params.as_slice()) && are_up_to(count, params)
}

/// Whether no parameter's number is above `count`.
fn are_up_to(count: usize, params: &Params) -> bool
    ensures { result ≡ list_all (λ p. nat_le p.number count) params.now }
{
    params
        .as_slice()
        .iter()
        .all(|param| param.number as usize <= count)
}

/// Whether code type and management are those of the profile.
fn are_impl_flags(flags: u16) -> bool
    ensures { result ≡ are_impl_flags flags }
{
    (is_clear(3, flags) || flags & 3 == 3) && is_clear(4, flags)
}

impl Method {
    /// Whether name, flags, signature and parameters meet their conditions.
    #[tactic(auto, unfolding(crate::specs::WellFormedMembers::is_method_head))]
    fn is_head_formed(&self, a: &Assembly) -> bool
        ensures { result ≡ is_method_head a.now self.now }
    {
        is_name(&self.name)
            && are_impl_flags(self.impl_flags)
            && is_declaration(self.generics.len(), &self.sig)
            && self.sig.is_formed(a)
            && are_params(self.sig.params.len(), &self.params)
    }
}

impl Formed for Method {
    ghost formed = { is_method };

    #[tactic(auto, unfolding(crate::specs::WellFormedMembers::is_method))]
    fn is_formed(&self, a: &Assembly) -> bool {
        self.is_head_formed(a)
            && self.generics.is_formed(a)
            && self.params.is_formed(a)
            && are_plain_refs(a, &self.overrides)
            && self.body.is_formed(a)
            && self.attributes.is_formed(a)
    }
}
