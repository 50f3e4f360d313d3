ghost use Rattle.std.specs.Prelude.{◌≡◌};
ghost use Rattle.assembly_tree.specs.WellFormedTerms.{are_arguments, is_method_ref, is_plain_ref, is_field_ref};
ghost use Rattle.std.specs.List.{list_all};

use super::formed_parts::Formed;
use super::names::is_name;
use crate::Assembly;
use il_lists::Items;
use type_terms::{FieldRef, MethodRef, MethodRefs, Types};

/// Whether there are no arguments, or at least one and as many as the generic number.
fn are_arguments(generic: u32, args: &Option<Types>) -> bool
    ensures { result ≡ are_arguments generic args.now }
{
    match args {
        None => true,
        Some(args) => args.len() > 0 && args.len() == generic as usize,
    }
}

impl Formed for MethodRef {
    ghost formed = { is_method_ref };

    #[tactic(auto, unfolding(crate::specs::WellFormedTerms::is_method_ref))]
    fn is_formed(&self, a: &Assembly) -> bool {
        is_name(&self.name)
            && are_arguments(self.sig.generic, &self.args)
            && self.owner.is_formed(a)
            && self.sig.is_formed(a)
            && self.args.is_formed(a)
    }
}

/// Whether the reference meets its conditions and has no arguments.
#[tactic(auto, unfolding(crate::specs::WellFormedTerms::is_plain_ref))]
pub fn is_plain_ref(a: &Assembly, method: &MethodRef) -> bool
    ensures { result ≡ is_plain_ref a.now method.now }
{
    method.args.is_none() && method.is_formed(a)
}

/// Whether that is so of each reference.
pub fn are_plain_refs(a: &Assembly, methods: &MethodRefs) -> bool
    ensures { result ≡ list_all (is_plain_ref a.now) methods.now }
{
    methods
        .as_slice()
        .iter()
        .all(|method| is_plain_ref(a, method))
}

impl Formed for FieldRef {
    ghost formed = { is_field_ref };

    #[tactic(auto, unfolding(crate::specs::WellFormedTerms::is_field_ref))]
    fn is_formed(&self, a: &Assembly) -> bool {
        is_name(&self.name) && self.owner.is_formed(a) && self.of.is_formed(a)
    }
}
