ghost use Rattle.std.specs.Prelude.{◌≡◌};
ghost use Rattle.type_terms.specs.Same.{is_same_signature};
ghost use Rattle.assembly_tree.specs.WellFormedMembers.{is_same_text, is_same_field, is_same_method, is_same_property, is_same_event};
ghost use Rattle.assembly_tree.specs.WellFormedTypes.{is_same_id};

use super::lists::Same;
use crate::sizes::is_id;
use crate::{Event, Field, Method, Property, TypeDef};
use il_lists::Text;
use type_terms::MethodSig;
use type_terms::equality::{is_same_signature, is_same_type};

fn is_same_text(text: &Text, other: &Text) -> bool
    ensures { result ≡ is_same_text text.now other.now }
{
    text.as_bytes() == other.as_bytes()
}

impl Same for MethodSig {
    ghost same = { is_same_signature };

    fn is_same(&self, other: &MethodSig) -> bool {
        is_same_signature(self, other)
    }
}

impl Same for Field {
    ghost same = { is_same_field };

    #[tactic(auto, unfolding(crate::specs::WellFormedMembers::is_same_field))]
    fn is_same(&self, other: &Field) -> bool {
        is_same_text(&self.name, &other.name) && is_same_type(&self.of, &other.of)
    }
}

impl Same for Method {
    ghost same = { is_same_method };

    #[tactic(auto, unfolding(crate::specs::WellFormedMembers::is_same_method))]
    fn is_same(&self, other: &Method) -> bool {
        is_same_text(&self.name, &other.name) && self.sig.is_same(&other.sig)
    }
}

impl Same for Property {
    ghost same = { is_same_property };

    #[tactic(auto, unfolding(crate::specs::WellFormedMembers::is_same_property))]
    fn is_same(&self, other: &Property) -> bool {
        is_same_text(&self.name, &other.name) && self.sig.is_same(&other.sig)
    }
}

impl Same for Event {
    ghost same = { is_same_event };

    #[tactic(auto, unfolding(crate::specs::WellFormedMembers::is_same_event))]
    fn is_same(&self, other: &Event) -> bool {
        is_same_text(&self.name, &other.name)
    }
}

impl Same for TypeDef {
    ghost same = { is_same_id };

    fn is_same(&self, other: &TypeDef) -> bool {
        is_id(&self.id, &other.id)
    }
}
