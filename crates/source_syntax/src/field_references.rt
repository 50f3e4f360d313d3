//! References to fields (ECMA-335 II.16.1.3, II.23.2.4).

ghost use Rattle.std.specs.Prelude.{◌≡◌, IfOk};
ghost use Rattle.ilasm_grammar.specs.declared.productions.TheConstants.{FIELD_REF, FIELD_TARGET_NAME, FIELD_TARGET_SCOPE, FIELD_TARGET_TYPE};
ghost use Rattle.source_model.specs.Forest.{Forest, preorder};
ghost use Rattle.source_model.specs.Nodes.{Around};
ghost use Rattle.source_model.specs.References.{field_ref, owner_of};
ghost use Rattle.source_model.specs.Source.{Source};
ghost use Rattle.source_syntax.specs.Places.{IsAt, IsReadable, IsSound};
ghost use Rattle.source_nodes.specs.Walk.{IsForest};

use crate::place::Place;
use il_base::NoMemory;
use ilasm_grammar::TreeNode;
use ilasm_grammar::productions::{
    FIELD_TAIL_DOUBLE_COLON, FIELD_TAIL_SLASH, FIELD_TARGET_NAME, FIELD_TARGET_SCOPE,
    FIELD_TARGET_TYPE,
};
use source_nodes::walk::{child, has, last_token};
use std::alloc::Global;
use type_terms::{FieldRef, Owner};

impl<'a> Place<'a> {
    /// A reference to a field, from what stands below its production.
    pub fn field_ref(&self, alloc: Global, nodes: &[TreeNode]) -> Result<FieldRef, NoMemory>
        requires { IsForest nodes.now }
        ensures { (s : Source) (a : Around) → IsAt self.now s a → (f : Forest) → preorder f ≡ nodes.now → IsSound s FIELD_REF f → IsReadable s f →
            IfOk result (λ reference. reference ≡ field_ref s a f) }
    {
        let owner = self.field_owner(alloc, nodes)?;
        let name = self.reader.name_text(alloc, last_token(nodes))?;
        let of = self.top_type(alloc, nodes)?;
        Ok(FieldRef { owner, name, of })
    }

    /// The type that a reference to a field names; without one it is that of what stands outside of any class.
    fn field_owner(&self, alloc: Global, nodes: &[TreeNode]) -> Result<Owner, NoMemory>
        requires { IsForest nodes.now }
        ensures { (s : Source) (a : Around) → IsAt self.now s a → (f : Forest) → preorder f ≡ nodes.now → IsSound s FIELD_REF f → IsReadable s f →
            IfOk result (λ owner. owner ≡ owner_of s a FIELD_TARGET_SCOPE FIELD_TARGET_TYPE FIELD_TARGET_NAME f) }
    {
        if has(nodes, FIELD_TARGET_TYPE) {
            let of = self.first_type(alloc, child(nodes, FIELD_TARGET_TYPE))?;
            return Ok(Owner::Spec(of));
        }
        if has(nodes, FIELD_TARGET_SCOPE) {
            let name = self.name_with_scope(alloc, child(nodes, FIELD_TARGET_SCOPE))?;
            return Ok(Owner::Name(name));
        }
        let target = child(nodes, FIELD_TARGET_NAME);
        let name = self.name_with_tail(alloc, target, FIELD_TAIL_SLASH, FIELD_TAIL_DOUBLE_COLON)?;
        Ok(Owner::Name(name))
    }
}
