//! Lists of owners: what a class implements, and the bounds of a generic parameter (ECMA-335 II.10.1.3, II.10.1.7).

ghost use Rattle.std.specs.Prelude.{◌≡◌, IfOk};
ghost use Rattle.source_model.specs.Forest.{Forest, preorder};
ghost use Rattle.source_model.specs.Nodes.{Around};
ghost use Rattle.source_model.specs.Source.{Source};
ghost use Rattle.source_model.specs.Types.{owners_in};
ghost use Rattle.source_syntax.specs.Places.{IsAt, IsReadable};
ghost use Rattle.source_nodes.specs.Walk.{IsForest};

use crate::place::Place;
use il_base::{Items, NoMemory};
use ilasm_grammar::TreeNode;
use ilasm_grammar::productions::{SPEC_TYPE, SPEC_TYPE_NAME};
use source_model::forests_join;
use source_nodes::walk::{is_of, open};
use std::alloc::Global;
use type_terms::{Owner, Owners};

impl<'a> Place<'a> {
    /// The owners that stand in a forest, and none that stands within another: a name alone is a name, and any type a type.
    pub fn owners_in(&self, alloc: Global, nodes: &[TreeNode]) -> Result<Owners, NoMemory>
        requires { IsForest nodes.now }
        ensures { (s : Source) (a : Around) → IsAt self.now s a → (f : Forest) → preorder f ≡ nodes.now → IsReadable s f →
            IfOk result (λ owners. owners ≡ owners_in s a f) }
    {
        forests_join();
        let mut owners = Items::new(alloc);
        let mut left = nodes;
        while let Some(x) = open(left) {
            if is_of(x.node, SPEC_TYPE_NAME) {
                let name = self.type_name(alloc, x.below)?;
                owners.push(Owner::Name(name))?;
                left = x.after;
            } else if is_of(x.node, SPEC_TYPE) {
                let of = self.first_type(alloc, x.below)?;
                owners.push(Owner::Spec(of))?;
                left = x.after;
            } else {
                left = x.behind;
            }
        }
        Ok(owners)
    }
}
