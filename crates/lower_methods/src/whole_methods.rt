//! A method from its parts (ECMA-335 II.15, II.22.26).

ghost use Rattle.std.specs.Prelude.{◌≡◌, ◌++◌, ◌<◌, ◌^◌, ◌∷◌, [], IfOk, length};
ghost use Rattle.lower_methods.specs.SoundMethods.{IsSoundMethod};
ghost use Rattle.source_model.specs.Forest.{preorder};
ghost use Rattle.source_model.specs.Members.{method, method_from};
ghost use Rattle.source_model.specs.Nodes.{Around, Node};
ghost use Rattle.source_model.specs.Source.{Source};
ghost use Rattle.source_syntax.specs.Places.{IsAt};
ghost use Rattle.source_nodes.specs.Walk.{IsForest};

use crate::method_rows::read_rows;
use assembly_tree::{Method, Methods};
use il_base::NoMemory;
use ilasm_grammar::TreeNode;
use lower_bodies::bodies::body;
use lower_bodies::body_lines::lines_in;
use lower_members::generics::written_names;
use source_flags::declared_flags::{implementation_flags, method_flags};
use source_syntax::place::Place;
use source_syntax::references::method_name;
use std::alloc::Global;

/// Adds a method, from what stands below its production and a place outside of it.
pub fn push_method(
    all: &mut Methods,
    alloc: Global,
    place: &Place,
    nodes: &[TreeNode],
) -> Result<(), NoMemory>
    requires forest { IsForest nodes.now }
    requires few { length nodes.now < 2 ^ 32 }
    ensures { (s : Source) (a : Around) (n : Node) → IsAt place.now s a → preorder n.below ≡ nodes.now → IsSoundMethod s n →
        IfOk result (λ _. all.new ≡ all.old ++ method s a n.below ∷ []) }
{
    let typars = written_names(alloc, &place.reader, nodes)?;
    let inner = Place {
        reader: place.reader,
        keys: place.keys,
        class: place.class,
        method: &typars,
    };
    push_method_at(all, alloc, &inner, nodes)
}

// Adds the method that a place is in, which is made where it is added, since a method is large.
fn push_method_at(
    all: &mut Methods,
    alloc: Global,
    place: &Place,
    nodes: &[TreeNode],
) -> Result<(), NoMemory>
    requires forest { IsForest nodes.now }
    requires few { length nodes.now < 2 ^ 32 }
    ensures { (s : Source) (a : Around) (n : Node) → IsAt place.now s a → a.method ≡ n.below → preorder n.below ≡ nodes.now → IsSoundMethod s n →
        IfOk result (λ _. all.new ≡ all.old ++ method_from s a n.below ∷ []) }
{
    let reader = &place.reader;
    let lines = lines_in(alloc, nodes)?;
    let name = method_name(alloc, reader, nodes)?;
    let sig = place.method_signature(alloc, nodes)?;
    let rows = read_rows(alloc, place, nodes, lines.held)?;
    let code = body(alloc, place, nodes, &lines)?;
    all.push(Method {
        name,
        flags: method_flags(reader, nodes),
        impl_flags: implementation_flags(reader, nodes),
        sig,
        generics: rows.generics,
        params: rows.params,
        overrides: rows.overrides,
        entry: lines.held.entry,
        body: code,
        attributes: rows.attributes,
    })
}
