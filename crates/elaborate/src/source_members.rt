//! The members of a source's classes, read with the data and the sizes of classes that the source declares (ECMA-335 II.10.2).

ghost use Rattle.elaborate.specs.SourceMembers.{AreDeclared};

use crate::member_reader::MemberReader;
use assembly_tree::{Fields, Generics, Methods};
use il_base::NoMemory;
use ilasm_grammar::TreeNode;
use lower_members::class_sizes::ClassSizes;
use lower_members::fields::{FieldContext, fields};
use lower_members::generics::generics;
use lower_members::labelled_data::LabelledData;
use lower_methods::method_lists::methods;
use source_nodes::pieces::Piece;
use source_nodes::reader::Reader;
use source_syntax::place::Place;
use std::alloc::Global;

/// A source with its data and the sizes of its classes.
#[derive(Drop)]
pub struct SourceMembers<'a> {
    pub reader: Reader<'a>,
    pub labelled: &'a LabelledData,
    pub sizes: &'a ClassSizes,
}

impl MemberReader for SourceMembers<'_> {
    ghost knows = { λ x s. AreDeclared x.reader x.labelled.now x.sizes.now s };

    fn fields(
        &self,
        alloc: Global,
        place: &Place,
        nodes: &[TreeNode],
        found: &[Piece],
    ) -> Result<Fields, NoMemory> {
        let context = FieldContext {
            place: Place {
                reader: self.reader,
                keys: place.keys,
                class: place.class,
                method: place.method,
            },
            labelled: self.labelled,
            sizes: self.sizes,
        };
        fields(alloc, &context, nodes, found)
    }

    fn methods(
        &self,
        alloc: Global,
        place: &Place,
        nodes: &[TreeNode],
        found: &[Piece],
    ) -> Result<Methods, NoMemory> {
        methods(alloc, place, nodes, found)
    }

    fn generics(
        &self,
        alloc: Global,
        place: &Place,
        nodes: &[TreeNode],
        found: &[Piece],
    ) -> Result<Generics, NoMemory> {
        generics(alloc, place, place.class, nodes, found)
    }
}
