//! The sizes of a source's classes in data: their class sizes (ECMA-335 II.10.7, II.16.3, II.22.8).

ghost use Rattle.std.specs.Prelude.{◌≡◌, List, Option};
ghost use Rattle.assembly_tree.specs.DataSize.{layout_size};
ghost use Rattle.lower_members.specs.ClassSizes.{AreSizes, size_at, size_numbered};
ghost use Rattle.source_model.specs.Data.{value_layout};
ghost use Rattle.source_model.specs.Source.{Source};
ghost use Rattle.source_syntax.specs.ClassNumbers.{class_numbered};

use il_base::Items;
use source_syntax::class_paths::ClassPaths;
use type_terms::{Scope, TypeId, TypeName};

/// The classes of a source by their paths, and the size of each in data, by its number, where one above 0 is stated.
#[derive(Drop)]
pub struct ClassSizes {
    pub paths: ClassPaths,
    pub sizes: Items<Option<u32>>,
}

impl ClassSizes {
    /// The size in data of a value type with a name, where it is stated.
    pub fn of_name(&self, name: &TypeName) -> Option<u32>
        ensures { (s : Source) → AreSizes s self.now → result ≡ layout_size (value_layout s name.now.scope name.now.path) }
    {
        match name.scope {
            Scope::Here => self.of_path(name.path.as_slice()),
            Scope::Extern(_) => None,
        }
    }

    // That of the class with a path.
    fn of_path(&self, path: &[TypeId]) -> Option<u32>
        ensures { result ≡ size_numbered self.now.sizes (class_numbered self.now.paths path.now) }
    {
        let mut number = 0;
        for id in path {
            match self.paths.child(number, id) {
                Some(inner) => number = inner,
                None => return None,
            }
        }
        self.numbered(number)
    }

    // That of the class of a number.
    fn numbered(&self, number: usize) -> Option<u32>
        ensures { result ≡ size_at self.now.sizes number }
    {
        match self.sizes.get(number) {
            Some(size) => *size,
            None => None,
        }
    }
}
