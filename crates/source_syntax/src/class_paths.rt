//! The classes of a source, each by the number of the class around it and by its own name, and found by a hash of both (ECMA-335
//! II.10.6). Number 0 is the outside of all classes, and that of a class is one more than its place in the list.

ghost use Rattle.std.specs.Prelude.{◌≡◌, ◌+◌, ◌≤◌, ◌++◌, ◌∷◌, [], None, OnErr, OnOk, length};
ghost use Rattle.assembly_tree.specs.DataSize.{is_id};
ghost use Rattle.source_syntax.specs.ClassNumbers.{IsNumber, class_hash, class_in, class_of, id_of, is_class, outer_of};
ghost use Rattle.source_syntax.specs.ClassTexts.{class_at};
ghost use Rattle.source_nodes.specs.NameTexts.{id_with};
ghost use Rattle.source_syntax.specs.Nested.{IsNested};

use hash_places::HashPlaces;
use il_base::{Bytes, Items, NoMemory};
use source_nodes::equality::are_equal;
use source_nodes::hashes::{mix, mix_text_near, text_hash};
use std::alloc::Global;
use std::marker::Model;
use type_terms::TypeId;

/// A class, by the number of the class around it and by its own name, as contracts see it.
#[derive(Drop)]
pub struct ClassName {
    pub outer: usize,
    pub id: TypeId,
}

// A class: the number of that around it, and where its space and, right behind it, its name stand among the texts of all
// classes; the newest older class with the same hash.
#[derive(Clone, Copy)]
struct KeptClass {
    outer: usize,
    start: usize,
    space: usize,
    name: usize,
    next: Option<usize>,
}

/// The classes of a source. Contracts see the list of them.
#[derive(Drop)]
pub struct ClassPaths {
    // From a hash to the place of the newest class with it.
    newest: HashPlaces,
    texts: Bytes,
    classes: Items<KeptClass>,
}

impl Model for ClassPaths {
    ghost use Rattle.std.specs.Prelude.{List};
    ghost use Rattle.hash_places.specs.Slots.{place_of};
    ghost use Rattle.source_syntax.specs.ClassTexts.{AreKept, classes_in};
    ghost use Rattle.source_syntax.specs.declared.class_paths.ClassName.{ClassName};

    ghost Value = { List ClassName };

    ghost view = { λ n. classes_in n.texts n.classes };

    ghost invariant = { λ n. AreKept (place_of n.newest) n.texts n.classes };
}

impl ClassPaths {
    /// No classes. Takes no memory.
    pub fn new(alloc: Global) -> ClassPaths
        ensures { result ≡ [] }
    {
        ClassPaths {
            newest: HashPlaces::new(alloc),
            texts: Bytes::new(alloc),
            classes: Items::new(alloc),
        }
    }

    /// The number of the class with a name in the class of a number. Takes no memory.
    pub fn child(&self, outer: usize, id: &TypeId) -> Option<usize>
        ensures found { result ≡ class_in self.now id.now outer }
        ensures nested { IsNested outer_of id_of is_id self.now }
    {
        self.child_named(outer, id.space.as_bytes(), id.name.as_bytes())
    }

    /// The number of the class with this space and this name in the class of a number. Takes no memory.
    pub fn child_named(&self, outer: usize, space: &[u8], name: &[u8]) -> Option<usize>
        ensures found { result ≡ class_in self.now (id_with space.now name.now) outer }
        ensures nested { IsNested outer_of id_of is_id self.now }
    {
        let classes = self.classes.as_slice();
        let mut at = self.newest.get(class_hash(outer, space, name));
        while let Some(place) = at {
            let class = classes[place];
            if is_class(self.texts.as_slice(), class, outer, space, name) {
                return Some(place + 1);
            }
            at = class.next;
        }
        None
    }

    /// Adds a class that isn't there.
    pub fn push(&mut self, outer: usize, id: TypeId) -> Result<(), NoMemory>
        requires within { IsNumber self.old outer }
        requires fresh { class_in self.old id outer ≡ None }
        ensures ok { OnOk result (self.new ≡ self.old ++ class_of outer id ∷ []) }
        ensures err { OnErr result (self.new ≡ self.old) }
    {
        self.push_named(outer, id.space.as_bytes(), id.name.as_bytes())?;
        Ok(())
    }

    /// Adds a class that isn't there, with this space and this name.
    pub fn push_named(&mut self, outer: usize, space: &[u8], name: &[u8]) -> Result<(), NoMemory>
        requires within { IsNumber self.old outer }
        requires fresh { class_in self.old (id_with space.now name.now) outer ≡ None }
        ensures ok { OnOk result (self.new ≡ self.old ++ class_of outer (id_with space.now name.now) ∷ []) }
        ensures err { OnErr result (self.new ≡ self.old) }
    {
        let place = self.classes.as_slice().len();
        let class = KeptClass {
            outer,
            start: self.texts.len(),
            space: space.len(),
            name: name.len(),
            next: None,
        };
        push_both(&mut self.texts, space, name)?;
        self.classes.push(class)?;
        match self.newest.insert(class_hash(outer, space, name), place) {
            Ok(next) => {
                self.classes.set(place, KeptClass { next, ..class });
                Ok(())
            }
            Err(_) => {
                self.classes.truncate(place);
                Err(NoMemory)
            }
        }
    }

    /// The number of classes.
    pub fn len(&self) -> usize
        ensures { result ≡ length self.now }
    {
        self.classes.len()
    }
}

// The hash of a class.
#[tactic(auto, unfolding(crate::specs::ClassNumbers::class_hash))]
fn class_hash(outer: usize, space: &[u8], name: &[u8]) -> u64
    ensures { result ≡ class_hash (class_of outer (id_with space.now name.now)) }
{
    mix_text_near(mix(text_hash(space), outer as u64), name)
}

// Whether a class has a name and stands in the class of a number.
fn is_class(texts: &[u8], class: KeptClass, outer: usize, space: &[u8], name: &[u8]) -> bool
    requires { class.start + class.space + class.name ≤ length texts.now }
    ensures { result ≡ is_class outer (id_with space.now name.now) (class_at texts.now class) }
{
    let middle = class.start + class.space;
    class.outer == outer
        && are_equal(&texts[class.start..middle], space)
        && are_equal(&texts[middle..middle + class.name], name)
}

// Adds two texts, or none.
fn push_both(texts: &mut Bytes, space: &[u8], name: &[u8]) -> Result<(), NoMemory>
    ensures ok { OnOk result (texts.new ≡ texts.old ++ (space.now ++ name.now)) }
    ensures err { OnErr result (texts.new ≡ texts.old) }
{
    let before = texts.len();
    texts.extend(space)?;
    match texts.extend(name) {
        Ok(()) => Ok(()),
        Err(error) => {
            texts.truncate(before);
            Err(error)
        }
    }
}

/// Whether two types' names are equal.
pub fn is_id(one: &TypeId, other: &TypeId) -> bool
    ensures { result ≡ is_id one.now other.now }
{
    are_equal(one.space.as_bytes(), other.space.as_bytes())
        && are_equal(one.name.as_bytes(), other.name.as_bytes())
}
