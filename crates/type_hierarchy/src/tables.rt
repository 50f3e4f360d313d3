ghost use Rattle.std.specs.Prelude.{◌≡◌, length};
ghost use Rattle.std.specs.Option.{option_copied};
ghost use Rattle.type_hierarchy.specs.Above.{name_above};
ghost use Rattle.type_hierarchy.specs.Hierarchy.{chained_in};
ghost use Rattle.type_hierarchy.specs.Names.{full_name};
ghost use Rattle.type_hierarchy.specs.Tables.{entry_of};

use crate::core_types::{Above, chained};
use crate::meanings::Meanings;
use crate::names::Names;
use crate::values::Values;
use il_lists::Items;
use type_terms::{Prim, Scope, SigType, TypeId, TypeName, Types};

/// What the declaration of a type says, normalised.
#[derive(Drop)]
pub struct Declared {
    /// Its base, unless it has none or is the core's Object.
    pub base: Option<SigType>,
    /// The interfaces that it implements.
    pub interfaces: Types,
    /// Of an enum, the type that its values have.
    pub underlying: Option<Prim>,
}

/// The class above a name in its core chain, and the name's declaration.
#[derive(Drop)]
pub struct Known<'a> {
    pub above: Option<Above>,
    pub declared: Option<&'a Declared>,
}

/// What a world says of types.
#[derive(Drop)]
pub struct Tables {
    /// The scope of the core, and which names are value types.
    pub values: Values,
    /// What the scopes of the image mean.
    pub means: Meanings,
    /// The names that are declared.
    pub names: Names,
    /// What the declaration of each of them says, at the name's place.
    pub entries: Items<Declared>,
    /// The place of each of them among the types that its outer type nests, or that stand at the top.
    pub indexes: Items<usize>,
}

impl Tables {
    /// The declaration of a name. Takes no memory.
    pub fn entry(&self, scope: Scope, path: &[TypeId]) -> Option<&Declared>
        requires { length self.now.names ≡ length self.now.entries }
        ensures { option_copied result ≡ entry_of self.now (full_name scope path.now) }
    {
        match self.names.find(scope, path) {
            Some(place) => Some(self.entries.at(place)),
            None => None,
        }
    }

    /// What is known of a name's parent. Takes no memory.
    pub fn known(&self, name: &TypeName) -> Known<'_>
        requires { length self.now.names ≡ length self.now.entries }
        ensures above { name_above self.now.values.core result.above ≡ chained_in self.now.values.core name.now }
        ensures declared { option_copied result.declared ≡ entry_of self.now name.now }
    {
        let path = name.path.as_slice();
        Known {
            above: chained(self.values.core, name.scope, path),
            declared: self.entry(name.scope, path),
        }
    }
}
