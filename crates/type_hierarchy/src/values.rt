ghost use Rattle.std.specs.Prelude.{◌≡◌};
ghost use Rattle.type_hierarchy.specs.Names.{full_name};
ghost use Rattle.type_hierarchy.specs.Reading.{is_value_base, value_by};

use crate::core_types::is_class_of;
use crate::names::Names;
use type_terms::{Scope, TypeId};

/// Which names of a world are value types.
#[derive(Drop)]
pub struct Values {
    /// The scope of the core.
    pub core: Scope,
    /// The names, among which the core's Enum and ValueType don't count.
    pub names: Names,
}

impl Values {
    /// Whether the name of `path` in `scope` is a value type. Takes no memory.
    pub fn has(&self, scope: Scope, path: &[TypeId]) -> bool
        ensures { result ≡ value_by self.now (full_name scope path.now) }
    {
        !self.is_their_base(scope, path) && self.names.has(scope, path)
    }

    /// Whether a name is the core's Enum or ValueType, which are reference types themselves.
    fn is_their_base(&self, scope: Scope, path: &[TypeId]) -> bool
        ensures { result ≡ is_value_base self.now.core (full_name scope path.now) }
    {
        is_class_of(self.core, scope, path, "Enum")
            || is_class_of(self.core, scope, path, "ValueType")
    }
}
