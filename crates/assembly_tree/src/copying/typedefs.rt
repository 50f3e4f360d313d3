ghost use Rattle.std.specs.Prelude.{◌≡◌, IfOk};
ghost use Rattle.assembly_tree.specs.Nesting.{nested_in, types_in};
ghost use Rattle.assembly_tree.specs.declared.typedef.TypeDef.TheViews.{out-TypeDef, roll-TypeDef};

use super::nests::{Nests, copied_all};
use crate::{
    Assembly, Attributes, Events, Fields, Generics, Methods, Properties, TypeDef, TypeDefs,
};
use il_lists::{Copies, NoMemory, five, four};
use std::alloc::Global;
use type_terms::{Owner, Owners, TypeId};

/// What stands before a type's body.
#[derive(Drop)]
struct Head {
    id: TypeId,
    generics: Generics,
    extends: Option<Owner>,
    implements: Owners,
}

/// What a type holds beside other types.
#[derive(Drop)]
struct Members {
    fields: Fields,
    methods: Methods,
    properties: Properties,
    events: Events,
    attributes: Attributes,
}

impl TypeDef {
    fn head_copied(&self, alloc: Global) -> Result<Head, NoMemory>
        ensures { IfOk result (λ h. let t = out-TypeDef self.now in
            (h.id ≡ t.id) × (h.generics ≡ t.generics) × (h.extends ≡ t.extends) × (h.implements ≡ t.implements)) }
    {
        let (id, generics, extends, implements) = four(
            &self.id,
            &self.generics,
            &self.extends,
            &self.implements,
            alloc,
        )?;
        Ok(Head {
            id,
            generics,
            extends,
            implements,
        })
    }

    fn members_copied(&self, alloc: Global) -> Result<Members, NoMemory>
        ensures { IfOk result (λ m. let t = out-TypeDef self.now in
            (m.fields ≡ t.fields) × (m.methods ≡ t.methods) × (m.properties ≡ t.properties) × (m.events ≡ t.events)
            × (m.attributes ≡ t.attributes)) }
    {
        let (fields, methods, properties, events, attributes) = five(
            &self.fields,
            &self.methods,
            &self.properties,
            &self.events,
            &self.attributes,
            alloc,
        )?;
        Ok(Members {
            fields,
            methods,
            properties,
            events,
            attributes,
        })
    }

    /// The type with `head` and `members` in place of its own and `nested` for the types that it nests.
    fn with(&self, head: Head, members: Members, nested: TypeDefs) -> TypeDef
        ensures { result ≡ roll-TypeDef (record (out-TypeDef self.now) {
          id = head.id;
          generics = head.generics;
          extends = head.extends;
          implements = head.implements;
          fields = members.fields;
          methods = members.methods;
          properties = members.properties;
          events = members.events;
          nested = nested;
          attributes = members.attributes;
        }) }
    {
        let Head {
            id,
            generics,
            extends,
            implements,
        } = head;
        let Members {
            fields,
            methods,
            properties,
            events,
            attributes,
        } = members;
        TypeDef {
            id,
            flags: self.flags,
            layout: self.layout,
            generics,
            extends,
            implements,
            fields,
            methods,
            properties,
            events,
            nested,
            attributes,
        }
    }
}

impl Nests for TypeDef {
    ghost nested = { nested_in };

    ghost count = { types_in };

    fn nests(&self) -> &[TypeDef] {
        self.inner()
    }

    fn copied_around(&self, inner: TypeDefs, alloc: Global) -> Result<TypeDef, NoMemory>
        ensures { IfOk result (λ c. inner ≡ nested_in self.now → c ≡ self.now) }
    {
        let members = self.members_copied(alloc)?;
        let head = self.head_copied(alloc)?;
        Ok(self.with(head, members, inner))
    }
}

impl Copies for TypeDef {
    fn copy(&self, alloc: Global) -> Result<TypeDef, NoMemory> {
        let inner = copied_all(self.inner(), alloc)?;
        self.copied_around(inner, alloc)
    }
}

impl Copies for Assembly {
    fn copy(&self, alloc: Global) -> Result<Assembly, NoMemory> {
        let (manifest, externs, fields, methods, types) = five(
            &self.manifest,
            &self.externs,
            &self.fields,
            &self.methods,
            &self.types,
            alloc,
        )?;
        Ok(Assembly {
            manifest,
            externs,
            fields,
            methods,
            types,
        })
    }
}
