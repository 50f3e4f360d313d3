ghost use Rattle.std.specs.Prelude.{◌≡◌, IfOk};

use crate::{Accessor, Attribute, Constant, Event, Field, Generic, Method, Param, Property};
use il_lists::{Copies, NoMemory, five, four, seven, three, two};
use std::alloc::Global;

impl Copies for Generic {
    fn copy(&self, alloc: Global) -> Result<Generic, NoMemory> {
        let (name, bounds, attributes) = three(&self.name, &self.bounds, &self.attributes, alloc)?;
        Ok(Generic {
            name,
            flags: self.flags,
            bounds,
            attributes,
        })
    }
}

impl Copies for Field {
    fn copy(&self, alloc: Global) -> Result<Field, NoMemory> {
        let (name, of, constant, content, attributes) = five(
            &self.name,
            &self.of,
            &self.constant,
            &self.content,
            &self.attributes,
            alloc,
        )?;
        Ok(Field {
            name,
            flags: self.flags,
            of,
            constant,
            offset: self.offset,
            content,
            attributes,
        })
    }
}

impl Copies for Method {
    fn copy(&self, alloc: Global) -> Result<Method, NoMemory> {
        let (name, sig, generics, params, overrides, body, attributes) = seven(
            &self.name,
            &self.sig,
            &self.generics,
            &self.params,
            &self.overrides,
            &self.body,
            &self.attributes,
            alloc,
        )?;
        Ok(Method {
            name,
            flags: self.flags,
            impl_flags: self.impl_flags,
            sig,
            generics,
            params,
            overrides,
            entry: self.entry,
            body,
            attributes,
        })
    }
}

impl Copies for Param {
    fn copy(&self, alloc: Global) -> Result<Param, NoMemory> {
        let (name, constant, attributes) = three(
            &self.name,
            &self.constant,
            &self.attributes,
            alloc,
        )?;
        Ok(Param {
            number: self.number,
            flags: self.flags,
            name,
            constant,
            attributes,
        })
    }
}

impl Copies for Property {
    fn copy(&self, alloc: Global) -> Result<Property, NoMemory> {
        let (name, sig, constant, accessors, attributes) = five(
            &self.name,
            &self.sig,
            &self.constant,
            &self.accessors,
            &self.attributes,
            alloc,
        )?;
        Ok(Property {
            name,
            flags: self.flags,
            sig,
            constant,
            accessors,
            attributes,
        })
    }
}

impl Copies for Event {
    fn copy(&self, alloc: Global) -> Result<Event, NoMemory> {
        let (name, of, accessors, attributes) = four(
            &self.name,
            &self.of,
            &self.accessors,
            &self.attributes,
            alloc,
        )?;
        Ok(Event {
            name,
            flags: self.flags,
            of,
            accessors,
            attributes,
        })
    }
}

impl Copies for Accessor {
    fn copy(&self, _alloc: Global) -> Result<Accessor, NoMemory> {
        Ok(*self)
    }
}

impl Copies for Attribute {
    fn copy(&self, alloc: Global) -> Result<Attribute, NoMemory> {
        let (constructor, value) = two(&self.constructor, &self.value, alloc)?;
        Ok(Attribute { constructor, value })
    }
}

impl Copies for Constant {
    fn copy(&self, alloc: Global) -> Result<Constant, NoMemory> {
        match self {
            Constant::Bool(value) => Ok(Constant::Bool(*value)),
            Constant::Char(unit) => Ok(Constant::Char(*unit)),
            Constant::Int { of, value } => Ok(Constant::Int {
                of: *of,
                value: *value,
            }),
            Constant::Real4(bits) => Ok(Constant::Real4(*bits)),
            Constant::Real8(bits) => Ok(Constant::Real8(*bits)),
            Constant::Str(units) => {
                let units = units.copy(alloc)?;
                Ok(Constant::Str(units))
            }
            Constant::Null => Ok(Constant::Null),
        }
    }
}
