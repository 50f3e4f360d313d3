//! Changes of fields and methods that stand in no class.

use super::{Changeable, attributes_of, patch_last, patch_some, put};
use crate::fault::Fault;
use crate::terms::{method_of, option32, outside, text_of, type_of};
use crate::values::{number16, number32, two};
use assembly_tree::{Constant, Field, Generic, Method, Param};
use il_lists::{Bytes, Items, NoMemory};
use std::alloc::Global;
use type_terms::{MethodRef, Owner, Prim, SigType};

impl Changeable for Field {
    fn change(&mut self, alloc: Global, field: &str, value: &str) -> Result<(), Fault> {
        match field {
            "name" => put(&mut self.name, text_of(alloc, value)),
            "flags" => put(&mut self.flags, number16(value)),
            "prim" => put(&mut self.of, of_prim(value)),
            "of" => put(&mut self.of, type_of(alloc, value)),
            "data" => put(&mut self.content, zeros(alloc, number32(value)?)),
            "number" => put(&mut self.constant, constant(value)),
            "attribute" => put(&mut self.attributes, attributes_of(alloc, value)),
            _ => Err(Fault::Meaningless),
        }
    }
}

fn zeros(alloc: Global, count: u32) -> Result<Option<Bytes>, NoMemory> {
    let mut bytes = Items::new(alloc);
    for _ in 0..count {
        bytes.push(0)?;
    }
    Ok(Some(bytes))
}

fn of_prim(word: &str) -> Result<SigType, Fault> {
    Ok(SigType::Prim(prim(word)?))
}

fn prim(word: &str) -> Result<Prim, Fault> {
    match word {
        "int8" => Ok(Prim::I1),
        "uint8" => Ok(Prim::U1),
        "int16" => Ok(Prim::I2),
        "uint16" => Ok(Prim::U2),
        "int32" => Ok(Prim::I4),
        "uint32" => Ok(Prim::U4),
        "int64" => Ok(Prim::I8),
        "uint64" => Ok(Prim::U8),
        "float64" => Ok(Prim::R8),
        "string" => Ok(Prim::Str),
        "char" => Ok(Prim::Char),
        "int" => Ok(Prim::NInt),
        _ => Err(Fault::Meaningless),
    }
}

/// A number as a constant: `TYPE NUMBER`.
fn constant(value: &str) -> Result<Option<Constant>, Fault> {
    let (of, number) = two(value)?;
    let of = prim(of)?;
    match number.parse::<i128>() {
        Ok(value) => Ok(Some(Constant::Int { of, value })),
        Err(_) => Err(Fault::Meaningless),
    }
}

impl Changeable for Method {
    fn change(&mut self, alloc: Global, field: &str, value: &str) -> Result<(), Fault> {
        match field {
            "name" => put(&mut self.name, text_of(alloc, value)),
            "impl" => put(&mut self.impl_flags, number16(value)),
            "generic" => put(&mut self.sig.generic, number32(value)),
            "sentinel" => put(&mut self.sig.sentinel, option32(value)),
            "entry" => Ok(self.entry = value == "yes"),
            "override" => put(&mut self.overrides, one_method(alloc, value)),
            "attribute" => put(&mut self.attributes, attributes_of(alloc, value)),
            "generics" => patch_last(alloc, &mut self.generics, value),
            "params" => patch_last(alloc, &mut self.params, value),
            "body" | "ins" | "clause" => patch_some(alloc, &mut self.body, field, value),
            _ => Err(Fault::Meaningless),
        }
    }
}

fn one_method(alloc: Global, value: &str) -> Result<Items<MethodRef>, Fault> {
    let method = method_of(alloc, value)?;
    Ok(Items::one(alloc, method)?)
}

fn one_owner(alloc: Global, name: &str) -> Result<Items<Owner>, NoMemory> {
    let owner = outside(alloc, name)?;
    Items::one(alloc, owner)
}

impl Changeable for Generic {
    fn change(&mut self, alloc: Global, field: &str, value: &str) -> Result<(), Fault> {
        match field {
            "name" => put(&mut self.name, text_of(alloc, value)),
            "bound" => put(&mut self.bounds, one_owner(alloc, value)),
            "attribute" => put(&mut self.attributes, attributes_of(alloc, value)),
            _ => Err(Fault::Meaningless),
        }
    }
}

impl Changeable for Param {
    fn change(&mut self, alloc: Global, field: &str, value: &str) -> Result<(), Fault> {
        match field {
            "number" => put(&mut self.number, number16(value)),
            "name" => put(&mut self.name, text_of(alloc, value)),
            "flags" => put(&mut self.flags, number16(value)),
            "attribute" => put(&mut self.attributes, attributes_of(alloc, value)),
            _ => Err(Fault::Meaningless),
        }
    }
}
