ghost use Rattle.std.specs.Prelude.{◌≡◌, OnOk};
ghost use Rattle.std.specs.List.{flat_map};
ghost use Rattle.type_hierarchy.specs.Gathered.{gathered, if_value};
ghost use Rattle.type_hierarchy.specs.ValueNames.{in_type, in_owner, in_signature, in_method_ref, in_field_ref};

use super::{NamesValues, gather_name};
use il_lists::NoMemory;
use std::alloc::Global;
use type_hierarchy::meanings::Meanings;
use type_hierarchy::names::Names;
use type_terms::{FieldRef, MethodRef, MethodSig, Owner, SigType, TypeName};

impl NamesValues for SigType {
    ghost value_names = { in_type };

    fn gather(&self, alloc: Global, means: &Meanings, into: &mut Names) -> Result<(), NoMemory> {
        gather_type(alloc, means, self, into)
    }
}

impl NamesValues for Owner {
    ghost value_names = { in_owner };

    fn gather(&self, alloc: Global, means: &Meanings, into: &mut Names) -> Result<(), NoMemory> {
        gather_owner(alloc, means, self, into)
    }
}

#[cycle(gather)]
fn gather_type(
    alloc: Global,
    means: &Meanings,
    t: &SigType,
    into: &mut Names,
) -> Result<(), NoMemory>
    ensures { OnOk result (into.new ≡ gathered means.now into.old (in_type t.now)) }
{
    match t {
        SigType::Value(name) => gather_name(alloc, means, name, into),
        SigType::Inst { value, name, args } => {
            gather_if(alloc, means, *value, name.get(), into)?;
            gather_types(alloc, means, args.get().as_slice(), into)
        }
        SigType::SzArray(of) => gather_type(alloc, means, of.get(), into),
        SigType::Array { of, .. } => gather_type(alloc, means, of.get(), into),
        SigType::ByRef(of) => gather_type(alloc, means, of.get(), into),
        SigType::Pointer(of) => gather_type(alloc, means, of.get(), into),
        SigType::Pinned(of) => gather_type(alloc, means, of.get(), into),
        SigType::Mod { by, of, .. } => {
            gather_owner(alloc, means, by.get(), into)?;
            gather_type(alloc, means, of.get(), into)
        }
        SigType::Prim(_) => Ok(()),
        SigType::Class(_) => Ok(()),
        SigType::Var(_) => Ok(()),
        SigType::MVar(_) => Ok(()),
    }
}

#[cycle(gather)]
fn gather_owner(
    alloc: Global,
    means: &Meanings,
    owner: &Owner,
    into: &mut Names,
) -> Result<(), NoMemory>
    ensures { OnOk result (into.new ≡ gathered means.now into.old (in_owner owner.now)) }
{
    match owner {
        Owner::Name(_) => Ok(()),
        Owner::Spec(of) => gather_type(alloc, means, of, into),
    }
}

#[cycle(gather)]
fn gather_types(
    alloc: Global,
    means: &Meanings,
    types: &[SigType],
    into: &mut Names,
) -> Result<(), NoMemory>
    ensures { OnOk result (into.new ≡ gathered means.now into.old (flat_map in_type types.now)) }
{
    for of in types {
        gather_type(alloc, means, of, into)?;
    }
    Ok(())
}

/// Adds the name of an instantiation that is a value type.
fn gather_if(
    alloc: Global,
    means: &Meanings,
    value: bool,
    name: &TypeName,
    into: &mut Names,
) -> Result<(), NoMemory>
    ensures { OnOk result (into.new ≡ gathered means.now into.old (if_value value name.now)) }
{
    if value {
        gather_name(alloc, means, name, into)
    } else {
        Ok(())
    }
}

impl NamesValues for MethodSig {
    ghost value_names = { in_signature };

    #[tactic(auto, using(crate::proofs::Gathering::both_in), unfolding(type_hierarchy::specs::ValueNames::in_signature))]
    fn gather(&self, alloc: Global, means: &Meanings, into: &mut Names) -> Result<(), NoMemory> {
        self.ret.gather(alloc, means, into)?;
        self.params.gather(alloc, means, into)
    }
}

impl NamesValues for MethodRef {
    ghost value_names = { in_method_ref };

    #[tactic(auto, using(crate::proofs::Gathering::both_in), unfolding(type_hierarchy::specs::ValueNames::in_method_ref))]
    fn gather(&self, alloc: Global, means: &Meanings, into: &mut Names) -> Result<(), NoMemory> {
        self.owner.gather(alloc, means, into)?;
        self.sig.gather(alloc, means, into)?;
        self.args.gather(alloc, means, into)
    }
}

impl NamesValues for FieldRef {
    ghost value_names = { in_field_ref };

    #[tactic(auto, using(crate::proofs::Gathering::both_in), unfolding(type_hierarchy::specs::ValueNames::in_field_ref))]
    fn gather(&self, alloc: Global, means: &Meanings, into: &mut Names) -> Result<(), NoMemory> {
        self.owner.gather(alloc, means, into)?;
        self.of.gather(alloc, means, into)
    }
}
