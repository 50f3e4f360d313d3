//! Normalised types, and what is asked of one without making it.
ghost use Rattle.std.specs.Prelude.{◌≡◌, IfOk, map, None};
ghost use Rattle.std.specs.List.{find};
ghost use Rattle.type_terms.specs.declared.term.SigType.{out-SigType};
ghost use Rattle.type_hierarchy.specs.Declarations.{layer_is_class, integral_layer, plain_in};
ghost use Rattle.type_hierarchy.specs.Gathered.{name_by, scope_by};
ghost use Rattle.type_hierarchy.specs.Names.{full_name, system, primitives, is_integral};
ghost use Rattle.type_hierarchy.specs.Normal.{normal, normal_owner, named_type, normal_instance, primitive_of, has_class};
ghost use Rattle.type_hierarchy.specs.Reading.{reading_by, if_integral};

use crate::core_types::{class_word, is_class_of, is_system, named};
use crate::meanings::Meanings;
use crate::values::Values;
use il_lists::{Boxed, Copies, Items, NoMemory};
use std::alloc::Global;
use type_terms::{Owner, Prim, Scope, SigType, TypeId, TypeName, Types};

/// What an owner names, normalised.
#[tactic(auto, unfolding(crate::specs::Normal::normal_owner))]
pub fn normalised_owner(
    alloc: Global,
    values: &Values,
    means: &Meanings,
    owner: &Owner,
) -> Result<SigType, NoMemory>
    ensures { IfOk result (λ r. r ≡ normal_owner (reading_by values.now means.now) owner.now) }
{
    match owner {
        Owner::Name(name) => named_type(alloc, values, means, name),
        Owner::Spec(of) => normalised(alloc, values, means, of),
    }
}

/// A type without modifiers and `pinned`, its scopes replaced by what they mean, and each name as it is a primitive type, a
/// value type or another one.
#[cycle(normal)]
#[tactic(auto, unfolding(crate::specs::Normal::normal))]
pub fn normalised(
    alloc: Global,
    values: &Values,
    means: &Meanings,
    t: &SigType,
) -> Result<SigType, NoMemory>
    ensures { IfOk result (λ r. r ≡ normal (reading_by values.now means.now) t.now) }
{
    match t {
        SigType::Prim(prim) => Ok(SigType::Prim(*prim)),
        SigType::Class(name) => named_type(alloc, values, means, name),
        SigType::Value(name) => named_type(alloc, values, means, name),
        SigType::Inst { name, args, .. } => {
            let args = normalised_all(alloc, values, means, args.get().as_slice())?;
            instance(alloc, values, means, name.get(), args)
        }
        SigType::Var(number) => Ok(SigType::Var(*number)),
        SigType::MVar(number) => Ok(SigType::MVar(*number)),
        SigType::SzArray(of) => {
            let of = normalised_box(alloc, values, means, of.get())?;
            Ok(SigType::SzArray(of))
        }
        SigType::Array {
            of,
            rank,
            sizes,
            lower,
        } => {
            let of = normalised_box(alloc, values, means, of.get())?;
            let sizes = sizes.copy(alloc)?;
            let lower = lower.copy(alloc)?;
            Ok(SigType::Array {
                of,
                rank: *rank,
                sizes,
                lower,
            })
        }
        SigType::ByRef(of) => {
            let of = normalised_box(alloc, values, means, of.get())?;
            Ok(SigType::ByRef(of))
        }
        SigType::Pointer(of) => {
            let of = normalised_box(alloc, values, means, of.get())?;
            Ok(SigType::Pointer(of))
        }
        SigType::Mod { of, .. } => normalised(alloc, values, means, of.get()),
        SigType::Pinned(of) => normalised(alloc, values, means, of.get()),
    }
}

#[cycle(normal)]
fn normalised_box(
    alloc: Global,
    values: &Values,
    means: &Meanings,
    t: &SigType,
) -> Result<Boxed<SigType>, NoMemory>
    ensures { IfOk result (λ r. r ≡ normal (reading_by values.now means.now) t.now) }
{
    let t = normalised(alloc, values, means, t)?;
    Boxed::new(alloc, t)
}

#[cycle(normal)]
fn normalised_all(
    alloc: Global,
    values: &Values,
    means: &Meanings,
    types: &[SigType],
) -> Result<Types, NoMemory>
    ensures { IfOk result (λ r. r ≡ map (normal (reading_by values.now means.now)) types.now) }
{
    let mut all = Items::with_capacity(alloc, types.len())?;
    for t in types {
        let t = normalised(alloc, values, means, t)?;
        all.push(t)?;
    }
    Ok(all)
}

/// An instantiation of what a name means.
fn instance(
    alloc: Global,
    values: &Values,
    means: &Meanings,
    name: &TypeName,
    args: Types,
) -> Result<SigType, NoMemory>
    ensures { IfOk result (λ r. r ≡ normal_instance (reading_by values.now means.now) (name_by means.now name.now) args) }
{
    let scope = means.of(name.scope);
    let value = values.has(scope, name.path.as_slice());
    let path = name.path.copy(alloc)?;
    let name = Boxed::new(alloc, TypeName { scope, path })?;
    let args = Boxed::new(alloc, args)?;
    Ok(SigType::Inst { value, name, args })
}

/// What a name means, as a type.
fn named_type(
    alloc: Global,
    values: &Values,
    means: &Meanings,
    name: &TypeName,
) -> Result<SigType, NoMemory>
    ensures { IfOk result (λ r. r ≡ named_type (reading_by values.now means.now) (name_by means.now name.now)) }
{
    let scope = means.of(name.scope);
    match primitive_of(values.core, scope, name.path.as_slice()) {
        Some(prim) => Ok(SigType::Prim(prim)),
        None => {
            let is_value = values.has(scope, name.path.as_slice());
            let path = name.path.copy(alloc)?;
            Ok(named(is_value, TypeName { scope, path }))
        }
    }
}

/// The primitive type whose class a name is.
fn primitive_of(core: Scope, scope: Scope, path: &[TypeId]) -> Option<Prim>
    ensures { result ≡ primitive_of core (full_name scope path.now) }
{
    if scope == core { class_at(path) } else { None }
}

const PRIMITIVES: [Prim; 18] = [
    Prim::Void,
    Prim::Bool,
    Prim::Char,
    Prim::I1,
    Prim::U1,
    Prim::I2,
    Prim::U2,
    Prim::I4,
    Prim::U4,
    Prim::I8,
    Prim::U8,
    Prim::R4,
    Prim::R8,
    Prim::Str,
    Prim::Object,
    Prim::TypedRef,
    Prim::NInt,
    Prim::NUint,
];

/// The primitive type whose class has that path in the core.
fn class_at(path: &[TypeId]) -> Option<Prim>
    ensures { result ≡ find (has_class path.now) primitives }
{
    class_among(path, &PRIMITIVES)
}

/// The first of these primitive types whose class has that path in the core.
fn class_among(path: &[TypeId], prims: &[Prim]) -> Option<Prim>
    ensures { result ≡ find (has_class path.now) prims.now }
{
    for prim in prims {
        if is_system(path, class_word(*prim)) {
            return Some(*prim);
        }
    }
    None
}

/// Whether a type is, normalised, the core's class `name` of the space `System`, which is that of no primitive type.
#[tactic(auto, unfolding(crate::specs::Normal::normal))]
pub fn is_core_class(core: Scope, means: &Meanings, t: &SigType, name: &str) -> bool
    requires { find (has_class (system name.now)) primitives ≡ None }
    ensures { result ≡ layer_is_class core (system name.now) (out-SigType (normal (plain_in core (scope_by means.now)) t.now)) }
{
    match t {
        SigType::Class(of) => is_class_named(core, means, of, name),
        SigType::Value(of) => is_class_named(core, means, of, name),
        SigType::Mod { of, .. } => is_core_class(core, means, of.get(), name),
        SigType::Pinned(of) => is_core_class(core, means, of.get(), name),
        SigType::Prim(_) => false,
        SigType::Inst { .. } => false,
        SigType::Var(_) => false,
        SigType::MVar(_) => false,
        SigType::SzArray(_) => false,
        SigType::Array { .. } => false,
        SigType::ByRef(_) => false,
        SigType::Pointer(_) => false,
    }
}

/// Whether a name means the core's class `name`.
pub fn is_class_named(core: Scope, means: &Meanings, of: &TypeName, name: &str) -> bool
    requires { find (has_class (system name.now)) primitives ≡ None }
    ensures { result ≡ layer_is_class core (system name.now) (out-SigType (named_type (plain_in core (scope_by means.now)) (name_by means.now of.now))) }
{
    is_class_of(core, means.of(of.scope), of.path.as_slice(), name)
}

/// The primitive type that a type is, normalised, where it is bool, char or an integer type.
#[tactic(auto, unfolding(crate::specs::Normal::normal))]
pub fn integral(values: &Values, means: &Meanings, t: &SigType) -> Option<Prim>
    ensures { result ≡ integral_layer (out-SigType (normal (reading_by values.now means.now) t.now)) }
{
    match t {
        SigType::Prim(prim) => if_integral(Some(*prim)),
        SigType::Class(name) => integral_named(values, means, name),
        SigType::Value(name) => integral_named(values, means, name),
        SigType::Mod { of, .. } => integral(values, means, of.get()),
        SigType::Pinned(of) => integral(values, means, of.get()),
        SigType::Inst { .. } => None,
        SigType::Var(_) => None,
        SigType::MVar(_) => None,
        SigType::SzArray(_) => None,
        SigType::Array { .. } => None,
        SigType::ByRef(_) => None,
        SigType::Pointer(_) => None,
    }
}

fn integral_named(values: &Values, means: &Meanings, name: &TypeName) -> Option<Prim>
    ensures { result ≡ integral_layer (out-SigType (named_type (reading_by values.now means.now) (name_by means.now name.now))) }
{
    let scope = means.of(name.scope);
    if_integral(primitive_of(values.core, scope, name.path.as_slice()))
}

fn if_integral(prim: Option<Prim>) -> Option<Prim>
    ensures { result ≡ if_integral prim }
{
    match prim {
        Some(prim) if is_integral(prim) => Some(prim),
        _ => None,
    }
}

fn is_integral(prim: Prim) -> bool
    ensures { result ≡ is_integral prim }
{
    match prim {
        Prim::Bool
        | Prim::Char
        | Prim::I1
        | Prim::U1
        | Prim::I2
        | Prim::U2
        | Prim::I4
        | Prim::U4
        | Prim::I8
        | Prim::U8
        | Prim::NInt
        | Prim::NUint => true,
        Prim::Void | Prim::R4 | Prim::R8 | Prim::Str | Prim::Object | Prim::TypedRef => false,
    }
}
