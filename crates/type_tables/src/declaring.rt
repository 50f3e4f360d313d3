//! What the declaration of a type says, normalised.
ghost use Rattle.std.specs.Prelude.{◌≡◌, ◌++◌, IfOk, OnOk};
ghost use Rattle.std.specs.List.{find};
ghost use Rattle.std.specs.Option.{option_copied};
ghost use Rattle.type_terms.specs.declared.term.SigType.{out-SigType};
ghost use Rattle.assembly_tree.specs.declared.typedef.TypeDef.TheViews.{out-TypeDef};
ghost use Rattle.type_hierarchy.specs.Declarations.{base_is_in, base_in, counted, is_of_instances, field_type, interface_layer, interfaces_in, declaration_by};
ghost use Rattle.type_hierarchy.specs.Gathered.{scope_by};
ghost use Rattle.type_hierarchy.specs.Names.{system, primitives};
ghost use Rattle.type_hierarchy.specs.Normal.{has_class};
ghost use Rattle.type_hierarchy.specs.Reading.{reading_by, as_list, is_kept};
ghost use Rattle.type_hierarchy.specs.Tables.{declaration};

use assembly_tree::{Field, TypeDef};
use il_lists::{Items, NoMemory};
use std::alloc::Global;
use type_hierarchy::meanings::Meanings;
use type_hierarchy::normal::{integral, is_class_named, is_core_class, normalised_owner};
use type_hierarchy::tables::Declared;
use type_hierarchy::values::Values;
use type_terms::{Owner, Prim, Scope, SigType, Types};

/// Whether the base of a type is the core's class `name` of the space `System`, which is that of no primitive type.
#[tactic(auto, unfolding(type_hierarchy::specs::Normal::normal_owner))]
pub fn base_is(core: Scope, means: &Meanings, extends: &Option<Owner>, name: &str) -> bool
    requires { find (has_class (system name.now)) primitives ≡ None }
    ensures { result ≡ base_is_in core (scope_by means.now) (system name.now) extends.now }
{
    match extends {
        None => false,
        Some(Owner::Name(of)) => is_class_named(core, means, of, name),
        Some(Owner::Spec(of)) => is_core_class(core, means, of, name),
    }
}

/// What the declaration of a type says, which may be the core's Object, or an enum.
pub fn declared(
    alloc: Global,
    values: &Values,
    means: &Meanings,
    t: &TypeDef,
    is_object: bool,
    is_enum: bool,
) -> Result<Declared, NoMemory>
    ensures { IfOk result (λ d. declaration d ≡ declaration_by (reading_by values.now means.now) is_object is_enum (out-TypeDef t.now)) }
{
    let interfaces = interfaces(alloc, values, means, t.implements.as_slice())?;
    let underlying = if is_enum {
        field_type(values, means, t.fields.as_slice())
    } else {
        None
    };
    if is_object {
        return Ok(Declared {
            base: None,
            interfaces,
            underlying,
        });
    }
    let base = base(alloc, values, means, &t.extends)?;
    Ok(Declared {
        base,
        interfaces,
        underlying,
    })
}

/// The base of a type as it counts.
fn base(
    alloc: Global,
    values: &Values,
    means: &Meanings,
    extends: &Option<Owner>,
) -> Result<Option<SigType>, NoMemory>
    ensures { IfOk result (λ b. b ≡ base_in (reading_by values.now means.now) extends.now) }
{
    match extends {
        None => Ok(None),
        Some(owner) => {
            let base = normalised_owner(alloc, values, means, owner)?;
            Ok(Some(counted(base)))
        }
    }
}

/// A base that is neither a name, an instantiation, Object nor String counts as Object.
fn counted(base: SigType) -> SigType
    ensures { result ≡ counted base }
{
    match &base {
        SigType::Class(_) => base,
        SigType::Value(_) => base,
        SigType::Inst { .. } => base,
        SigType::Prim(Prim::Str) => base,
        _ => SigType::Prim(Prim::Object),
    }
}

/// The interfaces of a type as they count.
fn interfaces(
    alloc: Global,
    values: &Values,
    means: &Meanings,
    implements: &[Owner],
) -> Result<Types, NoMemory>
    ensures { IfOk result (λ ts. ts ≡ interfaces_in (reading_by values.now means.now) implements.now) }
{
    let mut all = Items::new(alloc);
    for owner in implements {
        let t = normalised_owner(alloc, values, means, owner)?;
        push_interface(&mut all, t)?;
    }
    Ok(all)
}

/// An interface that is neither a name nor an instantiation counts as none.
fn push_interface(all: &mut Types, t: SigType) -> Result<(), NoMemory>
    ensures { OnOk result (all.new ≡ all.old ++ as_list (interface_layer t (out-SigType t))) }
{
    if is_name(&t) { all.push(t) } else { Ok(()) }
}

/// Whether a type is a name or an instantiation.
fn is_name(t: &SigType) -> bool
    ensures { result ≡ is_kept (out-SigType t.now) }
{
    match t {
        SigType::Class(_) => true,
        SigType::Value(_) => true,
        SigType::Inst { .. } => true,
        SigType::Prim(_) => false,
        SigType::Var(_) => false,
        SigType::MVar(_) => false,
        SigType::SzArray(_) => false,
        SigType::Array { .. } => false,
        SigType::ByRef(_) => false,
        SigType::Pointer(_) => false,
        SigType::Mod { .. } => false,
        SigType::Pinned(_) => false,
    }
}

/// The type of the first field that isn't static, where it is bool, char or an integer type.
fn field_type(values: &Values, means: &Meanings, fields: &[Field]) -> Option<Prim>
    ensures { result ≡ field_type (reading_by values.now means.now) (find is_of_instances fields.now) }
{
    match first_of_instances(fields) {
        None => None,
        Some(field) => integral(values, means, &field.of),
    }
}

/// The first field that isn't static.
fn first_of_instances(fields: &[Field]) -> Option<&Field>
    ensures { option_copied result ≡ find is_of_instances fields.now }
{
    for field in fields {
        if field.flags & 0x10 == 0 {
            return Some(field);
        }
    }
    None
}
