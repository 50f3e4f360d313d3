//! Numbers of constants are in the ranges of their fields, and versions have four (ECMA-335 II.22.2, II.22.5, II.22.9). None of these
//! functions changes anything: that it returns is what a proof can cite.
ghost use Rattle.std.specs.Prelude.{◌≡◌, ◌<◌, ◌^◌, length};
ghost use Rattle.std.specs.List.{AllByRecursion};
ghost use Rattle.image_members.specs.Places.{lent};
ghost use Rattle.laws_image_reading.specs.parts.Ranges.{IsConstantInRange, IsStatedInRange, HasFour, IsFieldInRange, IsParamInRange, IsPropertyInRange};

use assembly_tree::{Assembly, Constant, ExternAssembly, Field, Param, Property};

/// The versions of an assembly and of its externs have four numbers.
pub fn versions_in_range(a: &Assembly)
    ensures manifest { length a.now.manifest.version ≡ 4 }
    ensures externs { AllByRecursion HasFour a.now.externs }
{
    has_four(a.manifest.version);
    externs_in_range(a.externs.as_slice());
}

/// The same for externs.
fn externs_in_range(externs: &[ExternAssembly])
    ensures { AllByRecursion HasFour externs.now }
{
    for extern_assembly in externs {
        has_four(extern_assembly.version);
    }
}

/// A version has four numbers.
fn has_four(_version: [u16; 4])
    ensures { length _version ≡ 4 }
{}

/// The numbers in the constants of fields are in range.
pub fn fields_in_range(fields: &[&Field])
    ensures { AllByRecursion IsFieldInRange (lent fields.now) }
{
    for field in fields {
        stated_in_range(&field.constant);
    }
}

/// The same for parameters.
pub fn params_in_range(params: &[&Param])
    ensures { AllByRecursion IsParamInRange (lent params.now) }
{
    for param in params {
        stated_in_range(&param.constant);
    }
}

/// The same for properties.
pub fn properties_in_range(properties: &[&Property])
    ensures { AllByRecursion IsPropertyInRange (lent properties.now) }
{
    for property in properties {
        stated_in_range(&property.constant);
    }
}

/// The same for one constant, where there is one.
fn stated_in_range(constant: &Option<Constant>)
    ensures { IsStatedInRange constant.now }
{
    match constant {
        None => {}
        Some(constant) => constant_in_range(constant),
    }
}

/// The same for a constant.
fn constant_in_range(constant: &Constant)
    ensures { IsConstantInRange constant.now }
{
    match constant {
        Constant::Char(unit) => {
            let _unit = *unit;
        }
        Constant::Real4(bits) => {
            let _bits = *bits;
        }
        Constant::Real8(bits) => {
            let _bits = *bits;
        }
        Constant::Str(units) => units_in_range(units.as_slice()),
        _ => {}
    }
}

/// Units are below 2^16.
fn units_in_range(_units: &[u16])
    ensures { AllByRecursion (λ unit. unit < 2 ^ 16) _units.now }
{}
