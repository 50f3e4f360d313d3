//! The rows by which declared fields and methods are found (ECMA-335 II.22.15, II.22.26).
ghost use Rattle.std.specs.Prelude.{◌≡◌, ◌+◌, ◌-◌, ◌^◌, ◌<◌, ◌≤◌, ◌∷◌, [], length, map, sum_by, OnOk};
ghost use Rattle.std.specs.List.{AllByRecursion};
ghost use Rattle.assembly_tree.specs.declared.members.Field.{Field};
ghost use Rattle.assembly_tree.specs.declared.members.Method.{Method};
ghost use Rattle.image_members.specs.DeclaredMembers.{owned, class_fields, class_methods, field_bytes, method_bytes, DeclaresFields, DeclaresMethods, fields_bytes, methods_bytes, fields_count, methods_count, with_members, HasMembers, IsFieldDeclarable, IsMethodDeclarable, AreDeclarable};
ghost use Rattle.image_tokens.specs.References.{size, AreKnown};

use crate::classes::Class;
use assembly_tree::{Assembly, Field, Method};
use il_base::NoMemory;
use image_tokens::members::refer_text;
use image_tokens::references::References;
use image_tokens::row_list::RowList;
use image_tokens::row_set::Cells;
use image_tokens::signatures::{field_signature, method_signature};
use std::alloc::Global;

/// Declares the fields and the methods of `<Module>` and of each type. Item k of each list is row k + 1 of
/// its table.
pub fn declare_members<'a>(
    alloc: Global,
    refs: &mut References<'a>,
    a: &'a Assembly,
    classes: &[Class<'a>],
) -> Result<(), NoMemory>
    requires known { AreKnown refs.old }
    requires declarable { AreDeclarable refs.old a.now classes.now }
    requires count { length classes.now < 2 ^ 24 - 2 }
    requires few_fields { fields_count a.now classes.now < 2 ^ 24 }
    requires few_methods { methods_count a.now classes.now < 2 ^ 24 }
    requires room { size refs.old + (fields_bytes a.now classes.now + methods_bytes a.now classes.now) ≤ 2 ^ 26 }
    ensures { OnOk result (HasMembers a.now classes.now refs.old refs.new) }
{
    refs.make_room(alloc, classes.len() + 1)?;
    let mut fields = RowList::new(alloc);
    declare_fields(alloc, refs, &mut fields, a.fields.as_slice(), classes)?;
    let mut methods = RowList::with_room(alloc, classes.len())?;
    declare_methods(alloc, refs, &mut methods, a.methods.as_slice(), classes)?;
    put_rows(refs, fields, methods);
    Ok(())
}

/// Puts the rows of fields and methods in the place of those before.
fn put_rows<'a>(refs: &mut References<'a>, fields: RowList, methods: RowList)
    ensures { refs.new ≡ with_members refs.old fields methods }
{
    refs.declared.fields = fields;
    refs.declared.methods = methods;
}

/// Adds the rows of fields: first those of `<Module>`, and then those of each type.
pub fn declare_fields<'a>(
    alloc: Global,
    refs: &mut References<'a>,
    rows: &mut RowList,
    globals: &'a [Field],
    classes: &[Class<'a>],
) -> Result<(), NoMemory>
    requires known { AreKnown refs.old }
    requires globals { AllByRecursion (IsFieldDeclarable refs.old) globals.now }
    requires each { AllByRecursion (λ c. AllByRecursion (IsFieldDeclarable refs.old) (class_fields c)) classes.now }
    requires count { length classes.now < 2 ^ 24 - 2 }
    requires few { length rows.old + (length globals.now + sum_by (λ c. length (class_fields c)) classes.now) < 2 ^ 24 }
    requires room { size refs.old + (sum_by field_bytes globals.now + sum_by (λ c. sum_by field_bytes (class_fields c)) classes.now) ≤ 2 ^ 26 }
    ensures { OnOk result (DeclaresFields (owned 1 (globals.now ∷ map class_fields classes.now)) refs.old refs.new rows.old rows.new) }
{
    fields_of(alloc, refs, rows, 1, globals)?;
    fields_of_classes(alloc, refs, rows, classes)
}

/// Adds the rows of the fields of types, of which the first has row 2.
fn fields_of_classes<'a>(
    alloc: Global,
    refs: &mut References<'a>,
    rows: &mut RowList,
    classes: &[Class<'a>],
) -> Result<(), NoMemory>
    requires known { AreKnown refs.old }
    requires each { AllByRecursion (λ c. AllByRecursion (IsFieldDeclarable refs.old) (class_fields c)) classes.now }
    requires count { length classes.now < 2 ^ 24 - 2 }
    requires few { length rows.old + sum_by (λ c. length (class_fields c)) classes.now < 2 ^ 24 }
    requires room { size refs.old + sum_by (λ c. sum_by field_bytes (class_fields c)) classes.now ≤ 2 ^ 26 }
    ensures { OnOk result (DeclaresFields (owned 2 (map class_fields classes.now)) refs.old refs.new rows.old rows.new) }
{
    let mut row: u32 = 2;
    for class in classes {
        fields_of(alloc, refs, rows, row, class.of.fields.as_slice())?;
        row += 1;
    }
    Ok(())
}

/// Adds the rows of the fields of the type of this row.
fn fields_of<'a>(
    alloc: Global,
    refs: &mut References<'a>,
    rows: &mut RowList,
    row: u32,
    fields: &'a [Field],
) -> Result<(), NoMemory>
    requires known { AreKnown refs.old }
    requires each { AllByRecursion (IsFieldDeclarable refs.old) fields.now }
    requires few { length rows.old + length fields.now < 2 ^ 24 }
    requires room { size refs.old + sum_by field_bytes fields.now ≤ 2 ^ 26 }
    ensures { OnOk result (DeclaresFields (map (λ (f : Field). (row, f)) fields.now) refs.old refs.new rows.old rows.new) }
{
    for field in fields {
        declare_field(alloc, refs, rows, row, field)?;
    }
    Ok(())
}

/// Adds the row of a field of the type of this row.
fn declare_field<'a>(
    alloc: Global,
    refs: &mut References<'a>,
    rows: &mut RowList,
    row: u32,
    field: &'a Field,
) -> Result<(), NoMemory>
    requires known { AreKnown refs.old }
    requires declarable { IsFieldDeclarable refs.old field.now }
    requires few { length rows.old < 2 ^ 24 - 1 }
    requires room { size refs.old + field_bytes field.now ≤ 2 ^ 26 }
    ensures { OnOk result (DeclaresFields ((row, field.now) ∷ []) refs.old refs.new rows.old rows.new) }
{
    let name = refer_text(refs, &field.name)?;
    let signature = field_signature(alloc, refs, &field.of)?;
    rows.push(Cells {
        first: row,
        second: name,
        third: signature,
    })?;
    Ok(())
}

/// Adds the rows of methods: first those of `<Module>`, and then those of each type.
pub fn declare_methods<'a>(
    alloc: Global,
    refs: &mut References<'a>,
    rows: &mut RowList,
    globals: &'a [Method],
    classes: &[Class<'a>],
) -> Result<(), NoMemory>
    requires known { AreKnown refs.old }
    requires globals { AllByRecursion (IsMethodDeclarable refs.old) globals.now }
    requires each { AllByRecursion (λ c. AllByRecursion (IsMethodDeclarable refs.old) (class_methods c)) classes.now }
    requires count { length classes.now < 2 ^ 24 - 2 }
    requires few { length rows.old + (length globals.now + sum_by (λ c. length (class_methods c)) classes.now) < 2 ^ 24 }
    requires room { size refs.old + (sum_by method_bytes globals.now + sum_by (λ c. sum_by method_bytes (class_methods c)) classes.now) ≤ 2 ^ 26 }
    ensures { OnOk result (DeclaresMethods (owned 1 (globals.now ∷ map class_methods classes.now)) refs.old refs.new rows.old rows.new) }
{
    methods_of(alloc, refs, rows, 1, globals)?;
    methods_of_classes(alloc, refs, rows, classes)
}

/// Adds the rows of the methods of types, of which the first has row 2.
fn methods_of_classes<'a>(
    alloc: Global,
    refs: &mut References<'a>,
    rows: &mut RowList,
    classes: &[Class<'a>],
) -> Result<(), NoMemory>
    requires known { AreKnown refs.old }
    requires each { AllByRecursion (λ c. AllByRecursion (IsMethodDeclarable refs.old) (class_methods c)) classes.now }
    requires count { length classes.now < 2 ^ 24 - 2 }
    requires few { length rows.old + sum_by (λ c. length (class_methods c)) classes.now < 2 ^ 24 }
    requires room { size refs.old + sum_by (λ c. sum_by method_bytes (class_methods c)) classes.now ≤ 2 ^ 26 }
    ensures { OnOk result (DeclaresMethods (owned 2 (map class_methods classes.now)) refs.old refs.new rows.old rows.new) }
{
    let mut row: u32 = 2;
    for class in classes {
        methods_of(alloc, refs, rows, row, class.of.methods.as_slice())?;
        row += 1;
    }
    Ok(())
}

/// Adds the rows of the methods of the type of this row.
fn methods_of<'a>(
    alloc: Global,
    refs: &mut References<'a>,
    rows: &mut RowList,
    row: u32,
    methods: &'a [Method],
) -> Result<(), NoMemory>
    requires known { AreKnown refs.old }
    requires each { AllByRecursion (IsMethodDeclarable refs.old) methods.now }
    requires few { length rows.old + length methods.now < 2 ^ 24 }
    requires room { size refs.old + sum_by method_bytes methods.now ≤ 2 ^ 26 }
    ensures { OnOk result (DeclaresMethods (map (λ (m : Method). (row, m)) methods.now) refs.old refs.new rows.old rows.new) }
{
    for method in methods {
        declare_method(alloc, refs, rows, row, method)?;
    }
    Ok(())
}

/// Adds the row of a method of the type of this row.
fn declare_method<'a>(
    alloc: Global,
    refs: &mut References<'a>,
    rows: &mut RowList,
    row: u32,
    method: &'a Method,
) -> Result<(), NoMemory>
    requires known { AreKnown refs.old }
    requires declarable { IsMethodDeclarable refs.old method.now }
    requires few { length rows.old < 2 ^ 24 - 1 }
    requires room { size refs.old + method_bytes method.now ≤ 2 ^ 26 }
    ensures { OnOk result (DeclaresMethods ((row, method.now) ∷ []) refs.old refs.new rows.old rows.new) }
{
    let name = refer_text(refs, &method.name)?;
    let signature = method_signature(alloc, refs, &method.sig)?;
    rows.push(Cells {
        first: row,
        second: name,
        third: signature,
    })?;
    Ok(())
}
