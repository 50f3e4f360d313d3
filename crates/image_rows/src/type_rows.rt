//! The rows of TypeDef (ECMA-335 II.22.37).
ghost use Rattle.std.specs.Prelude.{◌≡◌, ◌+◌, ◌-◌, ◌^◌, ◌<◌, ◌≤◌, ◌∷◌, [], length, sum_by, IfOk, OnOk};
ghost use Rattle.std.specs.List.{AllByRecursion};
ghost use Rattle.metadata_tables.specs.Encoding.{rows_in, IsRowOf};
ghost use Rattle.metadata_tables.specs.Indexes.{run_cell};
ghost use Rattle.image_members.specs.Declaring.{module_place, class_place, places, AreDeclared};
ghost use Rattle.image_members.specs.DeclaredMembers.{class_fields, class_methods};
ghost use Rattle.image_members.specs.Pushing.{Pushes};
ghost use Rattle.image_tokens.specs.References.{size, AreKnown};
ghost use Rattle.image_rows.specs.TypeRows.{numbered, IsTypeDefRow, AddsModuleType, StandsAt, CanBeBase, base_of, base_weight, numbered_weight, Refers};

use il_base::NoMemory;
use image_members::classes::Class;
use image_tokens::noting::refer_owner;
use image_tokens::references::References;
use image_tokens::row_set::Cells;
use image_tokens::tokens::{TYPE_DEF, index_of_token, run_cell};
use metadata_tables::{Coded, Rows, row_of_columns};
use std::alloc::Global;
use type_terms::Owner;

/// Where the runs of a type's fields and methods begin.
#[derive(Clone, Copy)]
pub struct Runs {
    pub field: u32,
    pub method: u32,
}

/// How many fields and methods are declared in all.
#[derive(Clone, Copy)]
pub struct Counts {
    pub fields: usize,
    pub methods: usize,
}

/// Adds the row of `<Module>`, whose fields and methods come first.
pub fn push_module_type<'a>(
    refs: &References<'a>,
    rows: &mut Rows,
    counts: Counts,
) -> Result<(), NoMemory>
    requires stands { StandsAt refs.now 0 module_place }
    requires few { rows_in rows.old 0x02 < 2 ^ 24 - 1 }
    ensures { OnOk result (AddsModuleType counts.fields counts.methods refs.now rows.old rows.new) }
{
    let id = refs.declared.types.at(0);
    let runs = Runs {
        field: 1,
        method: 1,
    };
    let cells = type_cells(0, id, 0, runs, counts);
    rows.push(TYPE_DEF, &cells)?;
    Ok(())
}

/// Adds the rows of the types behind `<Module>`, whose runs begin at `first`.
pub fn push_types<'a>(
    alloc: Global,
    refs: &mut References<'a>,
    rows: &mut Rows,
    classes: &[Class<'a>],
    first: Runs,
    counts: Counts,
) -> Result<(), NoMemory>
    requires known { AreKnown refs.old }
    requires declared { AreDeclared refs.old.heaps.strings refs.old.declared.types (places classes.now) }
    requires bases { AllByRecursion (λ c. CanBeBase refs.old (base_of c)) classes.now }
    requires few { rows_in rows.old 0x02 + length classes.now < 2 ^ 24 - 1 }
    requires count { length classes.now < 2 ^ 24 - 2 }
    requires fields { first.field + sum_by (λ c. length (class_fields c)) classes.now ≤ 2 ^ 24 }
    requires methods { first.method + sum_by (λ c. length (class_methods c)) classes.now ≤ 2 ^ 24 }
    requires room { size refs.old + sum_by (λ c. base_weight (base_of c)) classes.now ≤ 2 ^ 26 }
    ensures { OnOk result (Pushes 0x02 (IsTypeDefRow counts.fields counts.methods) numbered_weight (numbered first.field first.method classes.now) refs.old refs.new rows.old rows.new) }
{
    let mut place: usize = 1;
    let mut field: u32 = first.field;
    let mut method: u32 = first.method;
    for class in classes {
        push_type(
            alloc,
            refs,
            rows,
            *class,
            place,
            Runs { field, method },
            counts,
        )?;
        place += 1;
        field += class.of.fields.len() as u32;
        method += class.of.methods.len() as u32;
    }
    Ok(())
}

/// Adds the row of a type, whose declared row is `place`, counted from 0.
fn push_type<'a>(
    alloc: Global,
    refs: &mut References<'a>,
    rows: &mut Rows,
    class: Class<'a>,
    place: usize,
    runs: Runs,
    counts: Counts,
) -> Result<(), NoMemory>
    requires known { AreKnown refs.old }
    requires stands { StandsAt refs.old place (class_place class) }
    requires base { CanBeBase refs.old (base_of class) }
    requires few { rows_in rows.old 0x02 < 2 ^ 24 - 1 }
    requires room { size refs.old + base_weight (base_of class) ≤ 2 ^ 26 }
    ensures { OnOk result (Pushes 0x02 (IsTypeDefRow counts.fields counts.methods) numbered_weight (record { class = class.entry; field = runs.field; method = runs.method } ∷ []) refs.old refs.new rows.old rows.new) }
{
    let id = refs.declared.types.at(place);
    let base = base_index(alloc, refs, &class.of.extends)?;
    let cells = type_cells(class.of.flags, id, base, runs, counts);
    rows.push(TYPE_DEF, &cells)?;
    Ok(())
}

/// The cells of a row of TypeDef; name and space stand where the declared row says.
fn type_cells(flags: u32, declared: Cells, base: u32, runs: Runs, counts: Counts) -> [u32; 6]
    ensures cells { result ≡ flags ∷ declared.second ∷ declared.third ∷ base ∷ run_cell counts.fields runs.field ∷ run_cell counts.methods runs.method ∷ [] }
    ensures row { IsRowOf 0x02 result }
{
    row_of_columns();
    [
        flags,
        declared.second,
        declared.third,
        base,
        run_cell(counts.fields, runs.field),
        run_cell(counts.methods, runs.method),
    ]
}

/// The coded index of a base, or 0 where there is none.
fn base_index<'a>(
    alloc: Global,
    refs: &mut References<'a>,
    base: &'a Option<Owner>,
) -> Result<u32, NoMemory>
    requires known { AreKnown refs.old }
    requires base { CanBeBase refs.old base.now }
    requires room { size refs.old + base_weight base.now ≤ 2 ^ 26 }
    ensures { IfOk result (Refers base.now refs.old refs.new) }
{
    match base {
        None => Ok(0),
        Some(owner) => {
            let token = refer_owner(alloc, refs, owner)?;
            Ok(index_of_token(Coded::TypeDefOrRef, token))
        }
    }
}
