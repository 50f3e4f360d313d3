//! The rows of types by their paths (ECMA-335 II.22.32, II.22.38).
ghost use Rattle.std.specs.Prelude.{◌≡◌, ℕ, ◌+◌, ◌^◌, ◌<◌, ◌≤◌, [], ◌∷◌, Ok, length, IfOk};
ghost use Rattle.std.specs.List.{AllByRecursion};
ghost use Rattle.image_tokens.specs.Texts.{KeepsTexts, IsPlainId, id_size};
ghost use Rattle.image_tokens.specs.TypePaths.{IsTypeRow, Follows, in_reference, in_declared, AddsPath, GoesOn, path_size};

use crate::row_set::{Cells, RowSet};
use crate::texts::add_id;
use crate::tokens::{TYPE_REF, index_of};
use heaps::StringHeap;
use il_base::NoMemory;
use metadata_tables::Coded;
use type_terms::TypeId;

/// The row of TypeRef of a type in a scope, which is added where it is lacking.
#[tactic(auto, using(crate::proofs::PathLemmas::goes_on))]
pub fn referred_in(
    strings: &mut StringHeap,
    rows: &mut RowSet,
    scope: u32,
    id: &TypeId,
) -> Result<u32, NoMemory>
    requires plain { IsPlainId id.now }
    requires room { length strings.old.bytes + id_size id.now + 8 < 2 ^ 29 }
    requires few { length rows.old + 1 < 2 ^ 24 }
    ensures row { IfOk result (IsTypeRow strings.new rows.new scope id.now) }
    ensures adds { AddsPath strings.new scope (id.now ∷ []) rows.old rows.new }
    ensures keeps { KeepsTexts strings.old strings.new }
    ensures goes_on { GoesOn rows.old rows.new }
    ensures size { length strings.new.bytes ≤ length strings.old.bytes + id_size id.now }
    ensures more { length rows.new ≤ length rows.old + 1 }
    ensures small { IfOk result (λ row. row < 2 ^ 24) }
{
    let (name, space) = add_id(strings, id)?;
    rows.number(Cells {
        first: scope,
        second: name,
        third: space,
    })
}

/// The row of a declared type in its encloser, or 0. Rows have encloser, name and space.
#[tactic(auto, using(crate::proofs::PathLemmas::declared_at))]
pub fn declared_in(
    strings: &mut StringHeap,
    rows: &RowSet,
    outer: u32,
    id: &TypeId,
) -> Result<u32, NoMemory>
    requires plain { IsPlainId id.now }
    requires room { length strings.old.bytes + id_size id.now + 8 < 2 ^ 29 }
    ensures known { (row : ℕ) → IsTypeRow strings.old rows.now outer id.now row → (result ≡ Ok row) × (strings.new ≡ strings.old) }
    ensures keeps { KeepsTexts strings.old strings.new }
    ensures size { length strings.new.bytes ≤ length strings.old.bytes + id_size id.now }
    ensures few { IfOk result (λ row. row < 2 ^ 24) }
{
    let (name, space) = add_id(strings, id)?;
    let cells = Cells {
        first: outer,
        second: name,
        third: space,
    };
    match rows.find(cells) {
        Some(row) => Ok(row),
        None => Ok(0),
    }
}

/// The row of the declared type that a path leads to from the type of row `outer`, or from the top level
/// at 0. A declared path takes no memory.
#[tactic(auto, using(crate::proofs::PathLemmas::keeps_trans))]
pub fn declared_row(
    strings: &mut StringHeap,
    rows: &RowSet,
    outer: u32,
    path: &[TypeId],
) -> Result<u32, NoMemory>
    requires plain { AllByRecursion IsPlainId path.now }
    requires room { length strings.old.bytes + path_size path.now + 8 < 2 ^ 29 }
    ensures known { (end : ℕ) → Follows strings.old rows.now in_declared outer path.now end → (result ≡ Ok end) × (strings.new ≡ strings.old) }
    ensures keeps { KeepsTexts strings.old strings.new }
    ensures size { length strings.new.bytes ≤ length strings.old.bytes + path_size path.now }
    ensures few { IfOk result (λ row. row < 2 ^ 24) }
{
    match path.split_first() {
        None => Ok(0),
        Some((id, rest)) => {
            let row = declared_in(strings, rows, outer, id)?;
            if rest.is_empty() {
                return Ok(row);
            }
            declared_row(strings, rows, row, rest)
        }
    }
}

/// The row of TypeRef that a path leads to from a scope. Rows that are lacking are added.
#[tactic(auto, using(crate::proofs::PathLemmas::keeps_trans, crate::proofs::PathLemmas::goes_on_trans))]
pub fn referred_row(
    strings: &mut StringHeap,
    rows: &mut RowSet,
    scope: u32,
    path: &[TypeId],
) -> Result<u32, NoMemory>
    requires some { 0 < length path.now }
    requires plain { AllByRecursion IsPlainId path.now }
    requires room { length strings.old.bytes + path_size path.now + 8 < 2 ^ 29 }
    requires few { length rows.old + length path.now < 2 ^ 24 }
    ensures follows { IfOk result (Follows strings.new rows.new in_reference scope path.now) }
    ensures adds { AddsPath strings.new scope path.now rows.old rows.new }
    ensures keeps { KeepsTexts strings.old strings.new }
    ensures goes_on { GoesOn rows.old rows.new }
    ensures size { length strings.new.bytes ≤ length strings.old.bytes + path_size path.now }
    ensures more { length rows.new ≤ length rows.old + length path.now }
    ensures small { IfOk result (λ row. row < 2 ^ 24) }
{
    match path.split_first() {
        None => Ok(0),
        Some((id, rest)) => {
            let row = referred_in(strings, rows, scope, id)?;
            if rest.is_empty() {
                return Ok(row);
            }
            let inner = index_of(Coded::ResolutionScope, TYPE_REF, row);
            referred_row(strings, rows, inner, rest)
        }
    }
}
