//! The tokens of the names of types (ECMA-335 II.22.37, II.22.38, III.1.9).
ghost use Rattle.std.specs.Prelude.{◌≡◌, ◌+◌, ◌^◌, ◌<◌, ◌≤◌, length, Some, IfOk};
ghost use Rattle.std.specs.List.{AllByRecursion};
ghost use Rattle.image_tokens.specs.Found.{token_in};
ghost use Rattle.image_tokens.specs.KnownTokens.{names_apart};
ghost use Rattle.image_tokens.specs.NameTokens.{HasNameToken, IsNameable, AreNames, AddsName, Learns};
ghost use Rattle.image_tokens.specs.Texts.{KeepsTexts, IsPlainId};
ghost use Rattle.image_tokens.specs.TypePaths.{GoesOn, path_size};

use crate::found::{Found, Term};
use crate::row_set::RowSet;
use crate::tokens::{ASSEMBLY_REF, TYPE_DEF, TYPE_REF, index_of, token_of};
use crate::type_paths::{declared_row, referred_row};
use heaps::StringHeap;
use il_base::NoMemory;
use metadata_tables::Coded;
use type_terms::{Scope, TypeName};

/// The token of a name by the rows; rows of TypeRef that are lacking are added.
pub fn token_by_rows(
    strings: &mut StringHeap,
    declared: &RowSet,
    referred: &mut RowSet,
    name: &TypeName,
) -> Result<u32, NoMemory>
    requires plain { AllByRecursion IsPlainId name.now.path }
    requires nameable { IsNameable strings.old declared.now name.now }
    requires room { length strings.old.bytes + path_size name.now.path + 8 < 2 ^ 29 }
    requires few { length referred.old + length name.now.path < 2 ^ 24 }
    ensures token { IfOk result (HasNameToken strings.new declared.now referred.new name.now) }
    ensures adds { AddsName strings.new name.now referred.old referred.new }
    ensures keeps { KeepsTexts strings.old strings.new }
    ensures goes_on { GoesOn referred.old referred.new }
    ensures size { length strings.new.bytes ≤ length strings.old.bytes + path_size name.now.path }
    ensures more { length referred.new ≤ length referred.old + length name.now.path }
{
    let path = name.path.as_slice();
    match name.scope {
        Scope::Here => {
            let row = declared_row(strings, declared, 0, path)?;
            Ok(token_of(TYPE_DEF, row))
        }
        Scope::Extern(number) => {
            let scope = index_of(Coded::ResolutionScope, ASSEMBLY_REF, number + 1);
            let row = referred_row(strings, referred, scope, path)?;
            Ok(token_of(TYPE_REF, row))
        }
    }
}

/// The token of a name, which is given to it where it has none.
#[tactic(auto, using(crate::proofs::NameLemmas::names_kept))]
pub fn name_token<'a>(
    strings: &mut StringHeap,
    declared: &RowSet,
    referred: &mut RowSet,
    known: &mut Found<'a, TypeName>,
    name: &'a TypeName,
) -> Result<u32, NoMemory>
    requires plain { AllByRecursion IsPlainId name.now.path }
    requires nameable { IsNameable strings.old declared.now name.now }
    requires room { length strings.old.bytes + path_size name.now.path + 8 < 2 ^ 29 }
    requires few { length referred.old + length name.now.path < 2 ^ 24 }
    requires names { AreNames strings.old declared.now referred.old known.old }
    ensures token { IfOk result (HasNameToken strings.new declared.now referred.new name.now) }
    ensures adds { AddsName strings.new name.now referred.old referred.new }
    ensures found { IfOk result (λ token. token_in names_apart known.new name.now ≡ Some token) }
    ensures names { AreNames strings.new declared.now referred.new known.new }
    ensures learns { Learns known.old known.new }
    ensures keeps { KeepsTexts strings.old strings.new }
    ensures goes_on { GoesOn referred.old referred.new }
    ensures size { length strings.new.bytes ≤ length strings.old.bytes + path_size name.now.path }
    ensures more { length referred.new ≤ length referred.old + length name.now.path }
{
    let hash = name.hashed();
    if let Some(token) = known.find_hashed(hash, name) {
        return Ok(token);
    }
    let token = token_by_rows(strings, declared, referred, name)?;
    known.add_hashed(hash, name, token)?;
    Ok(token)
}
