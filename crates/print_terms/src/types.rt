//! Types and owners.
ghost use Rattle.std.specs.Prelude.{◌≡◌, OnOk, None, fold, map};
ghost use Rattle.il_lexer.specs.declared.types.TokenKind.TheVariants as kind;
ghost use Rattle.listing_leaves.specs.Numbers.{natural};
ghost use Rattle.listing_model.specs.Shown.{none, w, token};
ghost use Rattle.listing_model.specs.Types.{path_below, slash_name, type_name, named, primitive, int_type, type_below, type_of, owner};
ghost use Rattle.print_leaves.specs.Page.{drawn};
ghost use Rattle.print_terms.specs.Primitives.{last_word, mod_word};
ghost use Rattle.print_terms.specs.Rows.{under, between};

use crate::keys::ExternKeys;
use crate::shapes::write_shape;
use il_lexer::word;
use il_lists::NoMemory;
use print_leaves::Paper;
use type_terms::{Owner, Prim, Scope, SigType, TypeId, TypeName};

/// The names of a path with `/` between them.
pub fn write_path(paper: &mut Paper, path: &[TypeId]) -> Result<(), NoMemory>
    ensures { OnOk result (paper.new ≡ drawn paper.old (path_below path.now)) }
{
    match path {
        [] => Ok(()),
        [first, more @ ..] => {
            paper.type_id(first)?;
            write_inner(paper, more)?;
            Ok(())
        }
    }
}

// The names of types that are nested, each behind a `/`.
fn write_inner(paper: &mut Paper, path: &[TypeId]) -> Result<(), NoMemory>
    ensures { OnOk result (paper.new ≡ fold (λ q id. under q (slash_name id)) paper.old path.now) }
{
    for id in path {
        paper.word(word::SLASH)?;
        paper.type_id(id)?;
    }
    Ok(())
}

/// A type's name: the assembly in brackets, where it is another one, and the path.
pub fn write_type_name(
    paper: &mut Paper,
    externs: &ExternKeys<'_>,
    name: &TypeName,
) -> Result<(), NoMemory>
    ensures { OnOk result (paper.new ≡ under paper.old (type_name externs.now name.now)) }
{
    if let Scope::Extern(number) = name.scope {
        externs.write_scope(paper, number)?;
    }
    write_path(paper, name.path.as_slice())?;
    Ok(())
}

/// An owner: a name alone, or a type.
#[cycle(types)]
pub fn write_owner(paper: &mut Paper, externs: &ExternKeys<'_>, of: &Owner) -> Result<(), NoMemory>
    ensures { OnOk result (paper.new ≡ under paper.old (owner externs.now of.now)) }
{
    match of {
        Owner::Name(name) => {
            write_type_name(paper, externs, name)?;
            Ok(())
        }
        Owner::Spec(of) => {
            write_type(paper, externs, of)?;
            Ok(())
        }
    }
}

/// A type: its base, and the suffixes behind it.
#[cycle(types)]
pub fn write_type(paper: &mut Paper, externs: &ExternKeys<'_>, of: &SigType) -> Result<(), NoMemory>
    ensures { OnOk result (paper.new ≡ drawn paper.old (type_below externs.now of.now)) }
{
    match of {
        SigType::Prim(prim) => {
            write_primitive(paper, *prim)?;
            Ok(())
        }
        SigType::Class(name) => {
            write_named(paper, externs, false, name)?;
            Ok(())
        }
        SigType::Value(name) => {
            write_named(paper, externs, true, name)?;
            Ok(())
        }
        SigType::Inst { value, name, args } => {
            write_named(paper, externs, *value, name.get())?;
            paper.word(word::LESS)?;
            write_types(paper, externs, args.get().as_slice())?;
            paper.word(word::GREATER)?;
            Ok(())
        }
        SigType::Var(number) => {
            write_variable(paper, word::BANG, *number)?;
            Ok(())
        }
        SigType::MVar(number) => {
            write_variable(paper, word::DOUBLE_BANG, *number)?;
            Ok(())
        }
        SigType::SzArray(of) => {
            write_type(paper, externs, of.get())?;
            paper.word(word::OPEN_BRACKET)?;
            paper.word(word::CLOSE_BRACKET)?;
            Ok(())
        }
        SigType::Array {
            of,
            rank,
            sizes,
            lower,
        } => {
            write_type(paper, externs, of.get())?;
            write_shape(paper, *rank, sizes.get().as_slice(), lower.get().as_slice())?;
            Ok(())
        }
        SigType::ByRef(of) => {
            write_type(paper, externs, of.get())?;
            paper.word(word::AMPERSAND)?;
            Ok(())
        }
        SigType::Pointer(of) => {
            write_type(paper, externs, of.get())?;
            paper.word(word::STAR)?;
            Ok(())
        }
        SigType::Pinned(of) => {
            write_type(paper, externs, of.get())?;
            paper.word(word::PINNED)?;
            Ok(())
        }
        SigType::Mod { required, by, of } => {
            write_type(paper, externs, of.get())?;
            paper.word(mod_word(*required))?;
            paper.word(word::OPEN_PAREN)?;
            write_owner(paper, externs, by.get())?;
            paper.word(word::CLOSE_PAREN)?;
            Ok(())
        }
    }
}

/// Types with commas between them.
#[cycle(types)]
pub fn write_types(
    paper: &mut Paper,
    externs: &ExternKeys<'_>,
    types: &[SigType],
) -> Result<(), NoMemory>
    ensures { OnOk result (paper.new ≡ between paper.old (map (type_of externs.now) types.now)) }
{
    let [first, more @ ..] = types else {
        return Ok(());
    };
    write_type(paper, externs, first)?;
    for of in more {
        paper.word(word::COMMA)?;
        write_type(paper, externs, of)?;
    }
    Ok(())
}

// `class` or `valuetype`, and a name.
fn write_named(
    paper: &mut Paper,
    externs: &ExternKeys<'_>,
    value: bool,
    name: &TypeName,
) -> Result<(), NoMemory>
    ensures { OnOk result (paper.new ≡ under paper.old (named externs.now value name.now None)) }
{
    paper.word(if value { word::VALUETYPE } else { word::CLASS })?;
    write_type_name(paper, externs, name)?;
    Ok(())
}

// `!n` or `!!n`.
fn write_variable(paper: &mut Paper, mark: u16, number: u32) -> Result<(), NoMemory>
    ensures { OnOk result (paper.new ≡ drawn paper.old (w mark (token kind.Int (natural number) none))) }
{
    paper.word(mark)?;
    paper.natural(u64::from(number))?;
    Ok(())
}

// The word or the words of a primitive type.
fn write_primitive(paper: &mut Paper, prim: Prim) -> Result<(), NoMemory>
    ensures { OnOk result (paper.new ≡ under paper.old (primitive prim)) }
{
    if prim == Prim::NInt || prim == Prim::NUint {
        paper.word(word::NATIVE)?;
    }
    paper.word(last_word(prim))?;
    Ok(())
}

// The word of a modifier.
fn mod_word(required: bool) -> u16
    ensures { result ≡ mod_word required }
{
    if required { word::MODREQ } else { word::MODOPT }
}

// The last word of a primitive type: those of the size of an address have two.
fn last_word(prim: Prim) -> u16
    ensures { result ≡ last_word prim }
{
    match prim {
        Prim::Void => word::VOID,
        Prim::Bool => word::BOOL,
        Prim::Char => word::CHAR,
        Prim::I1 => word::INT8,
        Prim::U1 => word::UINT8,
        Prim::I2 => word::INT16,
        Prim::U2 => word::UINT16,
        Prim::I4 => word::INT32,
        Prim::U4 => word::UINT32,
        Prim::I8 => word::INT64,
        Prim::U8 => word::UINT64,
        Prim::R4 => word::FLOAT32,
        Prim::R8 => word::FLOAT64,
        Prim::Str => word::STRING,
        Prim::Object => word::OBJECT,
        Prim::TypedRef => word::TYPEDREF,
        Prim::NInt => word::INT,
        Prim::NUint => word::UINT,
    }
}

/// The word of an integer type.
pub fn write_int_type(paper: &mut Paper, prim: Prim) -> Result<(), NoMemory>
    ensures { OnOk result (paper.new ≡ under paper.old (int_type prim)) }
{
    let number = match prim {
        Prim::I1 => word::INT8,
        Prim::I2 => word::INT16,
        Prim::I4 => word::INT32,
        Prim::I8 => word::INT64,
        Prim::U1 => word::UINT8,
        Prim::U2 => word::UINT16,
        Prim::U4 => word::UINT32,
        _ => word::UINT64,
    };
    paper.word(number)?;
    Ok(())
}
