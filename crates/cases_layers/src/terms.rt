//! Types and references to methods, as patches of trees spell them.

use crate::fault::Fault;
use crate::parts::{both, four};
use crate::values::{number32, two};
use il_lists::{Boxed, Items, NoMemory, Numbers, Signed, Text};
use std::alloc::Global;
use type_terms::{
    MethodRef, MethodSig, Owner, Path, Prim, Scope, SigType, TypeId, TypeName, Types,
};

/// A text: `empty`, `nul` for one with a zero byte, or the word itself.
pub fn text_of(alloc: Global, word: &str) -> Result<Text, NoMemory> {
    match word {
        "empty" => Text::new(alloc, ""),
        "nul" => Text::new(alloc, "\0"),
        _ => Text::new(alloc, word),
    }
}

fn id(alloc: Global, space: &str, name: &str) -> Result<TypeId, NoMemory> {
    let (space, name) = both(text_of(alloc, space), text_of(alloc, name))?;
    Ok(TypeId { space, name })
}

fn named(alloc: Global, scope: Scope, space: &str, name: &str) -> Result<TypeName, NoMemory> {
    let first = id(alloc, space, name)?;
    let path = Path::new(alloc, first)?;
    Ok(TypeName { scope, path })
}

/// The type of that name in the first extern.
pub fn outside(alloc: Global, name: &str) -> Result<Owner, NoMemory> {
    let name = named(alloc, Scope::Extern(0), "empty", name)?;
    Ok(Owner::Name(name))
}

/// `here` or the number of an extern.
fn scope(word: &str) -> Result<Scope, Fault> {
    if word == "here" {
        return Ok(Scope::Here);
    }
    Ok(Scope::Extern(number32(word)?))
}

/// So many times int32.
pub fn numbers(alloc: Global, count: u32) -> Result<Types, NoMemory> {
    let mut types = Items::new(alloc);
    for _ in 0..count {
        types.push(SigType::Prim(Prim::I4))?;
    }
    Ok(types)
}

/// A type: `class SCOPE SPACE NAME`, `inner SCOPE NAME COUNT` for a value type in `C` by so many more names, `array RANK SIZES SIZE
/// LOWERS LOWER`, `args COUNT` for an instantiation, `deep COUNT` for vectors around int32, `var N` or `mvar N`.
pub fn type_of(alloc: Global, words: &str) -> Result<SigType, Fault> {
    match two(words)? {
        ("class", rest) => class_of(alloc, rest),
        ("inner", rest) => inner_of(alloc, rest),
        ("array", rest) => array_of(alloc, rest),
        ("args", count) => instance_of(alloc, number32(count)?),
        ("deep", count) => vectors(alloc, number32(count)?),
        ("var", number) => Ok(SigType::Var(number32(number)?)),
        ("mvar", number) => Ok(SigType::MVar(number32(number)?)),
        _ => Err(Fault::Meaningless),
    }
}

fn class_of(alloc: Global, rest: &str) -> Result<SigType, Fault> {
    let (within, rest) = two(rest)?;
    let (space, name) = two(rest)?;
    let scope = scope(within)?;
    Ok(SigType::Class(named(alloc, scope, space, name)?))
}

fn inner_of(alloc: Global, rest: &str) -> Result<SigType, Fault> {
    let (within, rest) = two(rest)?;
    let (name, count) = two(rest)?;
    let scope = scope(within)?;
    let count = number32(count)?;
    Ok(SigType::Value(path_of(alloc, scope, name, count)?))
}

fn path_of(alloc: Global, scope: Scope, name: &str, count: u32) -> Result<TypeName, NoMemory> {
    let mut of = named(alloc, scope, "empty", "C")?;
    for _ in 0..count {
        push_name(&mut of, alloc, name)?;
    }
    Ok(of)
}

fn push_name(of: &mut TypeName, alloc: Global, name: &str) -> Result<(), NoMemory> {
    of.path.push(id(alloc, "empty", name)?)
}

fn array_of(alloc: Global, rest: &str) -> Result<SigType, Fault> {
    let (rank, rest) = two(rest)?;
    let (sizes, rest) = two(rest)?;
    let (size, rest) = two(rest)?;
    let (lowers, lower) = two(rest)?;
    let rank = number32(rank)?;
    let Ok(lower) = lower.parse::<i32>() else {
        return Err(Fault::Meaningless);
    };
    let (count, size) = (number32(sizes)?, number32(size)?);
    let lowers = number32(lowers)?;
    let shape = both(alike(alloc, count, size), alike_lower(alloc, lowers, lower))?;
    Ok(shaped(alloc, rank, shape.0, shape.1)?)
}

fn alike(alloc: Global, count: u32, number: u32) -> Result<Numbers, NoMemory> {
    let mut all = Items::new(alloc);
    for _ in 0..count {
        all.push(number)?;
    }
    Ok(all)
}

fn alike_lower(alloc: Global, count: u32, number: i32) -> Result<Signed, NoMemory> {
    let mut all = Items::new(alloc);
    for _ in 0..count {
        all.push(number)?;
    }
    Ok(all)
}

fn shaped(alloc: Global, rank: u32, sizes: Numbers, lower: Signed) -> Result<SigType, NoMemory> {
    let shape = both(Boxed::new(alloc, sizes), Boxed::new(alloc, lower));
    let ((sizes, lower), of) = both(shape, Boxed::new(alloc, SigType::Prim(Prim::I4)))?;
    Ok(SigType::Array {
        of,
        rank,
        sizes,
        lower,
    })
}

fn instance_of(alloc: Global, count: u32) -> Result<SigType, Fault> {
    let (name, args) = both(
        named(alloc, Scope::Extern(0), "empty", "G"),
        numbers(alloc, count),
    )?;
    Ok(instantiated(alloc, name, args)?)
}

fn instantiated(alloc: Global, name: TypeName, args: Types) -> Result<SigType, NoMemory> {
    let (name, args) = both(Boxed::new(alloc, name), Boxed::new(alloc, args))?;
    Ok(SigType::Inst {
        value: false,
        name,
        args,
    })
}

fn vectors(alloc: Global, count: u32) -> Result<SigType, Fault> {
    let mut of = SigType::Prim(Prim::I4);
    for _ in 0..count {
        of = SigType::SzArray(Boxed::new(alloc, of)?);
    }
    Ok(of)
}

/// The method `X::m` of the first extern: `KIND GENERIC PARAMETERS SENTINEL ARGUMENTS`, where KIND is `static`, `instance`, `explicit`
/// or `static_explicit`, and `none` stands for no sentinel and no arguments.
pub fn method_of(alloc: Global, words: &str) -> Result<MethodRef, Fault> {
    let (kind, rest) = two(words)?;
    let (generic, rest) = two(rest)?;
    let (params, rest) = two(rest)?;
    let (sentinel, args) = two(rest)?;
    let generic = number32(generic)?;
    let params = number32(params)?;
    let sentinel = option32(sentinel)?;
    let args = option32(args)?;
    let (owner, name, params, args) = four(
        outside(alloc, "X"),
        Text::new(alloc, "m"),
        numbers(alloc, params),
        arguments(alloc, args),
    )?;
    let sig = MethodSig {
        has_this: kind == "instance" || kind == "explicit",
        explicit_this: kind == "explicit" || kind == "static_explicit",
        vararg: false,
        generic,
        ret: SigType::Prim(Prim::Void),
        params,
        sentinel,
    };
    Ok(MethodRef {
        owner,
        name,
        sig,
        args,
    })
}

/// A number, or none.
pub fn option32(word: &str) -> Result<Option<u32>, Fault> {
    if word == "none" {
        return Ok(None);
    }
    Ok(Some(number32(word)?))
}

fn arguments(alloc: Global, count: Option<u32>) -> Result<Option<Types>, NoMemory> {
    match count {
        None => Ok(None),
        Some(count) => Ok(Some(numbers(alloc, count)?)),
    }
}
