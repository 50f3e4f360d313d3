ghost use Rattle.std.specs.Prelude.{◌≡◌};
ghost use Rattle.std.specs.Option.{option_copied};
ghost use Rattle.assembly_tree.specs.DataSize.{has_id, is_id, named, type_at, type_below, declared, primitive_size, layout_size, type_size, size_in_data};
ghost use Rattle.assembly_tree.specs.declared.typedef.TypeDef.TheViews.{out-TypeDef};

use crate::{Assembly, Layout, TypeDef};
use type_terms::{Prim, Scope, SigType, TypeId, TypeName};

/// The bytes that a value of type `t` has in data, where that is stated: those of a primitive type, or the class size of
/// a value type that `a` declares with a size above 0 (II.22.8). Takes no memory.
pub fn data_size(a: &Assembly, t: &SigType) -> Option<u32>
    ensures { result ≡ size_in_data a.now t.now }
{
    match t {
        SigType::Prim(prim) => primitive_size(*prim),
        SigType::Value(name) => type_size(declared(a, name)),
        SigType::Mod { of, .. } => data_size(a, of.get()),
        SigType::Class(_)
        | SigType::Inst { .. }
        | SigType::Var(_)
        | SigType::MVar(_)
        | SigType::SzArray(_)
        | SigType::Array { .. }
        | SigType::ByRef(_)
        | SigType::Pointer(_)
        | SigType::Pinned(_) => None,
    }
}

/// The width of a primitive type, where it has one.
fn primitive_size(prim: Prim) -> Option<u32>
    ensures { result ≡ primitive_size prim }
{
    match prim {
        Prim::Bool | Prim::I1 | Prim::U1 => Some(1),
        Prim::Char | Prim::I2 | Prim::U2 => Some(2),
        Prim::I4 | Prim::U4 | Prim::R4 => Some(4),
        Prim::I8 | Prim::U8 | Prim::R8 => Some(8),
        Prim::Void | Prim::Str | Prim::Object | Prim::TypedRef | Prim::NInt | Prim::NUint => None,
    }
}

/// The size of the type's layout, where there is a type and its size is above 0.
fn type_size(of: Option<&TypeDef>) -> Option<u32>
    ensures { result ≡ type_size (option_copied of.entry) }
{
    match of {
        None => None,
        Some(of) => of.stated_size(),
    }
}

/// The type that the assembly declares by that name.
fn declared<'a>(a: &'a Assembly, name: &TypeName) -> Option<&'a TypeDef>
    ensures { option_copied result ≡ declared a.now name.now }
{
    match name.scope {
        Scope::Here => type_at(a.types.as_slice(), name.path.as_slice()),
        Scope::Extern(_) => None,
    }
}

/// The type that the path leads to from a list of types.
pub(crate) fn type_at<'a>(types: &'a [TypeDef], path: &[TypeId]) -> Option<&'a TypeDef>
    ensures { option_copied result ≡ type_at types.now path.now }
{
    match path {
        [] => None,
        [id, more @ ..] => match named(types, id) {
            None => None,
            Some(of) => type_below(of, more),
        },
    }
}

/// The type that the rest of a path leads to from a type.
fn type_below<'a>(of: &'a TypeDef, path: &[TypeId]) -> Option<&'a TypeDef>
    ensures { option_copied result ≡ type_below path.now of.now }
{
    match path {
        [] => Some(of),
        [id, more @ ..] => match named(of.inner(), id) {
            None => None,
            Some(inner) => type_below(inner, more),
        },
    }
}

/// The first of the types with that space and name.
fn named<'a>(types: &'a [TypeDef], id: &TypeId) -> Option<&'a TypeDef>
    ensures { option_copied result ≡ named id.now types.now }
{
    for of in types {
        if of.has_id(id) {
            return Some(of);
        }
    }
    None
}

impl TypeDef {
    /// The class size, where a layout states one above 0.
    fn stated_size(&self) -> Option<u32>
        ensures { result ≡ layout_size (out-TypeDef self.now).layout }
    {
        match self.layout {
            Some(Layout { size, .. }) if size > 0 => Some(size),
            _ => None,
        }
    }

    /// Whether the type has that space and name.
    fn has_id(&self, id: &TypeId) -> bool
        ensures { result ≡ has_id id.now self.now }
    {
        is_id(id, &self.id)
    }
}

/// Whether both are of one space and name.
pub(crate) fn is_id(a: &TypeId, b: &TypeId) -> bool
    ensures { result ≡ is_id a.now b.now }
{
    a.space.as_bytes() == b.space.as_bytes() && a.name.as_bytes() == b.name.as_bytes()
}
