//! References to declared methods by their places.
ghost use Rattle.std.specs.Prelude.{◌≡◌, ◌∷◌, [], IfOk, OnOk, IsTrue, Some, is_some, option_map};
ghost use Rattle.assembly_tree.specs.declared.assembly.Assembly.{Assembly as Tree};
ghost use Rattle.listing_model.specs.Canon.{methods_at, module_path, reference_at, reference_line};
ghost use Rattle.listing_model.specs.Members.{own_reference};
ghost use Rattle.listing_printer.specs.Ways.{onward};

use assembly_tree::{Assembly, Method, MethodPath, TypeDef};
use il_lists::{Items, NoMemory, Text};
use print_terms::{ExternKeys, own_reference_by};
use print_types::enter;
use std::alloc::Global;
use type_terms::TypeId;

/// The reference to a declared method by its place, as its own class names it.
///
/// # Errors
///
/// There was no memory.
pub fn print_method(alloc: Global, a: &Assembly, at: &MethodPath) -> Result<Text, NoMemory>
    requires { IsTrue (is_some (reference_at a.now at.now)) }
    ensures { IfOk result (λ text. option_map (reference_line a.now) (reference_at a.now at.now) ≡ Some text) }
{
    let externs = ExternKeys::new(alloc, a.externs.as_slice())?;
    let text = method_by(alloc, &externs, a, at)?;
    Ok(text)
}

/// The same, for a caller that prints many: these are the keys of the assemblies that the assembly names.
///
/// # Errors
///
/// There was no memory.
pub fn method_by(
    alloc: Global,
    externs: &ExternKeys<'_>,
    a: &Assembly,
    at: &MethodPath,
) -> Result<Text, NoMemory>
    requires there { IsTrue (is_some (reference_at a.now at.now)) }
    requires same { externs.now ≡ a.now.externs }
    ensures { IfOk result (λ text. option_map (reference_line a.now) (reference_at a.now at.now) ≡ Some text) }
{
    let mut path = Items::new(alloc);
    let methods = methods_at(alloc, a, at.types.as_slice(), &mut path)?;
    let method = &methods[at.method as usize];
    let text = method_line(alloc, externs, path.as_slice(), method)?;
    Ok(text)
}

// The reference to a method of a type with this path.
#[tactic(auto, unfolding(listing_model::specs::Canon::reference_line))]
fn method_line(
    alloc: Global,
    externs: &ExternKeys<'_>,
    path: &[TypeId],
    method: &Method,
) -> Result<Text, NoMemory>
    ensures { (a : Tree) → externs.now ≡ a.externs → IfOk result (λ text. text ≡ reference_line a (own_reference path.now method.now)) }
{
    let text = own_reference_by(alloc, externs, path, method.name.as_str(), &method.sig)?;
    let text = Text::from_string(alloc, text)?;
    Ok(text)
}

// The methods of the type that places lead to, or of `<Module>`. The path of the type comes into an empty list.
fn methods_at<'a>(
    alloc: Global,
    a: &'a Assembly,
    places: &[u32],
    path: &mut Items<TypeId>,
) -> Result<&'a [Method], NoMemory>
    requires empty { path.old ≡ [] }
    requires there { IsTrue (is_some (methods_at a.now places.now)) }
    ensures { IfOk result (λ methods. methods_at a.now places.now ≡ Some (record { path = path.new; methods = methods.now })) }
{
    if places.is_empty() {
        enter_module(alloc, path)?;
        return Ok(a.methods.as_slice());
    }
    let methods = walk(
        alloc,
        a.types.as_slice(),
        a.methods.as_slice(),
        places,
        path,
    )?;
    Ok(methods)
}

// The methods of the type that places lead to from the types in one with this path.
fn walk<'a>(
    alloc: Global,
    types: &'a [TypeDef],
    methods: &'a [Method],
    places: &[u32],
    path: &mut Items<TypeId>,
) -> Result<&'a [Method], NoMemory>
    requires { IsTrue (is_some (onward types.now methods.now path.old places.now)) }
    ensures { IfOk result (λ found. onward types.now methods.now path.old places.now ≡ Some (record { path = path.new; methods = found.now })) }
{
    let mut inner = types;
    let mut found = methods;
    for place in places {
        let of = &inner[*place as usize];
        enter(alloc, path, &of.id)?;
        found = of.methods.as_slice();
        inner = of.nested.as_slice();
    }
    Ok(found)
}

// The path of `<Module>`.
fn enter_module(alloc: Global, path: &mut Items<TypeId>) -> Result<(), NoMemory>
    requires { path.old ≡ [] }
    ensures { OnOk result (path.new ≡ module_path) }
{
    let id = module_id(alloc)?;
    path.push(id)?;
    Ok(())
}

fn module_id(alloc: Global) -> Result<TypeId, NoMemory>
    ensures { IfOk result (λ id. id ∷ [] ≡ module_path) }
{
    let space = Text::new(alloc, "")?;
    let name = Text::new(alloc, "<Module>")?;
    Ok(TypeId { space, name })
}
