ghost use Rattle.std.specs.Prelude.{◌≡◌, IfOk};
ghost use Rattle.type_terms.specs.declared.name.TypeName.{TypeName};
ghost use Rattle.type_hierarchy.specs.Declarations.{valuetype_names};
ghost use Rattle.type_tables.specs.Members.{IsScopes};
ghost use Rattle.type_hierarchy.specs.Scopes.{sources};
ghost use Rattle.type_hierarchy.specs.Names.{is_among};

use crate::members::{Assemblies, assembly_of};
use crate::scopes::Scopes;
use crate::value_names::NamesValues;
use assembly_tree::Assembly;
use il_lists::NoMemory;
use std::alloc::Global;
use type_hierarchy::names::Names;

/// The names that have `valuetype` before them in a signature of the image or of a reference.
pub fn marked_names(
    alloc: Global,
    image: &Assembly,
    references: &Assemblies,
    scopes: &Scopes,
) -> Result<Names, NoMemory>
    requires { IsScopes (sources image.now references.now) scopes.now }
    ensures { IfOk result (λ ns. (name : TypeName) → is_among ns name ≡ is_among (valuetype_names (sources image.now references.now)) name) }
{
    let mut names = Names::new(alloc);
    for (k, number) in scopes.numbers.as_slice().iter().enumerate() {
        let of = assembly_of(image, references, *number);
        of.gather(alloc, scopes.meanings.at(k), &mut names)?;
    }
    Ok(names)
}
