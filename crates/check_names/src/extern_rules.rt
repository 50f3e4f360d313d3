//! Assemblies that are named and not declared, and `System.Object` where it stands nowhere (ECMA-335 II.6.3, II.10.1.3).

ghost use Rattle.std.specs.Prelude.{◌≡◌, ◌++◌, IfOk};
ghost use Rattle.source_model.specs.Source.{Source};
ghost use Rattle.source_model.specs.Undeclared.{objects_undeclared, scopes_undeclared};
ghost use Rattle.source_nodes.specs.Least.{least};
ghost use Rattle.source_syntax.specs.Namings.{AreNames};
ghost use Rattle.source_nodes.specs.Readers.{Reads};
ghost use Rattle.source_nodes.specs.Walk.{IsForest};
ghost use Rattle.source_syntax.specs.declared.name_lists.Naming.TheVariants as naming;
ghost use Rattle.check_names.specs.DeclaredClasses.{AreClasses};

use crate::class_rules::Classes;
use crate::named_types::scope_undeclared;
use crate::roots::object_undeclared;
use il_base::NoMemory;
use source_nodes::least::sooner;
use source_nodes::reader::Reader;
use source_syntax::name_lists::Named;
use std::alloc::Global;

/// The least name in brackets that is no assembly's, or name of a class that would have `System.Object` as its base where that
/// stands nowhere.
pub fn extern_undeclared(
    alloc: Global,
    reader: &Reader,
    externs: &Named,
    own: &Named,
    classes: &Classes,
) -> Result<Option<u32>, NoMemory>
    requires { IsForest reader.now.nodes.now }
    ensures { (s : Source) → Reads reader.now s → AreNames s naming.Assembly externs.now → AreNames s naming.Own own.now → AreClasses s classes.now →
        IfOk result (λ k. k ≡ least (scopes_undeclared s ++ objects_undeclared s)) }
{
    let scope = scope_undeclared(alloc, reader, externs, own)?;
    let object = object_undeclared(alloc, reader, classes)?;
    Ok(sooner(scope, object))
}
