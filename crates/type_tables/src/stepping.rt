//! The steps between declared types: to the base and to the interfaces (ECMA-335 I.8.9.9, II.10.1). From a class of a core
//! chain that isn't declared, the next of its chain counts as a step.
ghost use Rattle.std.specs.Prelude.{◌≡◌, ◌∷◌, [], length, slice_get, None, Some, IfOk, OnOk};
ghost use Rattle.type_hierarchy.specs.Above.{path_of};
ghost use Rattle.type_hierarchy.specs.Hierarchy.{core_name};
ghost use Rattle.type_tables.specs.Landings.{AddsPlaces, AreSteps, AreTops, IsLanding, IsListed, IsTypeLanding, bases, top_of};
ghost use Rattle.type_hierarchy.specs.Names.{class_of, full_name, system};
ghost use Rattle.type_hierarchy.specs.Reading.{as_list};
ghost use Rattle.type_hierarchy.specs.Tables.{hierarchy_in};

use il_lists::{Items, NoMemory};
use std::alloc::Global;
use type_hierarchy::core_types::{Above, chained, class_name, system_name};
use type_hierarchy::tables::{Declared, Tables};
use type_terms::{Prim, Scope, SigType, TypeId};

/// For each declared type the places of those to which it steps.
pub type Steps = Items<Items<usize>>;

/// The steps of each declared type.
pub fn all_steps(alloc: Global, tables: &Tables) -> Result<Steps, NoMemory>
    requires { length tables.now.names ≡ length tables.now.entries }
    ensures { IfOk result (λ steps. AreSteps (hierarchy_in tables.now) tables.now.names steps) }
{
    let count = tables.names.len();
    let tops = read_tops(alloc, tables)?;
    let mut all = Items::with_capacity(alloc, count)?;
    for declared in tables.entries.as_slice() {
        let nexts = steps_of(alloc, tables, &tops, declared)?;
        all.push(nexts)?;
    }
    Ok(all)
}

/// Where the steps of a declaration lead.
fn steps_of(
    alloc: Global,
    tables: &Tables,
    tops: &Tops,
    declared: &Declared,
) -> Result<Items<usize>, NoMemory>
    requires listed { IsListed (hierarchy_in tables.now) tables.now.names }
    requires tops { AreTops (hierarchy_in tables.now) tables.now.names tops.now }
    ensures { IfOk result (λ nexts. AddsPlaces (hierarchy_in tables.now) tables.now.names (bases declared.now) [] nexts) }
{
    let mut nexts = Items::new(alloc);
    add_base(alloc, tables, tops, &declared.base, &mut nexts)?;
    add_steps(
        alloc,
        tables,
        tops,
        declared.interfaces.as_slice(),
        &mut nexts,
    )?;
    Ok(nexts)
}

/// Adds where the step to a base leads, if there is one.
fn add_base(
    alloc: Global,
    tables: &Tables,
    tops: &Tops,
    base: &Option<SigType>,
    nexts: &mut Items<usize>,
) -> Result<(), NoMemory>
    requires listed { IsListed (hierarchy_in tables.now) tables.now.names }
    requires tops { AreTops (hierarchy_in tables.now) tables.now.names tops.now }
    ensures { OnOk result (AddsPlaces (hierarchy_in tables.now) tables.now.names (as_list base.now) nexts.old nexts.new) }
{
    match base {
        Some(base) => add_step(alloc, tables, tops, base, nexts),
        None => Ok(()),
    }
}

/// Adds where the steps to these types lead.
fn add_steps(
    alloc: Global,
    tables: &Tables,
    tops: &Tops,
    types: &[SigType],
    nexts: &mut Items<usize>,
) -> Result<(), NoMemory>
    requires listed { IsListed (hierarchy_in tables.now) tables.now.names }
    requires tops { AreTops (hierarchy_in tables.now) tables.now.names tops.now }
    ensures { OnOk result (AddsPlaces (hierarchy_in tables.now) tables.now.names types.now nexts.old nexts.new) }
{
    for to in types {
        add_step(alloc, tables, tops, to, nexts)?;
    }
    Ok(())
}

/// Adds the place of the declared type to which a step to a type leads, where there is one.
fn add_step(
    alloc: Global,
    tables: &Tables,
    tops: &Tops,
    to: &SigType,
    nexts: &mut Items<usize>,
) -> Result<(), NoMemory>
    requires listed { IsListed (hierarchy_in tables.now) tables.now.names }
    requires tops { AreTops (hierarchy_in tables.now) tables.now.names tops.now }
    ensures { OnOk result (AddsPlaces (hierarchy_in tables.now) tables.now.names (to.now ∷ []) nexts.old nexts.new) }
{
    match type_landing(alloc, tables, tops, to)? {
        Some(place) => nexts.push(place),
        None => Ok(()),
    }
}

/// Where the steps from the classes lead that stand above others in the core chains.
#[derive(Clone, Copy)]
struct Tops {
    object: Option<usize>,
    value_type: Option<usize>,
    delegate: Option<usize>,
}

impl Tops {
    fn of(&self, above: Above) -> Option<usize>
        ensures { result ≡ top_of self.now above }
    {
        match above {
            Above::Object => self.object,
            Above::ValueType => self.value_type,
            Above::Delegate => self.delegate,
        }
    }
}

fn read_tops(alloc: Global, tables: &Tables) -> Result<Tops, NoMemory>
    requires { IsListed (hierarchy_in tables.now) tables.now.names }
    ensures { IfOk result (λ tops. AreTops (hierarchy_in tables.now) tables.now.names tops) }
{
    let object = class_landing(alloc, tables, "Object", None)?;
    let value_type = class_landing(alloc, tables, "ValueType", object)?;
    let delegate = class_landing(alloc, tables, "Delegate", object)?;
    Ok(Tops {
        object,
        value_type,
        delegate,
    })
}

/// Where the core's class `name` of the space `System` leads: its place, or where it isn't declared `beyond`.
fn class_landing(
    alloc: Global,
    tables: &Tables,
    name: &str,
    beyond: Option<usize>,
) -> Result<Option<usize>, NoMemory>
    requires listed { IsListed (hierarchy_in tables.now) tables.now.names }
    requires beyond { let w = hierarchy_in tables.now in w.declared (core_name w (system name.now)) ≡ None → IsLanding w tables.now.names (core_name w (system name.now)) beyond }
    ensures { let w = hierarchy_in tables.now in IfOk result (λ place. IsLanding w tables.now.names (core_name w (system name.now)) place) }
{
    let name = system_name(alloc, tables.values.core, name)?;
    match tables.names.find(name.scope, name.path.as_slice()) {
        Some(place) => Ok(Some(place)),
        None => Ok(beyond),
    }
}

/// The place of the first declared type from a name on along its core chain.
fn landing(tables: &Tables, tops: &Tops, scope: Scope, path: &[TypeId]) -> Option<usize>
    requires listed { IsListed (hierarchy_in tables.now) tables.now.names }
    requires tops { AreTops (hierarchy_in tables.now) tables.now.names tops.now }
    ensures { IsLanding (hierarchy_in tables.now) tables.now.names (full_name scope path.now) result }
{
    match tables.names.find(scope, path) {
        Some(place) => Some(place),
        None => other_landing(tables, tops, scope, path),
    }
}

/// The same for a name that isn't declared.
fn other_landing(tables: &Tables, tops: &Tops, scope: Scope, path: &[TypeId]) -> Option<usize>
    requires other { (hierarchy_in tables.now).declared (full_name scope path.now) ≡ None }
    requires tops { AreTops (hierarchy_in tables.now) tables.now.names tops.now }
    ensures { IsLanding (hierarchy_in tables.now) tables.now.names (full_name scope path.now) result }
{
    match chained(tables.values.core, scope, path) {
        Some(above) => tops.of(above),
        None => None,
    }
}

/// The place of the first declared type from a type's name on along its core chain.
fn type_landing(
    alloc: Global,
    tables: &Tables,
    tops: &Tops,
    to: &SigType,
) -> Result<Option<usize>, NoMemory>
    requires listed { IsListed (hierarchy_in tables.now) tables.now.names }
    requires tops { AreTops (hierarchy_in tables.now) tables.now.names tops.now }
    ensures { IfOk result (λ place. IsTypeLanding (hierarchy_in tables.now) tables.now.names to.now place) }
{
    match to {
        SigType::Class(name) => Ok(landing(tables, tops, name.scope, name.path.as_slice())),
        SigType::Value(name) => Ok(landing(tables, tops, name.scope, name.path.as_slice())),
        SigType::Inst { name, .. } => {
            let name = name.get();
            Ok(landing(tables, tops, name.scope, name.path.as_slice()))
        }
        SigType::Prim(prim) => class_place(alloc, tables, tops, *prim),
        _ => Ok(None),
    }
}

/// The same for a primitive type's class.
fn class_place(
    alloc: Global,
    tables: &Tables,
    tops: &Tops,
    prim: Prim,
) -> Result<Option<usize>, NoMemory>
    requires listed { IsListed (hierarchy_in tables.now) tables.now.names }
    requires tops { AreTops (hierarchy_in tables.now) tables.now.names tops.now }
    ensures { let w = hierarchy_in tables.now in IfOk result (λ place. IsLanding w tables.now.names (core_name w (class_of prim)) place) }
{
    match prim {
        Prim::Object => Ok(tops.object),
        _ => {
            let name = class_name(alloc, tables.values.core, prim)?;
            Ok(landing(tables, tops, name.scope, name.path.as_slice()))
        }
    }
}
