//! What is declared, in the order of its rows (ECMA-335 II.22.37).
ghost use Rattle.std.specs.Prelude.{◌≡◌, ◌++◌, OnOk};
ghost use Rattle.std.specs.List.{flat_map};
ghost use Rattle.image_members.specs.Places.{lent, params_of};

use assembly_tree::{Method, Param};
use il_base::{Items, NoMemory};

/// Adds each item at the end.
pub fn add_all<'a, T>(all: &mut Items<&'a T>, items: &'a [T]) -> Result<(), NoMemory>
    ensures { OnOk result (lent all.new ≡ lent all.old ++ items.now) }
{
    for item in items {
        all.push(item)?;
    }
    Ok(())
}

/// Adds methods at the end, and their parameters.
pub fn add_methods<'a>(
    methods: &mut Items<&'a Method>,
    params: &mut Items<&'a Param>,
    more: &'a [Method],
) -> Result<(), NoMemory>
    ensures methods { OnOk result (lent methods.new ≡ lent methods.old ++ more.now) }
    ensures params { OnOk result (lent params.new ≡ lent params.old ++ flat_map params_of more.now) }
{
    for method in more {
        methods.push(method)?;
        add_all(params, method.params.as_slice())?;
    }
    Ok(())
}
