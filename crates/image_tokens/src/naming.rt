//! The tokens of names, where all references are.
ghost use Rattle.std.specs.Prelude.{◌≡◌, ◌+◌, ◌^◌, ◌≤◌, IfOk};
ghost use Rattle.assembly_tree.specs.Weight.{name_weight};
ghost use Rattle.image_tokens.specs.Noted.{IsNamed};
ghost use Rattle.image_tokens.specs.References.{size, AreKnown};
ghost use Rattle.image_tokens.specs.Writable.{CanBeNamed};

use crate::name_tokens::name_token;
use crate::references::References;
use il_base::NoMemory;
use type_terms::TypeName;

/// The token of a name, which is given to it where it has none.
pub fn refer_name<'a>(refs: &mut References<'a>, name: &'a TypeName) -> Result<u32, NoMemory>
    requires known { AreKnown refs.old }
    requires nameable { CanBeNamed refs.old name.now }
    requires room { size refs.old + name_weight name.now ≤ 2 ^ 26 }
    ensures { IfOk result (IsNamed refs.old refs.new name.now) }
{
    name_token(
        &mut refs.heaps.strings,
        &refs.declared.types,
        &mut refs.referred.names,
        &mut refs.known.names,
        name,
    )
}
