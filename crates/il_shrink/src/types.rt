ghost use Rattle.std.specs.Prelude.{OnOk};
ghost use Rattle.assembly_tree.specs.declared.typedef.TypeDef.TheViews.{out-TypeDef};
ghost use Rattle.il_shrink.specs.ShrunkAll.{IsShrunkWith, AreShrunkTypes};

use crate::methods::shrink_methods;
use crate::order::turned;
use assembly_tree::{TypeDef, TypeDefs};
use il_lists::NoMemory;
use std::alloc::Global;

/// Shrinks the bodies of the type's own methods.
fn shrink_own(alloc: Global, t: &mut TypeDef) -> Result<(), NoMemory>
    ensures { OnOk result (IsShrunkWith t.old t.new (out-TypeDef t.old).nested) }
{
    shrink_methods(alloc, &mut t.methods)
}

/// Shrinks the bodies of the types and of those that they nest.
pub fn shrink_types(alloc: Global, types: &mut TypeDefs) -> Result<(), NoMemory>
    ensures { OnOk result (AreShrunkTypes types.old types.new) }
{
    let mut rest = turned(alloc, types)?;
    while let Some(of) = rest.pop() {
        let mut of = of;
        shrink_types(alloc, &mut of.nested)?;
        shrink_own(alloc, &mut of)?;
        types.push(of)?;
    }
    Ok(())
}
