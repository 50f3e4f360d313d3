ghost use Rattle.std.specs.Prelude.{OnOk};
ghost use Rattle.il_shrink.specs.ShrunkAll.{IsShrunkMethod, AreShrunkMethods};

use crate::bodies::shrink_option;
use crate::order::turned;
use assembly_tree::{Method, Methods};
use il_lists::NoMemory;
use std::alloc::Global;

/// Shrinks the method's body.
fn shrink_method(alloc: Global, m: &mut Method) -> Result<(), NoMemory>
    ensures { OnOk result (IsShrunkMethod m.old m.new) }
{
    shrink_option(alloc, &mut m.body)
}

/// Shrinks the bodies of the methods.
pub fn shrink_methods(alloc: Global, methods: &mut Methods) -> Result<(), NoMemory>
    ensures { OnOk result (AreShrunkMethods methods.old methods.new) }
{
    let mut rest = turned(alloc, methods)?;
    while let Some(method) = rest.pop() {
        let mut method = method;
        shrink_method(alloc, &mut method)?;
        methods.push(method)?;
    }
    Ok(())
}
