ghost use Rattle.std.specs.Prelude.{◌≡◌, ℕ, IfOk};
ghost use Rattle.assembly_tree.specs.declared.body.Body.{Body};
ghost use Rattle.image_model.specs.Bodies.{IsBody};
ghost use Rattle.image_model.specs.Columns.{method_rva};
ghost use Rattle.image_model.specs.Reading.{BodyIs};
ghost use Rattle.image_model.specs.Rows.{HasRow};
ghost use Rattle.image_source.specs.Ready.{IsReady};
ghost use Rattle.image_source.specs.Names.{names_of};
ghost use Rattle.kept_names.specs.declared.names.KeptNames.{KeptNames};

use crate::Source;
use assembly_tree::Body;
use body_codec::{BodyFault, decode};
use il_base::NoMemory;
use kept_names::KeptNames;
use row_parts::bytes_at;
use std::alloc::Global;

/// The body of a method, or None where its RVA is 0 (II.22.26, II.25.4).
#[tactic(auto, unfolding(metadata_tables::specs::Schema::schema))]
pub fn body(alloc: Global, source: &Source<'_, '_>, row: u32) -> Result<Option<Body>, NoMemory>
    requires there { HasRow source.now.image.now 0x06 row }
    requires ready { IsReady source.now.image.now source.now.kept.now source.now.sizes.now }
    ensures { IfOk result (BodyIs source.now.image.now (names_of source.now.kept.now) (method_rva source.now.image.now row)) }
{
    let rva = source.image.tables().cell(0x06, row, 0);
    if rva == 0 {
        return Ok(None);
    }
    let body = body_in(alloc, source.kept, bytes_at(source.image, rva))?;
    Ok(Some(body))
}

/// The body that some bytes begin with.
fn body_in(alloc: Global, kept: &KeptNames, bytes: &[u8]) -> Result<Body, NoMemory>
    requires { (body : Body) × IsBody (names_of kept.now) bytes.now body }
    ensures { IfOk result (IsBody (names_of kept.now) bytes.now) }
{
    match decode(alloc, bytes, kept) {
        Ok(read) => Ok(read.0),
        Err(fault) => match fault {
            BodyFault::NoMemory => Err(NoMemory),
            // All that the body names is kept.
            _ => unreachable!(),
        },
    }
}
