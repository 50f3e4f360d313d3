ghost use Rattle.std.specs.Prelude.{◌≡◌, ◌≢◌, ℕ, IfOk, IfErr};
ghost use Rattle.assembly_tree.specs.declared.body.Body.{Body};
ghost use Rattle.body_codec.specs.declared.fault.BodyFault.{BodyFault};
ghost use Rattle.body_codec.specs.Names.{name_map, reading};
ghost use Rattle.body_codec.specs.Header.{SpellsLocals};
ghost use Rattle.body_codec.specs.Bodies.{Spells};
ghost use Rattle.body_codec.specs.Faults.{IsFault, Answers};
ghost use Rattle.body_codec.specs.ReadingClauses.{IsLocalsFault};

use super::handlers::read_handlers;
use super::header::{code_in, read_header};
use super::layout::Layout;
use super::operands::read_code;
use super::outline::read_outline;
use crate::BodyFault;
use assembly_tree::Body;
use il_lists::{Copies, Items};
use sig_codec::Namer;
use std::alloc::Global;
use type_terms::Types;

/// The body that these bytes begin with, and its length in bytes from the header on (ECMA-335 II.25.4). The names are those
/// that `map` gives; for `ldtoken` a method's goes before a field's, and that before a type's.
///
/// # Errors
///
/// The first of these that stands: `Header` where the header isn't known, its code is empty or can't be read, or the
/// token of the locals isn't known; `Opcode` and `Cut` at the first instruction that isn't known or is cut; `Target` at the
/// first instruction with a target that is no instruction's start; `Range` at the first clause that is wrong, that a section
/// should hold that can't be read, or that is one too many; `Token` at the first instruction whose token isn't known, and
/// then at the handler of the first catch whose token isn't. `NoMemory` where there is none.
pub fn decode<N: Namer>(alloc: Global, bytes: &[u8], map: &N) -> Result<(Body, usize), BodyFault>
    ensures body { IfOk result (λ r. Spells (reading (name_map (N.owners map.now) (N.methods map.now) (N.fields map.now) (N.locals map.now) (N.texts map.now))) bytes.now r.0 r.1) }
    ensures fault { IfErr result (IsFault (name_map (N.owners map.now) (N.methods map.now) (N.fields map.now) (N.locals map.now) (N.texts map.now)) bytes.now) }
    ensures only_body { (body : Body) (size : ℕ) → Spells (reading (name_map (N.owners map.now) (N.methods map.now) (N.fields map.now) (N.locals map.now) (N.texts map.now))) bytes.now body size → Answers result (Ok (body, size)) }
    ensures only_fault { (fault : BodyFault) → fault ≢ BodyFault.NoMemory → IsFault (name_map (N.owners map.now) (N.methods map.now) (N.fields map.now) (N.locals map.now) (N.texts map.now)) bytes.now fault → Answers result (Err fault) }
{
    read_body(alloc, bytes, map)
}

/// The same, stage by stage.
fn read_body<N: Namer>(alloc: Global, bytes: &[u8], map: &N) -> Result<(Body, usize), BodyFault>
    ensures body { IfOk result (λ r. Spells (reading (name_map (N.owners map.now) (N.methods map.now) (N.fields map.now) (N.locals map.now) (N.texts map.now))) bytes.now r.0 r.1) }
    ensures fault { IfErr result (IsFault (name_map (N.owners map.now) (N.methods map.now) (N.fields map.now) (N.locals map.now) (N.texts map.now)) bytes.now) }
{
    let Some(header) = read_header(bytes) else {
        return Err(BodyFault::Header);
    };
    let locals = read_locals(alloc, header.locals, map)?;
    let outline = read_outline(alloc, bytes, &header)?;
    let code = code_in(bytes, &header);
    let marks = outline.marks.as_slice();
    let starts = outline.starts.as_slice();
    let layout = Layout {
        code,
        marks,
        starts,
    };
    let instructions = read_code(alloc, &layout, map)?;
    let found = outline.clauses.found.as_slice();
    let clauses = read_handlers(alloc, found, map)?;
    let body = Body {
        bound: header.bound,
        init: header.init,
        locals,
        code: instructions,
        clauses,
    };
    Ok((body, outline.clauses.end))
}

/// The locals that a token stands for (ECMA-335 II.25.4.3).
fn read_locals<N: Namer>(alloc: Global, token: u32, map: &N) -> Result<Types, BodyFault>
    ensures spelled { IfOk result (SpellsLocals (reading (name_map (N.owners map.now) (N.methods map.now) (N.fields map.now) (N.locals map.now) (N.texts map.now))) token) }
    ensures fault { IfErr result (IsLocalsFault (name_map (N.owners map.now) (N.methods map.now) (N.fields map.now) (N.locals map.now) (N.texts map.now)) token) }
{
    if token == 0 {
        return Ok(Items::new(alloc));
    }
    match map.locals_of(token) {
        None => Err(BodyFault::Header),
        Some(locals) => {
            let locals = locals.copy(alloc)?;
            Ok(locals)
        }
    }
}
