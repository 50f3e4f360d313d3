ghost use Rattle.std.specs.Prelude.{◌≡◌, ◌+◌, ◌*◌, sum_by};
ghost use Rattle.told_weights.specs.Told.{Tells};
ghost use Rattle.row_weights.specs.Rows.{known};
ghost use Rattle.body_weights.specs.Tokens.{tokens, row_told, use_told, outline_told};

use crate::tokens::{TokenWeights, told};
use body_outlines::{BodyOutline, TokenUse};
use signature_facts::Owners;

/// What a body weighs by its outline (ECMA-335 II.25.4): 16 for each instruction, 4 for each target of a switch, 64 for each clause,
/// and what is named.
#[tactic(auto, unfolding(crate::specs::Tokens::outline_told))]
pub(crate) fn weigh_outline<O: Owners>(
    given: &TokenWeights<'_, '_, O>,
    outline: &BodyOutline,
) -> u32
    ensures { Tells result (outline_told (tokens (known given.now.members.now.image.now given.now.members.now.names.now.weights (O.facts given.now.members.now.signatures.now.owners.now)) given.now.methods given.now.fields.items) outline.now) }
{
    let operands = weigh_uses(given, outline.operands.as_slice());
    let catches = weigh_catches(given, outline.catches.as_slice());
    let locals = u64::from(given.of_locals(outline.locals));
    let parts = weigh_parts(outline.instructions, outline.targets, outline.clauses);
    let named = locals.saturating_add(operands).saturating_add(catches);
    told(parts.saturating_add(named))
}

/// What so many instructions, targets and clauses weigh.
fn weigh_parts(instructions: u32, targets: u32, clauses: u32) -> u64
    ensures { result ≡ 16 * instructions + 4 * targets + 64 * clauses }
{
    16 * u64::from(instructions) + 4 * u64::from(targets) + 64 * u64::from(clauses)
}

/// What operands name weighs together.
fn weigh_uses<O: Owners>(given: &TokenWeights<'_, '_, O>, uses: &[TokenUse]) -> u64
    ensures { Tells result (sum_by (use_told (tokens (known given.now.members.now.image.now given.now.members.now.names.now.weights (O.facts given.now.members.now.signatures.now.owners.now)) given.now.methods given.now.fields.items)) uses.now) }
{
    let mut weight = 0u64;
    for one in uses {
        weight = weight.saturating_add(given.of_use(one));
    }
    weight
}

/// What the caught types weigh together.
fn weigh_catches<O: Owners>(given: &TokenWeights<'_, '_, O>, catches: &[u32]) -> u64
    ensures { Tells result (sum_by (row_told (tokens (known given.now.members.now.image.now given.now.members.now.names.now.weights (O.facts given.now.members.now.signatures.now.owners.now)) given.now.methods given.now.fields.items)) catches.now) }
{
    let mut weight = 0u64;
    for token in catches {
        weight = weight.saturating_add(u64::from(given.of_token(*token)));
    }
    weight
}
