ghost use Rattle.std.specs.Prelude.{◌≡◌, [], ◌∷◌, ◌++◌, cond, ℕ, IfOk, OnOk, MatchOption, Contains, length};
ghost use Rattle.image_model.specs.Rows.{HasRow};
ghost use Rattle.kept_owners.specs.Kept.{LookSo, RoundSo, Spells, SpellsNone};
ghost use Rattle.row_demands.specs.Structured.{MeetStructure};

use crate::put::put;
use heaps::one_content_at_an_index;
use il_base::{Items, NoMemory, Numbers};
use image_streams::Image;
use kept_names::KeptNames;
use row_parts::blob_at;
use sig_codec::decode_type;
use std::alloc::Global;
use type_terms::{Owner, SigType};

/// Keeps the types that the signatures of some rows of TypeSpec spell by what is kept; the rows that spell none are left.
pub(crate) fn round(
    alloc: Global,
    image: &Image<'_>,
    rows: &[u32],
    kept: &mut KeptNames,
) -> Result<Numbers, NoMemory>
    requires meets { MeetStructure image.now }
    requires there { (row : ℕ) → Contains rows.now row → HasRow image.now 0x1B row }
    ensures { IfOk result (λ left. RoundSo image.now kept.old kept.new rows.now left (length rows.now)) }
{
    let mut left = Items::new(alloc);
    for k in 0..rows.len() {
        let found = look(alloc, image, rows[k], kept)?;
        note(&mut left, rows[k], !found)?;
    }
    Ok(left)
}

/// Adds a row to others, where it is one of them.
pub(crate) fn note(rows: &mut Numbers, row: u32, is_one: bool) -> Result<(), NoMemory>
    ensures { OnOk result (rows.new ≡ cond is_one (rows.old ++ row ∷ []) rows.old) }
{
    if !is_one {
        return Ok(());
    }
    rows.push(row)
}

/// Keeps the type that the signature of a row spells by what is kept; whether it spells one.
fn look(alloc: Global, image: &Image<'_>, row: u32, kept: &mut KeptNames) -> Result<bool, NoMemory>
    requires meets { MeetStructure image.now }
    requires there { HasRow image.now 0x1B row }
    ensures { IfOk result (LookSo image.now kept.old kept.new row) }
{
    match type_of(alloc, image, row, kept)? {
        None => Ok(false),
        Some(term) => {
            put(kept, 0x1B, row, Owner::Spec(term))?;
            Ok(true)
        }
    }
}

/// The type that the signature of a row spells by what is kept.
#[tactic(auto, unfolding(metadata_tables::specs::Schema::schema))]
fn type_of(
    alloc: Global,
    image: &Image<'_>,
    row: u32,
    kept: &KeptNames,
) -> Result<Option<SigType>, NoMemory>
    requires meets { MeetStructure image.now }
    requires there { HasRow image.now 0x1B row }
    ensures { IfOk result (λ found. MatchOption found (SpellsNone image.now kept.now row) (Spells image.now kept.now row)) }
{
    one_content_at_an_index();
    let bytes = blob_at(image, 0x1B, row, 0);
    decode_type(alloc, bytes, kept)
}
