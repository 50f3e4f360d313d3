ghost use Rattle.std.specs.Prelude.{◌≡◌, ℕ, MatchOption, IfSome, IfNone};
ghost use Rattle.demand_search.specs.Search.{IsFirstBad};
ghost use Rattle.image_model.specs.Faults.{IsImageFault};
ghost use Rattle.image_model.specs.Structure.{HasScopes};
ghost use Rattle.row_demands.specs.Structured.{MeetStructure};

use crate::{Scopes, TypeNames};
use demand_search::first_bad;
use image_model::Place;
use image_streams::{Image, Unmet};

/// Where an image that meets I1 to I12 fails the demand on nesting and scopes (I13); None exactly where it meets it. Each row is
/// looked at once, and no memory is taken.
pub fn first_unmet_scope(image: &Image<'_>, names: &TypeNames<'_, '_>) -> Option<Unmet>
    requires same { names.now.image ≡ image.now }
    requires meets { MeetStructure image.now }
    ensures { MatchOption result ((table row : ℕ) → HasScopes image.now table row) (λ unmet. IsImageFault image.now unmet.rule unmet.at) }
{
    let _tables = image.tables();
    match bad_scopes(image, names) {
        Some((table, row)) => Some(Unmet {
            rule: 13,
            at: Place::Row { table, row },
        }),
        None => None,
    }
}

/// The first row whose nesting or scope is wrong.
fn bad_scopes(image: &Image<'_>, names: &TypeNames<'_, '_>) -> Option<(u8, u32)>
    requires same { names.now.image ≡ image.now }
    requires meets { MeetStructure image.now }
    ensures bad { IfSome result (λ at. IsFirstBad (HasScopes image.now) at.0 at.1) }
    ensures none { IfNone result ((table row : ℕ) → HasScopes image.now table row) }
{
    let scopes = Scopes::new(image, names);
    first_bad(&scopes)
}
