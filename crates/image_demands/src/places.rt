ghost use Rattle.std.specs.Prelude.{◌≡◌, option_map};
ghost use Rattle.image_demands.specs.Meeting.{unmet_at};

use image_model::Place;
use image_streams::Unmet;

/// A demand that isn't met at a row.
pub(crate) fn at_row(rule: u8, table: u8, row: u32) -> Unmet
    ensures { result ≡ unmet_at rule (table, row) }
{
    Unmet {
        rule,
        at: Place::Row { table, row },
    }
}

/// The same, where a row was found.
pub(crate) fn found_at(rule: u8, found: Option<(u8, u32)>) -> Option<Unmet>
    ensures { result ≡ option_map (unmet_at rule) found }
{
    match found {
        Some((table, row)) => Some(at_row(rule, table, row)),
        None => None,
    }
}
