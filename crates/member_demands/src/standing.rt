ghost use Rattle.std.specs.Prelude.{◌≤◌, ◌<◌, ◌⊎◌, ℕ};
ghost use Rattle.image_model.specs.Rows.{count_of, HasRow};

use image_streams::Image;

/// A law: rows stand in the tables of the profile alone, and there up to their number.
pub(crate) fn rows_stand_in_tables(image: &Image<'_>)
    ensures { (table row : ℕ) → (45 ≤ table) ⊎ (count_of image.now table < row) → HasRow image.now table row → ⊥ }
{
    let _tables = image.tables();
}
