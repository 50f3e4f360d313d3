ghost use Rattle.std.specs.Prelude.{◌↔◌, IsTrue};
ghost use Rattle.image_model.specs.Cells.{HasEntry};

use crate::indexes::has_row;
use image_streams::Image;

/// Whether the entry point is none, or a method that is there: the part of I8 that is asked after all rows.
pub fn has_entry(image: &Image<'_>) -> bool
    ensures { IsTrue result ↔ HasEntry image.now }
{
    let token = image.entry_token();
    token == 0 || has_row(image, 0x06, token % 0x100_0000)
}
