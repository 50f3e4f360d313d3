ghost use Rattle.std.specs.Prelude.{◌≡◌, ◌≤◌, ◌∷◌, [], true, IfOk, string_bytes};
ghost use Rattle.std.specs.Fmt.{digit_glyph};
ghost use Rattle.listing_leaves.specs.Bytes.{pair};
ghost use Rattle.run_endings.specs.Ends.{says_only};
ghost use Rattle.run_images.specs.Texts.{image_text, place_text};

use il_base::NoMemory;
use image_model::{Place, demand_text};
use run_endings::{Ending, says};
use std::alloc::Global;

/// The ending of a run that reads an image which fails the demand with this number at this place.
///
/// # Errors
///
/// There was no memory for the text.
pub fn image_fault_said(alloc: Global, file: &str, rule: u8, at: Place) -> Result<Ending, NoMemory>
    requires first { 1 ≤ rule }
    requires last { rule ≤ 24 }
    ensures { IfOk result (λ e. e ≡ says_only 1 (image_text file.now rule at)) }
{
    let place = place_said(alloc, at)?;
    let place = place.as_str();
    let text = demand_text(rule);
    let message = format!(in alloc; "{file}: error I{rule} at {place}: {text}\n")?;
    says(alloc, 1, message)
}

// A place in an image.
fn place_said(alloc: Global, at: Place) -> Result<String, NoMemory>
    ensures { IfOk result (λ text. string_bytes text ≡ place_text at) }
{
    let text = match at {
        Place::Byte(at) => format!(in alloc; "byte {at}")?,
        Place::Row { table, row } => {
            let high = glyph(table / 16);
            let low = glyph(table % 16);
            format!(in alloc; "table {high}{low} row {row}")?
        }
        Place::Whole => format!(in alloc; "the whole")?,
    };
    Ok(text)
}

// A hexadecimal digit.
fn glyph(digit: u8) -> &'static str
    requires { digit ≤ 15 }
    ensures { result.now ≡ digit_glyph true digit ∷ [] }
{
    match digit {
        0 => "0",
        1 => "1",
        2 => "2",
        3 => "3",
        4 => "4",
        5 => "5",
        6 => "6",
        7 => "7",
        8 => "8",
        9 => "9",
        10 => "A",
        11 => "B",
        12 => "C",
        13 => "D",
        14 => "E",
        _ => "F",
    }
}
