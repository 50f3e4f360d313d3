//! What is printed of an image.

ghost use Rattle.std.specs.Prelude.{◌≤◌, ◌^◌, length};

use crate::fault::Fault;
use image_demands::first_unmet_demand;
use image_model::{Place, demand_text};
use image_streams::{Image, Unmet, open};

/// The greatest length of an image that is looked at.
const MAX_IMAGE: usize = 1 << 26;

/// Prints the first demand that an image fails among I1 to I23, or that there is none.
pub fn show(rt: &HostRuntime, name: &str, image: &[u8]) -> Result<(), Fault> {
    if image.len() > MAX_IMAGE {
        return Err(Fault::Line);
    }
    match open(image) {
        Ok(image) => show_rows(rt, name, &image),
        Err(unmet) => show_fault(rt, name, &unmet),
    }
}

/// Prints the first demand on rows that an opened image fails.
fn show_rows(rt: &HostRuntime, name: &str, image: &Image<'_>) -> Result<(), Fault>
    requires { length image.now ≤ 2 ^ 26 }
{
    match first_unmet_demand(rt.alloc(), image)? {
        Some(unmet) => show_fault(rt, name, &unmet),
        None => Ok(println!(rt; "{name}: meets I1 to I23")?),
    }
}

fn show_fault(rt: &HostRuntime, name: &str, unmet: &Unmet) -> Result<(), Fault> {
    let rule = unmet.rule;
    let text = text_of(rule);
    match unmet.at {
        Place::Byte(at) => println!(rt; "{name}: I{rule} at byte {at}: {text}")?,
        Place::Row { table, row } => {
            println!(rt; "{name}: I{rule} at table {table:02X} row {row}: {text}")?
        }
        Place::Whole => println!(rt; "{name}: I{rule} at the whole: {text}")?,
    }
    Ok(())
}

/// The text of a demand; empty for a number that is none.
fn text_of(rule: u8) -> &'static str {
    if (1..=24).contains(&rule) {
        demand_text(rule)
    } else {
        ""
    }
}
