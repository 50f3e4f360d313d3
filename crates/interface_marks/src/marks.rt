ghost use Rattle.std.specs.Prelude.{◌≡◌, ◌+◌, ◌<◌, ◌≤◌, ◌-◌, ℕ, IfOk, OnOk, Some, true, false, length, slice_index};
ghost use Rattle.hash_places.specs.Slots.{place_of};
ghost use Rattle.image_model.specs.Columns.{interface_class};
ghost use Rattle.image_model.specs.Rows.{count_of, HasRow};
ghost use Rattle.interface_marks.specs.Marking.{IsAlike, AreMarked, AreLast};
ghost use Rattle.row_demands.specs.Structured.{MeetStructure};
ghost use Rattle.told_weights.specs.Fresh.{AreFresh, NumberTypes};

use hash_places::HashPlaces;
use il_base::{Items, NoMemory};
use image_streams::Image;
use std::alloc::Global;

/// For each row of InterfaceImpl, and for row 0 besides, whether no earlier row of its class names its type, by numbers for what the
/// rows name. Looks at each row once.
///
/// # Errors
///
/// There was no memory for the marks.
pub fn mark_interfaces(
    alloc: Global,
    image: &Image<'_>,
    numbers: &[u32],
) -> Result<Items<bool>, NoMemory>
    requires meets { MeetStructure image.now }
    requires numbers { NumberTypes image.now numbers.now }
    ensures { IfOk result (λ marks. AreFresh image.now marks) }
{
    let mut marks = Items::one(alloc, false)?;
    let mut last = HashPlaces::new(alloc);
    for row in 0..image.tables().rows(0x09) {
        let fresh = is_fresh(image, numbers, &mut last, row + 1)?;
        marks.push(fresh)?;
    }
    Ok(marks)
}

/// Whether no earlier row is alike; then the row is kept as the last of its number.
fn is_fresh(
    image: &Image<'_>,
    numbers: &[u32],
    last: &mut HashPlaces,
    row: u32,
) -> Result<bool, NoMemory>
    requires meets { MeetStructure image.now }
    requires there { HasRow image.now 0x09 row }
    requires last { AreLast image.now numbers.now (row - 1) last.old }
    ensures last { OnOk result (AreLast image.now numbers.now row last.new) }
    ensures fresh { IfOk result (λ fresh. fresh ≡ true → (earlier : ℕ) → 0 < earlier → earlier < row → IsAlike image.now numbers.now earlier row → ⊥) }
    ensures again { IfOk result (λ fresh. fresh ≡ false → (earlier : ℕ) × (0 < earlier) × (earlier < row) × IsAlike image.now numbers.now earlier row) }
{
    let number = number_at(numbers, row);
    if has_last(image, last, number, row) {
        return Ok(false);
    }
    last.insert(number, row as usize)?;
    Ok(true)
}

/// The number at a place, or 0 past the end.
fn number_at(numbers: &[u32], at: u32) -> u64
    ensures { result ≡ slice_index numbers.now at }
{
    match numbers.get(at as usize) {
        Some(number) => u64::from(*number),
        None => 0,
    }
}

/// Whether the last row of a number has the class of a row.
#[tactic(auto, unfolding(metadata_tables::specs::Schema::schema))]
fn has_last(image: &Image<'_>, last: &HashPlaces, number: u64, row: u32) -> bool
    requires there { HasRow image.now 0x09 row }
    requires last { (number k : ℕ) → place_of last.now number ≡ Some k → HasRow image.now 0x09 k }
    requires before { (number k : ℕ) → place_of last.now number ≡ Some k → k < row }
    ensures yes { result ≡ true → (k : ℕ) × (place_of last.now number ≡ Some k) × (interface_class image.now k ≡ interface_class image.now row) }
    ensures no { result ≡ false → (k : ℕ) → place_of last.now number ≡ Some k → interface_class image.now k ≡ interface_class image.now row → ⊥ }
{
    match last.get(number) {
        Some(k) => class_at(image, k as u32) == class_at(image, row),
        None => false,
    }
}

/// The class of a row.
#[tactic(auto, unfolding(metadata_tables::specs::Schema::schema))]
fn class_at(image: &Image<'_>, row: u32) -> u32
    requires { HasRow image.now 0x09 row }
    ensures { result ≡ interface_class image.now row }
{
    image.tables().cell(0x09, row, 0)
}
