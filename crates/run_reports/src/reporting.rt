//! What is said of an image and of those that it refers to.
ghost use Rattle.std.specs.Prelude.{◌≡◌, ◌≤◌, ◌^◌, ◌∷◌, ℕ, List, length, IfOk};
ghost use Rattle.std.specs.List.{All};
ghost use Rattle.image_model.specs.Faults.{Reads};
ghost use Rattle.type_order.specs.Worlds.{IsFit};
ghost use Rattle.run_reports.specs.Reports.{GivesReport, MeritsReport};

use crate::checking::{checked, name_by};
use crate::images::{Stop, read_all};
use assembly_tree::Assembly;
use il_base::{Bytes, NoMemory, Text};
use image_assemblies::an_image_has_one_outcome;
use image_reader::{ImageFault, read};
use run_endings::Ending;
use run_images::{faults_are_numbered, image_fault_said};
use std::alloc::Global;

/// What `peverify` says of the image in `file` and of the assemblies that it refers to, at most eight, in the files with these `names`:
/// the first demand that one of them fails; else the first type that is its own ancestor; else a line for each failure of a body of the
/// image, and how many methods with a body and failures there are.
///
/// # Errors
///
/// There was no memory for the assemblies, for what is known of their types, or for a text.
pub fn reported(
    alloc: Global,
    file: &str,
    names: &[Text],
    image: &[u8],
    others: &[Bytes],
) -> Result<Ending, NoMemory>
    requires small { length image.now ≤ 2 ^ 26 }
    requires smalls { All (λ (other : List ℕ). length other ≤ 2 ^ 26) others.now }
    requires few { length others.now ≤ 8 }
    ensures gives { IfOk result (GivesReport (file.now ∷ names.now) (image.now ∷ others.now)) }
    ensures merits { (m : ℕ) → MeritsReport (image.now ∷ others.now) m → IfOk result (λ e. e.number ≡ m) }
{
    faults_are_numbered();
    an_image_has_one_outcome();
    match read(alloc, image) {
        Ok(a) => {
            let ending = with_others(alloc, file, names, image, &a, others)?;
            Ok(ending)
        }
        Err(ImageFault::Bad { rule, at }) => {
            let ending = image_fault_said(alloc, file, rule, at)?;
            Ok(ending)
        }
        Err(ImageFault::NoMemory) => Err(NoMemory),
    }
}

/// The same, once the image is read.
fn with_others(
    alloc: Global,
    file: &str,
    names: &[Text],
    image: &[u8],
    a: &Assembly,
    others: &[Bytes],
) -> Result<Ending, NoMemory>
    requires reads { Reads image.now a.now }
    requires fit { IsFit a.now }
    requires small { length image.now ≤ 2 ^ 26 }
    requires smalls { All (λ (other : List ℕ). length other ≤ 2 ^ 26) others.now }
    requires few { length others.now ≤ 8 }
    ensures gives { IfOk result (GivesReport (file.now ∷ names.now) (image.now ∷ others.now)) }
    ensures merits { (m : ℕ) → MeritsReport (image.now ∷ others.now) m → IfOk result (λ e. e.number ≡ m) }
{
    faults_are_numbered();
    an_image_has_one_outcome();
    // The image stands in the clauses alone.
    let _ = image;
    match read_all(alloc, others) {
        Ok(references) => {
            let ending = checked(alloc, file, names, a, &references)?;
            Ok(ending)
        }
        Err(Stop::Faulty { number, rule, at }) => {
            let name = name_by(file, names, number + 1);
            let ending = image_fault_said(alloc, name, rule, at)?;
            Ok(ending)
        }
        Err(Stop::NoMemory) => Err(NoMemory),
    }
}
