ghost use Rattle.std.specs.Prelude.{◌≤◌, ◌^◌, ℕ, IsTrue, IfOk, IfErr, length};
ghost use Rattle.assembly_tree.specs.WellFormed.{is_well_formed};
ghost use Rattle.assembly_tree.specs.declared.assembly.Assembly.{Assembly};
ghost use Rattle.formed_images.specs.Laws.{AreBytes};
ghost use Rattle.image_model.specs.declared.place.Place.{Place};
ghost use Rattle.image_model.specs.Faults.{Reads, IsImageFault};
ghost use Rattle.row_demands.specs.Structured.{MeetStructure};
ghost use Rattle.image_reader.specs.Outcome.{IsFaultOf, IsOutcome, IsAnswer, AnswersAssembly, AnswersFault};

use crate::fault::ImageFault;
use crate::whole::read_whole;
use assembly_tree::Assembly;
use formed_images::{bytes_in_range, what_is_read_is_formed};
use il_base::NoMemory;
use image_assemblies::an_image_has_one_outcome;
use image_demands::{Survey, first_unmet_named};
use image_streams::{Image, Unmet, open};
use row_demands::first_unmet;
use std::alloc::Global;

/// The assembly that an image of at most 2^26 bytes reads as, which is well formed (II.22, II.24, II.25). Takes time and memory in
/// proportion to the image, but for bodies, signatures and names that are made to overlap, which are looked at one by one.
///
/// # Errors
///
/// `Bad`: the first of the demands I1 to I24 that the image fails, with its place. `NoMemory`: there was no memory.
pub fn read(alloc: Global, file: &[u8]) -> Result<Assembly, ImageFault>
    requires { length file.now ≤ 2 ^ 26 }
    ensures reads { IfOk result (Reads file.now) }
    ensures formed { IfOk result (λ a. IsTrue (is_well_formed a)) }
    ensures fault { IfErr result (IsFaultOf file.now) }
    ensures only_read { (a : Assembly) → Reads file.now a → AnswersAssembly a result }
    ensures only_fault { (rule : ℕ) (at : Place) → IsImageFault file.now rule at → AnswersFault rule at result }
{
    bytes_in_range(file);
    what_is_read_is_formed();
    an_image_has_one_outcome();
    answer(alloc, file)
}

/// The same, by its one clause.
fn answer(alloc: Global, file: &[u8]) -> Result<Assembly, ImageFault>
    requires { length file.now ≤ 2 ^ 26 }
    ensures { IsAnswer file.now result }
{
    match read_file(alloc, file) {
        Ok(Ok(assembly)) => Ok(assembly),
        Ok(Err(unmet)) => Err(ImageFault::Bad {
            rule: unmet.rule,
            at: unmet.at,
        }),
        Err(NoMemory) => Err(ImageFault::NoMemory),
    }
}

/// What comes of a file: the assembly, or the first demand that it fails.
fn read_file(alloc: Global, file: &[u8]) -> Result<Result<Assembly, Unmet>, NoMemory>
    requires { length file.now ≤ 2 ^ 26 }
    ensures { IfOk result (IsOutcome file.now) }
{
    bytes_in_range(file);
    match open(file) {
        Ok(image) => read_image(alloc, &image),
        Err(unmet) => Ok(Err(unmet)),
    }
}

/// The same of an image that meets I1 to I7.
fn read_image(alloc: Global, image: &Image<'_>) -> Result<Result<Assembly, Unmet>, NoMemory>
    requires small { length image.now ≤ 2 ^ 26 }
    requires bytes { AreBytes image.now }
    ensures { IfOk result (IsOutcome image.now) }
{
    if let Some(unmet) = first_unmet(alloc, image)? {
        return Ok(Err(unmet));
    }
    read_rows(alloc, image)
}

/// The same of an image that meets I1 to I12.
fn read_rows(alloc: Global, image: &Image<'_>) -> Result<Result<Assembly, Unmet>, NoMemory>
    requires small { length image.now ≤ 2 ^ 26 }
    requires bytes { AreBytes image.now }
    requires meets { MeetStructure image.now }
    ensures { IfOk result (IsOutcome image.now) }
{
    let survey = Survey::new(alloc, image)?;
    if let Some(unmet) = first_unmet_named(alloc, image, &survey)? {
        return Ok(Err(unmet));
    }
    read_whole(alloc, image, &survey)
}
