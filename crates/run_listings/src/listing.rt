ghost use Rattle.std.specs.Prelude.{◌≡◌, ◌≤◌, ◌^◌, ℕ, length, IfOk};
ghost use Rattle.run_listings.specs.Listings.{GivesListing, MeritsListing, told};

use formed_images::bytes_in_range;
use held_images::what_is_read_is_held;
use il_base::{NoMemory, Text};
use image_assemblies::an_image_has_one_outcome;
use image_reader::{ImageFault, read};
use listing_denotes::classes::listings_denote;
use listing_printer::print;
use run_endings::{Ending, Written, makes, prints};
use run_images::{faults_are_numbered, image_fault_said};
use std::alloc::Global;

/// What `ildasm` makes or says of the image `file`: its listing, which denotes its assembly, in the file `out` where there is one and else on
/// standard output; or the first demand that it fails.
///
/// # Errors
///
/// There was no memory for the assembly, the listing or a text.
pub fn listed(
    alloc: Global,
    file: &str,
    out: Option<Text>,
    image: &[u8],
) -> Result<Ending, NoMemory>
    requires { length image.now ≤ 2 ^ 26 }
    ensures gives { IfOk result (GivesListing file.now out image.now) }
    ensures merits { (m : ℕ) → MeritsListing image.now m → IfOk result (λ e. e.number ≡ m) }
{
    faults_are_numbered();
    an_image_has_one_outcome();
    bytes_in_range(image);
    what_is_read_is_held();
    listings_denote();
    match read(alloc, image) {
        Ok(a) => {
            let listing = print(alloc, &a)?;
            let ending = told(alloc, out, listing)?;
            Ok(ending)
        }
        Err(ImageFault::Bad { rule, at }) => {
            let ending = image_fault_said(alloc, file, rule, at)?;
            Ok(ending)
        }
        Err(ImageFault::NoMemory) => Err(NoMemory),
    }
}

/// A listing that is printed, or made in a file where one is named.
fn told(alloc: Global, out: Option<Text>, listing: Text) -> Result<Ending, NoMemory>
    ensures { IfOk result (λ e. e ≡ told out listing) }
{
    match out {
        Some(name) => makes(alloc, name, Written::from_text(listing)),
        None => prints(alloc, 0, listing),
    }
}
