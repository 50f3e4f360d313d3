//! Images read one after the other.
ghost use Rattle.std.specs.Prelude.{◌≡◌, ◌≤◌, ◌^◌, ℕ, List, length, IfOk, IfErr};
ghost use Rattle.std.specs.List.{All, AllZip};
ghost use Rattle.image_model.specs.Faults.{Reads};
ghost use Rattle.type_order.specs.Worlds.{IsFit};
ghost use Rattle.run_reports.specs.Stops.{IsStop, stop_at};

use assembly_tree::Assembly;
use il_base::{Bytes, Items};
use image_model::Place;
use image_reader::{ImageFault, read};
use std::alloc::Global;

/// Why not all images were read.
#[derive(Clone, Copy)]
pub(crate) enum Stop {
    /// The image with this number, counted from 0, fails a demand, and none before it does.
    Faulty {
        /// The number of the image.
        number: usize,
        /// The number of the demand.
        rule: u8,
        /// Where it fails.
        at: Place,
    },
    /// There was no memory.
    NoMemory,
}

/// The assemblies that images read as.
pub(crate) fn read_all(alloc: Global, images: &[Bytes]) -> Result<Items<Assembly>, Stop>
    requires { All (λ (image : List ℕ). length image ≤ 2 ^ 26) images.now }
    ensures read { IfOk result (AllZip Reads images.now) }
    ensures fit { IfOk result (All IsFit) }
    ensures stop { IfErr result (IsStop images.now) }
{
    let mut assemblies = Items::new(alloc);
    for (number, image) in images.iter().enumerate() {
        let a = match read(alloc, image.as_slice()) {
            Ok(a) => a,
            Err(fault) => return Err(stop_at(number, fault)),
        };
        if assemblies.push(a).is_err() {
            return Err(Stop::NoMemory);
        }
    }
    Ok(assemblies)
}

/// What is answered where the image with a number isn't read.
fn stop_at(number: usize, fault: ImageFault) -> Stop
    ensures { result ≡ stop_at number fault }
{
    match fault {
        ImageFault::Bad { rule, at } => Stop::Faulty { number, rule, at },
        ImageFault::NoMemory => Stop::NoMemory,
    }
}
