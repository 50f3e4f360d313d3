//! The lines of a file, one after the other.

use crate::answers::show;
use crate::bytes::{bytes_of, changed};
use crate::fault::Fault;
use crate::written::image_of_source;
use il_base::Bytes;
use std::fs;

/// An image that others are changes of.
#[derive(Drop)]
struct Whole {
    image: Bytes,
    /// The image that its assembly is written as, where it reads as one.
    written: Option<Bytes>,
}

/// Answers each line of a file.
///
/// # Errors
///
/// The file can't be read, a line doesn't fit, a source gives no image, the answers can't be written, or there was no memory.
pub fn answer_file(rt: &HostRuntime, name: &str) -> Result<(), Fault> {
    let Ok(text) = fs::read_to_string(rt, name) else {
        return Err(Fault::Unread);
    };
    let mut whole = Whole {
        image: Bytes::new(rt.alloc()),
        written: None,
    };
    for line in text.lines() {
        if let Some(named) = line.strip_prefix("image ") {
            whole = named_image(rt, named)?;
        } else if let Some(named) = line.strip_prefix("source ") {
            whole = image_made(rt, named)?;
        } else if !line.starts_with('#') {
            show_change(rt, &whole, line)?;
        }
    }
    Ok(())
}

/// An image that a line names, of which it prints what it says.
fn named_image(rt: &HostRuntime, line: &str) -> Result<Whole, Fault> {
    let Some((name, digits)) = line.split_once(' ') else {
        return Err(Fault::Line);
    };
    let image = bytes_of(rt.alloc(), digits)?;
    let written = show(rt, name, image.as_slice(), None)?;
    Ok(Whole { image, written })
}

/// The image of a source, of which it prints what it says, and whether this is the assembly that was written.
fn image_made(rt: &HostRuntime, line: &str) -> Result<Whole, Fault> {
    let Some((name, source)) = line.split_once(' ') else {
        return Err(Fault::Line);
    };
    let image = image_of_source(rt.alloc(), source)?;
    let written = show(rt, name, image.as_slice(), Some(&image))?;
    Ok(Whole { image, written })
}

fn show_change(rt: &HostRuntime, whole: &Whole, line: &str) -> Result<(), Fault> {
    let image = changed(rt.alloc(), whole.image.as_slice(), line)?;
    let name = format!(in rt.alloc(); "  {line}")?;
    let _ = show(rt, name.as_str(), image.as_slice(), whole.written.as_ref())?;
    Ok(())
}
