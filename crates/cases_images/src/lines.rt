//! The lines of a file, one after the other.

use crate::answers::show;
use crate::bytes::{bytes_of, changed};
use crate::fault::Fault;
use il_base::Bytes;
use std::fs;

/// Answers each line of a file.
///
/// # Errors
///
/// The file can't be read, a line doesn't fit, the answers can't be written, or there was no memory.
pub fn answer_file(rt: &HostRuntime, name: &str) -> Result<(), Fault> {
    let Ok(text) = fs::read_to_string(rt, name) else {
        return Err(Fault::Unread);
    };
    let mut image = Bytes::new(rt.alloc());
    for line in text.lines() {
        if let Some(named) = line.strip_prefix("image ") {
            image = named_image(rt, named)?;
        } else if let Some(change) = line.strip_prefix("at ") {
            show_change(rt, image.as_slice(), change)?;
        } else if let Some(count) = line.strip_prefix("cut ") {
            show_cut(rt, image.as_slice(), count)?;
        } else if !line.starts_with('#') {
            return Err(Fault::Line);
        }
    }
    Ok(())
}

/// An image that a line names, of which it prints what it says.
fn named_image(rt: &HostRuntime, line: &str) -> Result<Bytes, Fault> {
    let Some((name, digits)) = line.split_once(' ') else {
        return Err(Fault::Line);
    };
    let image = bytes_of(rt.alloc(), digits)?;
    show(rt, name, image.as_slice())?;
    Ok(image)
}

fn show_change(rt: &HostRuntime, image: &[u8], change: &str) -> Result<(), Fault> {
    let Some((at, digits)) = change.split_once(' ') else {
        return Err(Fault::Line);
    };
    let Ok(place) = at.parse::<u32>() else {
        return Err(Fault::Line);
    };
    let others = bytes_of(rt.alloc(), digits)?;
    let image = changed(rt.alloc(), image, place as usize, others.as_slice())?;
    let name = format!(in rt.alloc(); "  at {at} {digits}")?;
    show(rt, name.as_str(), image.as_slice())
}

fn show_cut(rt: &HostRuntime, image: &[u8], count: &str) -> Result<(), Fault> {
    let Ok(length) = count.parse::<u32>() else {
        return Err(Fault::Line);
    };
    let Some(front) = image.get(..length as usize) else {
        return Err(Fault::Line);
    };
    let name = format!(in rt.alloc(); "  cut to {count}")?;
    show(rt, name.as_str(), front)
}
