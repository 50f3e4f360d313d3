//! The whole listing.
ghost use Rattle.std.specs.Prelude.{◌≡◌, OnOk, IfOk, IsUtf8};
ghost use Rattle.listing_model.specs.Canon.{listing, declarations};
ghost use Rattle.print_terms.specs.Rows.{in_row};

use assembly_tree::Assembly;
use il_lists::{Items, NoMemory, Text};
use print_leaves::{Paper, drawn_is_text};
use print_manifests::{write_externs, write_manifest};
use print_members::write_fields;
use print_methods::write_methods;
use print_terms::ExternKeys;
use print_types::{write_class_data, write_classes, write_field_data};
use std::alloc::Global;

/// The canonical source of an assembly, which is UTF-8.
///
/// # Errors
///
/// There was no memory.
pub fn print(alloc: Global, a: &Assembly) -> Result<Text, NoMemory>
    ensures spelled { IfOk result (λ text. text ≡ listing a.now) }
    ensures utf8 { IfOk result (λ text. IsUtf8 (listing a.now)) }
{
    drawn_is_text();
    let mut paper = Paper::new(alloc);
    write_declarations(&mut paper, alloc, a)?;
    paper.end_line()?;
    let text = Text::from_string(alloc, paper.into_string())?;
    Ok(text)
}

// Externs, the assembly, its module, the types, the fields and methods of `<Module>`, and data.
fn write_declarations(paper: &mut Paper, alloc: Global, a: &Assembly) -> Result<(), NoMemory>
    ensures { OnOk result (paper.new ≡ in_row paper.old (declarations a.now)) }
{
    let externs = ExternKeys::new(alloc, a.externs.as_slice())?;
    write_externs(paper, alloc, &externs, a.externs.as_slice())?;
    write_manifest(paper, &externs, &a.manifest)?;
    let mut outer = Items::new(alloc);
    let next = write_classes(paper, alloc, &externs, &mut outer, a.types.as_slice(), 0)?;
    write_fields(paper, &externs, a.fields.as_slice(), next)?;
    write_methods(paper, alloc, &externs, a.methods.as_slice())?;
    let next = write_class_data(paper, a.types.as_slice(), 0)?;
    write_field_data(paper, a.fields.as_slice(), next)?;
    Ok(())
}
