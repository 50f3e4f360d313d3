//! The data of fields, in the order in which the fields stand in the listing (ECMA-335 II.16.3).
ghost use Rattle.std.specs.Prelude.{◌≡◌, ◌+◌, List, OnOk, IfOk, length, map};
ghost use Rattle.assembly_tree.specs.declared.assembly.ExternAssembly.{ExternAssembly};
ghost use Rattle.listing_model.specs.Canon.{data_lines};
ghost use Rattle.listing_model.specs.Classes.{class, all_contents};
ghost use Rattle.listing_model.specs.Members.{field_contents};
ghost use Rattle.print_terms.specs.Rows.{in_row};
ghost use Rattle.print_types.specs.Pieces.{content_drawn};

use assembly_tree::{Field, TypeDef};
use il_lists::{Bytes, NoMemory};
use print_leaves::Paper;
use print_members::{data_behind, write_data_line};

/// The data of types and those that they nest. `number` is that of the first, and that behind the last is answered.
pub fn write_class_data(paper: &mut Paper, types: &[TypeDef], number: u64) -> Result<u64, NoMemory>
    ensures drawn { (externs : List ExternAssembly) → OnOk result (paper.new ≡ in_row paper.old (data_lines number (all_contents (map (class externs) types.now)))) }
    ensures behind { (externs : List ExternAssembly) → IfOk result (λ next. next ≡ number + length (all_contents (map (class externs) types.now))) }
{
    let mut next = number;
    for of in types {
        next = write_field_data(paper, of.fields.as_slice(), next)?;
        next = write_class_data(paper, of.nested.as_slice(), next)?;
    }
    Ok(next)
}

/// The data of fields.
pub fn write_field_data(paper: &mut Paper, fields: &[Field], number: u64) -> Result<u64, NoMemory>
    ensures drawn { OnOk result (paper.new ≡ in_row paper.old (data_lines number (field_contents fields.now))) }
    ensures behind { IfOk result (λ next. next ≡ number + length (field_contents fields.now)) }
{
    let mut next = number;
    for field in fields {
        write_content(paper, next, &field.content)?;
        next = data_behind(next, &field.content)?;
    }
    Ok(next)
}

// The line of one field's data, where it has some.
fn write_content(paper: &mut Paper, number: u64, content: &Option<Bytes>) -> Result<(), NoMemory>
    ensures { OnOk result (paper.new ≡ content_drawn paper.old number content.now) }
{
    if let Some(bytes) = content {
        write_data_line(paper, number, bytes.as_slice())?;
    }
    Ok(())
}
