//! The image of an assembly from what it is made of (ECMA-335 II.24.2, II.25).
ghost use Rattle.std.specs.Prelude.{◌≡◌, ◌≤◌, ◌^◌, true, length, IfOk};
ghost use Rattle.assembly_tree.specs.Weight.{weight_of};
ghost use Rattle.assembly_tree.specs.WellFormed.{is_well_formed};
ghost use Rattle.image_model.specs.Faults.{Reads};
ghost use Rattle.image_model.specs.Tidy.{IsTidy};
ghost use Rattle.laws_image_reading.specs.parts.Ranges.{AreInRange};
ghost use Rattle.image_rows.specs.Filled.{entry_token};
ghost use Rattle.image_writer.specs.Contents.{IsContents};

use assembly_tree::{Assembly, conditions_are_named};
use il_base::{Bytes, NoMemory};
use image_layout::lay_out;
use image_members::classes::Class;
use image_tokens::references::References;
use laws_image_indexes::indexes_are_there;
use laws_image_parts::{images_are_tidy, references_are_distinct, references_are_tidy};
use laws_image_reading::images_are_read;
use laws_tree_weights::laws::{filled_is_counted, weight_is_enough};
use laws_writable_trees::laws::accessors_have_rows;
use metadata_tables::Rows;
use pe_layout::Kind;
use std::alloc::Global;

/// The image of an assembly, whose types are `_classes`, from what it is made of; `entry` is the token of its entry point, or 0.
pub(crate) fn lay_out_filled<'a>(
    alloc: Global,
    a: &Assembly,
    _classes: &[Class<'a>],
    refs: &References<'a>,
    rows: &Rows,
    code: Bytes,
    entry: u32,
    id: &[u8; 16],
    kind: Kind,
) -> Result<Bytes, NoMemory>
    requires formed { is_well_formed a.now ≡ true }
    requires weight { weight_of a.now ≤ 2 ^ 26 }
    requires contents { IsContents a.now _classes.now refs.now rows.now code }
    requires entry { entry ≡ entry_token a.now _classes.now }
    requires ranges { AreInRange a.now _classes.now }
    ensures reads { IfOk result (λ image. Reads image a.now) }
    ensures tidy { IfOk result (λ image. IsTidy image kind id.now) }
    ensures small { IfOk result (λ image. length image ≤ weight_of a.now) }
{
    conditions_are_named();
    accessors_have_rows();
    indexes_are_there();
    weight_is_enough();
    filled_is_counted();
    references_are_distinct(refs);
    references_are_tidy();
    images_are_read();
    images_are_tidy();
    lay_out(alloc, refs, rows, code, entry, id, &a.manifest, kind)
}
