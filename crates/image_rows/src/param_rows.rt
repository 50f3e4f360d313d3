//! The rows of Param (ECMA-335 II.22.33).
ghost use Rattle.std.specs.Prelude.{◌≡◌, ◌+◌, ◌-◌, ◌^◌, ◌<◌, ◌≤◌, ◌∷◌, [], length, sum_by, OnOk};
ghost use Rattle.std.specs.List.{AllByRecursion};
ghost use Rattle.metadata_tables.specs.Encoding.{rows_in};
ghost use Rattle.image_rows.specs.ParamRows.{param_flags, IsParamRow, param_bytes, IsPlainParam};
ghost use Rattle.image_members.specs.Places.{lent};
ghost use Rattle.image_members.specs.Pushing.{Pushes};
ghost use Rattle.image_tokens.specs.References.{size, AreKnown};

use assembly_tree::Param;
use il_base::NoMemory;
use image_tokens::members::refer_text;
use image_tokens::references::References;
use image_tokens::tokens::PARAM;
use metadata_tables::{Rows, row_of_columns};

/// Adds the rows of parameters.
pub fn push_params<'a>(
    refs: &mut References<'a>,
    rows: &mut Rows,
    params: &[&'a Param],
) -> Result<(), NoMemory>
    requires known { AreKnown refs.old }
    requires plain { AllByRecursion IsPlainParam (lent params.now) }
    requires few { rows_in rows.old 0x08 + length (lent params.now) < 2 ^ 24 }
    requires room { size refs.old + sum_by param_bytes (lent params.now) ≤ 2 ^ 26 }
    ensures { OnOk result (Pushes 0x08 IsParamRow param_bytes (lent params.now) refs.old refs.new rows.old rows.new) }
{
    for param in params {
        push_param(refs, rows, param)?;
    }
    Ok(())
}

/// Adds the row of a parameter.
fn push_param<'a>(refs: &mut References<'a>, rows: &mut Rows, param: &Param) -> Result<(), NoMemory>
    requires known { AreKnown refs.old }
    requires plain { IsPlainParam param.now }
    requires few { rows_in rows.old 0x08 < 2 ^ 24 - 1 }
    requires room { size refs.old + param_bytes param.now ≤ 2 ^ 26 }
    ensures { OnOk result (Pushes 0x08 IsParamRow param_bytes (param.now ∷ []) refs.old refs.new rows.old rows.new) }
{
    row_of_columns();
    let name = refer_text(refs, &param.name)?;
    let flags = flags_of(param);
    rows.push(PARAM, &[u32::from(flags), u32::from(param.number), name])?;
    Ok(())
}

/// The flags, with HasDefault where there is a constant (II.23.1.13).
fn flags_of(param: &Param) -> u16
    ensures { result ≡ param_flags param.now }
{
    let constant = if param.constant.is_some() { 0x1000 } else { 0 };
    param.flags | constant
}
