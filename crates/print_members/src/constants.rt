//! Constants (ECMA-335 II.16.2, II.22.9).
ghost use Rattle.std.specs.Prelude.{◌≡◌, OnOk};
ghost use Rattle.listing_model.specs.Shown.{none, opt_below};
ghost use Rattle.listing_model.specs.Values.{number_in_parentheses, constant_item, equals_constant};
ghost use Rattle.listing_leaves.specs.Numbers.{hexadecimal, integer};
ghost use Rattle.print_leaves.specs.Page.{drawn};
ghost use Rattle.print_terms.specs.Rows.{under};
ghost use Rattle.print_members.specs.Rows.{truth_drawn};

use assembly_tree::Constant;
use il_lexer::word;
use il_lists::NoMemory;
use print_leaves::Paper;
use print_terms::write_int_type;

/// `= c`, where there is a constant.
pub fn write_constant_opt(paper: &mut Paper, constant: &Option<Constant>) -> Result<(), NoMemory>
    ensures { OnOk result (paper.new ≡ drawn paper.old (opt_below (equals_constant constant.now))) }
{
    if let Some(constant) = constant {
        paper.word(word::EQUALS)?;
        write_constant(paper, constant)?;
    }
    Ok(())
}

fn write_constant(paper: &mut Paper, constant: &Constant) -> Result<(), NoMemory>
    ensures { OnOk result (paper.new ≡ under paper.old (constant_item constant.now)) }
{
    match constant {
        Constant::Bool(value) => {
            write_truth(paper, *value)?;
            Ok(())
        }
        Constant::Char(unit) => {
            paper.word(word::CHAR)?;
            write_bits(paper, 4, u64::from(*unit))?;
            Ok(())
        }
        Constant::Int { of, value } => {
            write_int_type(paper, *of)?;
            write_integer(paper, *value)?;
            Ok(())
        }
        Constant::Real4(bits) => {
            paper.word(word::FLOAT32)?;
            write_bits(paper, 8, u64::from(*bits))?;
            Ok(())
        }
        Constant::Real8(bits) => {
            paper.word(word::FLOAT64)?;
            write_bits(paper, 16, *bits)?;
            Ok(())
        }
        Constant::Str(units) => {
            paper.units(units.as_slice())?;
            Ok(())
        }
        Constant::Null => {
            paper.word(word::NULLREF)?;
            Ok(())
        }
    }
}

// `bool(true)` or `bool(false)`.
fn write_truth(paper: &mut Paper, value: bool) -> Result<(), NoMemory>
    ensures { OnOk result (paper.new ≡ truth_drawn paper.old value) }
{
    paper.word(word::BOOL)?;
    paper.word(word::OPEN_PAREN)?;
    paper.word(if value { word::TRUE } else { word::FALSE })?;
    paper.word(word::CLOSE_PAREN)?;
    Ok(())
}

// Bits as at least so many hexadecimal digits in parentheses.
fn write_bits(paper: &mut Paper, width: u32, bits: u64) -> Result<(), NoMemory>
    ensures { OnOk result (paper.new ≡ drawn paper.old (number_in_parentheses (hexadecimal width bits))) }
{
    paper.word(word::OPEN_PAREN)?;
    paper.hexadecimal(width, bits)?;
    paper.word(word::CLOSE_PAREN)?;
    Ok(())
}

// A number in parentheses.
fn write_integer(paper: &mut Paper, value: i128) -> Result<(), NoMemory>
    ensures { OnOk result (paper.new ≡ drawn paper.old (number_in_parentheses (integer value))) }
{
    paper.word(word::OPEN_PAREN)?;
    paper.integer(value)?;
    paper.word(word::CLOSE_PAREN)?;
    Ok(())
}
