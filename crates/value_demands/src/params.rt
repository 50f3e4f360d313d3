ghost use Rattle.std.specs.Prelude.{◌≡◌, ◌≤◌, ◌<◌, ◌^◌, ◌↔◌, ℕ, IsTrue};
ghost use Rattle.image_model.specs.Columns.{param_sequence};
ghost use Rattle.image_model.specs.Rows.{HasRow, first_param, run_end};
ghost use Rattle.row_demands.specs.Structured.{MeetStructure};

use image_streams::Image;

/// Whether the params of a method have numbers up to this one (II.22.33).
#[tactic(auto, unfolding(metadata_tables::specs::Schema::schema))]
pub(crate) fn params_fit(image: &Image<'_>, method: u32, most: u32) -> bool
    requires there { HasRow image.now 0x06 method }
    requires meets { MeetStructure image.now }
    ensures { IsTrue result ↔ ((k : ℕ) → first_param image.now method ≤ k → k < run_end image.now 0x06 (first_param image.now) 0x08 method → param_sequence image.now k ≤ most) }
{
    let tables = image.tables();
    let first = u64::from(first_param(image, method));
    let end = end_of_params(image, method);
    for k in first..end {
        let sequence = tables.cell(0x08, k as u32, 1);
        if sequence > most {
            return false;
        }
    }
    true
}

/// Where the params of a method begin.
#[tactic(auto, unfolding(metadata_tables::specs::Schema::schema))]
fn first_param(image: &Image<'_>, method: u32) -> u32
    requires there { HasRow image.now 0x06 method }
    ensures { result ≡ first_param image.now method }
{
    let tables = image.tables();
    let cell = tables.cell(0x06, method, 5);
    if tables.rows(0x08) == 65_535 && cell == 0 {
        65_536
    } else {
        cell
    }
}

/// Where the params of a method end: where those of the next one begin, or behind the last.
fn end_of_params(image: &Image<'_>, method: u32) -> u64
    requires there { HasRow image.now 0x06 method }
    ensures is { result ≡ run_end image.now 0x06 (first_param image.now) 0x08 method }
    ensures few { result ≤ 2 ^ 32 }
{
    let tables = image.tables();
    if method == tables.rows(0x06) {
        u64::from(tables.rows(0x08)) + 1
    } else {
        u64::from(first_param(image, method + 1))
    }
}
