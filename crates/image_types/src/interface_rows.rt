ghost use Rattle.std.specs.Prelude.{◌≡◌, IfOk};
ghost use Rattle.std.specs.List.{AllZip};
ghost use Rattle.image_model.specs.Columns.{interface_class, interface_type};
ghost use Rattle.image_model.specs.Reading.{AreInterfaces, OwnerIs};
ghost use Rattle.image_model.specs.Rows.{HasRow, rows_with};
ghost use Rattle.image_source.specs.Names.{names_of};
ghost use Rattle.image_source.specs.Ready.{IsReady};

use heaps::one_content_at_an_index;
use il_base::NoMemory;
use image_source::{Source, owner};
use row_parts::{Part, read_owned};
use sig_codec::read_is_spelled;
use sorted_owners::rising;
use std::alloc::Global;
use type_terms::{Owner, Owners, orders_are_total};

/// The interfaces of a type, in the order of terms and each once (II.22.23).
pub(crate) fn interfaces(
    alloc: Global,
    source: &Source<'_, '_>,
    row: u32,
) -> Result<Owners, NoMemory>
    requires { IsReady source.now.image.now source.now.kept.now source.now.sizes.now }
    ensures { IfOk result (AreInterfaces source.now.image.now (names_of source.now.kept.now) row) }
{
    one_content_at_an_index();
    read_is_spelled();
    orders_are_total();
    let each = each_interface(alloc, source, row)?;
    rising(alloc, each)
}

/// The interfaces of the rows of a type, in row order.
#[tactic(auto, unfolding(metadata_tables::specs::Schema::schema))]
fn each_interface(alloc: Global, source: &Source<'_, '_>, row: u32) -> Result<Owners, NoMemory>
    requires { IsReady source.now.image.now source.now.kept.now source.now.sizes.now }
    ensures { IfOk result (AllZip (λ k. OwnerIs source.now.image.now (names_of source.now.kept.now) (interface_type source.now.image.now k)) (rows_with source.now.image.now 0x09 interface_class row)) }
{
    read_owned(
        alloc,
        source.image,
        &InterfaceRows { source },
        0x09,
        0,
        u64::from(row),
    )
}

/// Rows of InterfaceImpl.
#[derive(Drop)]
struct InterfaceRows<'r, 's, 'a> {
    source: &'r Source<'s, 'a>,
}

impl<'r, 's, 'a> Part<Owner> for InterfaceRows<'r, 's, 'a> {
    ghost use Rattle.image_model.specs.Columns.{interface_type};
    ghost use Rattle.image_model.specs.Reading.{OwnerIs};
    ghost use Rattle.image_model.specs.Rows.{HasRow};
    ghost use Rattle.image_source.specs.Names.{names_of};
    ghost use Rattle.image_source.specs.Ready.{IsReady};

    ghost there = { λ it row. HasRow it.source.now.image.now 0x09 row × IsReady it.source.now.image.now it.source.now.kept.now it.source.now.sizes.now };

    ghost gives = { λ it row of. OwnerIs it.source.now.image.now (names_of it.source.now.kept.now) (interface_type it.source.now.image.now row) of };

    fn read(&self, alloc: Global, row: u32) -> Result<Owner, NoMemory> {
        interface(alloc, self.source, row)
    }
}

/// An interface.
#[tactic(auto, unfolding(metadata_tables::specs::Schema::schema))]
fn interface(alloc: Global, source: &Source<'_, '_>, row: u32) -> Result<Owner, NoMemory>
    requires there { HasRow source.now.image.now 0x09 row }
    requires ready { IsReady source.now.image.now source.now.kept.now source.now.sizes.now }
    ensures { IfOk result (OwnerIs source.now.image.now (names_of source.now.kept.now) (interface_type source.now.image.now row)) }
{
    let of = source.image.tables().cell(0x09, row, 1);
    owner(alloc, source, of)
}
