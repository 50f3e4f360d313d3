ghost use Rattle.std.specs.Prelude.{◌≡◌, ◌≤◌, IfOk, length};
ghost use Rattle.assembly_tree.specs.declared.typedef.TypeDef.TheViews.{out-TypeDef};
ghost use Rattle.image_model.specs.Columns.{type_extends};
ghost use Rattle.image_model.specs.Members.{layouts_of};
ghost use Rattle.image_model.specs.Naming.{HasId};
ghost use Rattle.image_model.specs.Reading.{ExtendsIs, IsGiven, IsLayout, IsTypeButNested};
ghost use Rattle.image_model.specs.Rows.{HasRow};
ghost use Rattle.image_source.specs.Names.{names_of};
ghost use Rattle.image_source.specs.Ready.{IsReady};
ghost use Rattle.image_types.specs.Maps.{AreMaps};

use crate::Maps;
use crate::interface_rows::interfaces;
use crate::members::{type_events, type_fields, type_methods, type_properties};
use assembly_tree::{Layout, TypeDef, TypeDefs};
use il_base::NoMemory;
use image_attributes::{attributes, generics};
use image_source::{Source, owner};
use row_groups::owned_rows;
use row_parts::{four, number_of, pair, text_of};
use std::alloc::Global;
use type_terms::{Owner, TypeId};

/// A type, with the types that it nests (II.22.37).
#[tactic(auto, unfolding(metadata_tables::specs::Schema::schema))]
pub fn type_with(
    alloc: Global,
    source: &Source<'_, '_>,
    maps: &Maps<'_, '_>,
    row: u32,
    nested: TypeDefs,
) -> Result<TypeDef, NoMemory>
    requires there { HasRow source.now.image.now 0x02 row }
    requires maps { AreMaps source.now.image.now maps.now.events.now maps.now.properties.now maps.now.overrides.now }
    requires ready { IsReady source.now.image.now source.now.kept.now source.now.sizes.now }
    ensures { IfOk result (λ t. IsTypeButNested source.now.image.now (names_of source.now.kept.now) row (out-TypeDef t) × ((out-TypeDef t).nested ≡ nested)) }
{
    let flags = source.image.tables().cell(0x02, row, 0);
    let layout = layout(source, row);
    let read = pair(
        four(
            Ok(nested),
            id(alloc, source, row),
            generics(alloc, source, u64::from(row) * 2),
            attributes(alloc, source, u64::from(row) * 32 + 3),
        ),
        pair(
            pair(extends(alloc, source, row), interfaces(alloc, source, row)),
            four(
                type_fields(alloc, source, row),
                type_methods(alloc, source, maps.overrides, row),
                type_properties(alloc, source, maps.properties, row),
                type_events(alloc, source, maps.events, row),
            ),
        ),
    )?;
    let ((nested, id, generics, attributes), (bases, members)) = read;
    let (extends, implements) = bases;
    let (fields, methods, properties, events) = members;
    Ok(TypeDef {
        id,
        flags,
        layout,
        generics,
        extends,
        implements,
        fields,
        methods,
        properties,
        events,
        nested,
        attributes,
    })
}

/// The name and the space of a type.
#[tactic(auto, unfolding(metadata_tables::specs::Schema::schema))]
fn id(alloc: Global, source: &Source<'_, '_>, row: u32) -> Result<TypeId, NoMemory>
    requires there { HasRow source.now.image.now 0x02 row }
    requires ready { IsReady source.now.image.now source.now.kept.now source.now.sizes.now }
    ensures { IfOk result (HasId source.now.image.now row) }
{
    let (space, name) = pair(
        text_of(alloc, source.image, 0x02, row, 2),
        text_of(alloc, source.image, 0x02, row, 1),
    )?;
    Ok(TypeId { space, name })
}

/// The base of a type, where it has one.
#[tactic(auto, unfolding(metadata_tables::specs::Schema::schema))]
fn extends(alloc: Global, source: &Source<'_, '_>, row: u32) -> Result<Option<Owner>, NoMemory>
    requires there { HasRow source.now.image.now 0x02 row }
    requires ready { IsReady source.now.image.now source.now.kept.now source.now.sizes.now }
    ensures { IfOk result (ExtendsIs source.now.image.now (names_of source.now.kept.now) (type_extends source.now.image.now row)) }
{
    let value = source.image.tables().cell(0x02, row, 3);
    if value == 0 {
        return Ok(None);
    }
    let of = owner(alloc, source, value)?;
    Ok(Some(of))
}

/// The layout of a type, where it has one (II.22.8).
#[tactic(auto, unfolding(metadata_tables::specs::Schema::schema))]
fn layout(source: &Source<'_, '_>, row: u32) -> Option<Layout>
    requires there { HasRow source.now.image.now 0x02 row }
    requires ready { IsReady source.now.image.now source.now.kept.now source.now.sizes.now }
    ensures { IsGiven (IsLayout source.now.image.now) (layouts_of source.now.image.now row) result }
{
    let rows = owned_rows(source.image, 0x0F, 2, u64::from(row));
    if rows.count == 0 {
        return None;
    }
    let first = rows.first as u32;
    Some(Layout {
        pack: number_of(source.image, 0x0F, first, 0),
        size: source.image.tables().cell(0x0F, first, 1),
    })
}
