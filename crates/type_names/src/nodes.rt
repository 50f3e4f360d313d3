ghost use Rattle.std.specs.Prelude.{◌≡◌, ◌≤◌, ◌<◌, ◌+◌, ◌^◌, ◌⊎◌, ℕ, Some, IfOk, length};
ghost use Rattle.image_model.specs.Rows.{count_of, HasRow};
ghost use Rattle.name_numbers.specs.Names.{node_at};
ghost use Rattle.type_names.specs.Forest.{AreForest, HaveScopes, IsScope, node_count, last_of, scope_node, led_to, type_node, reference_node, ref_node};

use il_base::NoMemory;
use image_streams::Image;
use metadata_tables::{Coded, unpack_coded};
use name_numbers::Node;
use row_groups::Outers;
use std::alloc::Global;

/// A node of which nothing is told.
const NONE: Node = Node {
    parent: 0,
    space: 0,
    text: 0,
};

/// The nodes of an image's names: node 0 is the module, behind it stand the types, the references and the assemblies.
pub(crate) fn nodes_of(
    alloc: Global,
    image: &Image<'_>,
    outers: &Outers<'_, '_>,
) -> Result<Vec<Node>, NoMemory>
    requires small { length image.now ≤ 2 ^ 26 }
    requires same { outers.now ≡ image.now }
    requires scopes { HaveScopes image.now }
    ensures { IfOk result (λ nodes. AreForest image.now nodes.items) }
{
    let mut nodes = Vec::from_elem(alloc, NONE, count_nodes(image))?;
    fill_types(image, outers, nodes.as_mut_slice());
    fill_refs(image, nodes.as_mut_slice());
    Ok(nodes)
}

/// How many nodes there are.
fn count_nodes(image: &Image<'_>) -> usize
    ensures { result ≡ node_count image.now }
{
    let tables = image.tables();
    let types = tables.rows(0x02) as usize;
    let refs = tables.rows(0x01) as usize;
    let assemblies = tables.rows(0x23) as usize;
    types + refs + assemblies + 1
}

/// The texts of the types, and what encloses them.
#[tactic(auto, unfolding(metadata_tables::specs::Schema::schema))]
fn fill_types(image: &Image<'_>, outers: &Outers<'_, '_>, nodes: &mut [Node])
    requires same { outers.now ≡ image.now }
    requires long { length nodes.old ≡ node_count image.now }
    ensures long { length nodes.new ≡ length nodes.old }
    ensures types { (row : ℕ) → HasRow image.now 0x02 row → node_at nodes.new row ≡ type_node image.now row }
    ensures others { (k : ℕ) → (k ≡ 0) ⊎ (count_of image.now 0x02 < k) → node_at nodes.new k ≡ node_at nodes.old k }
{
    let tables = image.tables();
    for row in 0..tables.rows(0x02) {
        nodes[row as usize + 1] = Node {
            parent: outers.of(row + 1),
            space: tables.cell(0x02, row + 1, 2),
            text: tables.cell(0x02, row + 1, 1),
        };
    }
}

/// The texts of the references, and where their scopes lead (II.22.38).
#[tactic(auto, unfolding(metadata_tables::specs::Schema::schema))]
fn fill_refs(image: &Image<'_>, nodes: &mut [Node])
    requires small { length image.now ≤ 2 ^ 26 }
    requires scopes { HaveScopes image.now }
    requires long { length nodes.old ≡ node_count image.now }
    ensures long { length nodes.new ≡ length nodes.old }
    ensures refs { (row : ℕ) → HasRow image.now 0x01 row → node_at nodes.new (ref_node image.now row) ≡ reference_node image.now row }
    ensures others { (k : ℕ) → (k ≤ count_of image.now 0x02) ⊎ (last_of image.now ≤ k) → node_at nodes.new k ≡ node_at nodes.old k }
{
    let tables = image.tables();
    let types = tables.rows(0x02) as usize;
    for row in 0..tables.rows(0x01) {
        let scope = tables.cell(0x01, row + 1, 0);
        nodes[types + row as usize + 1] = Node {
            parent: scope_node(image, scope),
            space: tables.cell(0x01, row + 1, 2),
            text: tables.cell(0x01, row + 1, 1),
        };
    }
}

/// The node to which a scope leads: an assembly, another reference or, for the module, node 0.
fn scope_node(image: &Image<'_>, scope: u32) -> u32
    requires small { length image.now ≤ 2 ^ 26 }
    requires there { IsScope image.now scope }
    ensures { result ≡ scope_node image.now scope }
{
    match unpack_coded(Coded::ResolutionScope, scope) {
        Some((table, row)) => led_to(image, table, row),
        None => 0,
    }
}

/// The node of a row to which a scope leads.
fn led_to(image: &Image<'_>, table: u8, row: u32) -> u32
    requires small { length image.now ≤ 2 ^ 26 }
    requires there { HasRow image.now table row }
    ensures { result ≡ led_to image.now (Some (table, row)) }
{
    let tables = image.tables();
    let types = tables.rows(0x02);
    if table == 0x01 {
        return types + row;
    }
    if table == 0x23 {
        return types + tables.rows(0x01) + row;
    }
    0
}
