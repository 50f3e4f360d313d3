ghost use Rattle.std.specs.Prelude.{◌≡◌, ℕ, ◌+◌, ◌<◌, ◌^◌, [], IfOk, OnOk, length, false};
ghost use Rattle.name_numbers.specs.Names.{AreNodes, AreNumbers, AreRoots, is_root, root_named, node_at, parent_at, named_at, depth_at};
ghost use Rattle.name_numbers.specs.Numbering.{IsNumbering, Visits, Settles, IsSort, GivesNumber};
ghost use Rattle.name_numbers.specs.Table.{Finds, told};

use crate::TextHashes;
use crate::table::{Key, NameTable};
use il_base::NoMemory;
use std::alloc::Global;

/// A node of a forest: the node that encloses it, and the indexes of its space and its text.
#[derive(Debug, Clone, Copy)]
pub struct Node {
    /// The number of the node that encloses it.
    pub parent: u32,
    /// The index of its space.
    pub space: u32,
    /// The index of its text.
    pub text: u32,
}

/// The number of a node's name.
#[derive(Debug, Clone, Copy)]
pub struct Named {
    /// The number: that of a node with the same name.
    pub number: u32,
    /// The root from which the name leads.
    pub root: u32,
    /// One more than how many texts the name has; 0 where the node has no name of at most 100 texts.
    pub depth: u8,
}

/// How many texts a name may have.
const MAX_TEXTS: u8 = 100;

/// A node without a number.
const NONE: Named = Named {
    number: 0,
    root: 0,
    depth: 0,
};

/// The numbers so far, and the names that have one.
#[derive(Drop)]
pub(crate) struct Numbering {
    pub(crate) table: NameTable,
    pub(crate) named: Vec<Named>,
}

/// The numbers of the names of a forest's nodes. Node 0 and the nodes from `last` on are roots; the others are of two sorts, those
/// before `middle` and those from there on, and the first have their names first. Each pass looks at a node once; two passes do,
/// unless nodes stand before those that enclose them, and 100 always.
pub fn numbered(
    alloc: Global,
    texts: &TextHashes<'_>,
    nodes: &[Node],
    middle: usize,
    last: usize,
) -> Result<Vec<Named>, NoMemory>
    requires { AreNodes nodes.now middle last }
    ensures { IfOk result (λ named. AreNumbers texts.now nodes.now middle last named.items) }
{
    let mut numbering = begun(alloc, texts, nodes, last)?;
    settle(&mut numbering, texts, nodes, last, 1, middle)?;
    settle(&mut numbering, texts, nodes, last, middle, last)?;
    Ok(numbering.named)
}

/// The numbers of the roots alone.
fn begun(
    alloc: Global,
    texts: &TextHashes<'_>,
    nodes: &[Node],
    last: usize,
) -> Result<Numbering, NoMemory>
    requires { length nodes.now < 2 ^ 32 }
    ensures state { IfOk result (λ numbering. IsNumbering texts.now nodes.now last numbering) }
    ensures empty { IfOk result (λ numbering. numbering.table.entries ≡ []) }
    ensures other { IfOk result (λ numbering. (k : ℕ) → k < length nodes.now → is_root last k ≡ false → depth_at numbering.named.items k ≡ 0) }
{
    let named = roots(alloc, nodes.len(), last)?;
    Ok(Numbering {
        table: NameTable::new(alloc),
        named,
    })
}

/// The roots of so many nodes, each with its own number, and no number for the others.
fn roots(alloc: Global, count: usize, last: usize) -> Result<Vec<Named>, NoMemory>
    requires { count < 2 ^ 32 }
    ensures { IfOk result (λ named. AreRoots count last named.items) }
{
    let mut named = Vec::from_elem(alloc, NONE, count)?;
    for k in 0..count {
        if k == 0 || last <= k {
            named[k] = root_named(k as u32);
        }
    }
    Ok(named)
}

/// A root, whose name has no text.
fn root_named(k: u32) -> Named
    ensures { result ≡ root_named k }
{
    Named {
        number: k,
        root: k,
        depth: 1,
    }
}

/// Names the nodes of a range, in passes until one names none: after so many passes each name of so many texts has its number.
fn settle(
    numbering: &mut Numbering,
    texts: &TextHashes<'_>,
    nodes: &[Node],
    last: usize,
    from: usize,
    to: usize,
) -> Result<(), NoMemory>
    requires state { IsNumbering texts.now nodes.now last numbering.old }
    requires sort { IsSort nodes.now last from to }
    requires few { length nodes.now < 2 ^ 32 }
    ensures { OnOk result (Settles texts.now nodes.now last from to numbering.old numbering.new) }
{
    let mut most = 0;
    while most < MAX_TEXTS {
        let named = pass(numbering, texts, nodes, last, from, to)?;
        if !named {
            return Ok(());
        }
        most += 1;
    }
    Ok(())
}

/// Looks at each node of a range once; answers whether one of them was named.
fn pass(
    numbering: &mut Numbering,
    texts: &TextHashes<'_>,
    nodes: &[Node],
    last: usize,
    from: usize,
    to: usize,
) -> Result<bool, NoMemory>
    requires state { IsNumbering texts.now nodes.now last numbering.old }
    requires sort { IsSort nodes.now last from to }
    requires few { length nodes.now < 2 ^ 32 }
    ensures { IfOk result (λ changed. Visits texts.now nodes.now last from to numbering.old numbering.new changed) }
{
    let mut changed = false;
    for k in from..to {
        let named = visit(numbering, texts, nodes, last, k)?;
        changed |= named;
    }
    Ok(changed)
}

/// Names a node, where it has no number yet and the node that encloses it has one; answers whether it was named.
fn visit(
    numbering: &mut Numbering,
    texts: &TextHashes<'_>,
    nodes: &[Node],
    _last: usize,
    k: usize,
) -> Result<bool, NoMemory>
    requires state { IsNumbering texts.now nodes.now _last numbering.old }
    requires inside { (k : ℕ) → k < length nodes.now → parent_at nodes.now k < length nodes.now }
    requires there { k < length nodes.now }
    requires few { length nodes.now < 2 ^ 32 }
    requires node { is_root _last k ≡ false }
    ensures { IfOk result (λ changed. Visits texts.now nodes.now _last k (k + 1) numbering.old numbering.new changed) }
{
    let node = node_at(nodes, k);
    let outer = named_at(&numbering.named, node.parent as usize);
    if named_at(&numbering.named, k).depth != 0 {
        return Ok(false);
    }
    if outer.depth == 0 || outer.depth > MAX_TEXTS {
        return Ok(false);
    }
    let key = Key {
        parent: outer.number,
        space: node.space,
        text: node.text,
    };
    let number = number_of(&mut numbering.table, texts, key, k as u32)?;
    numbering.named[k] = Named {
        number,
        root: outer.root,
        depth: outer.depth + 1,
    };
    Ok(true)
}

/// The node with a number.
fn node_at(nodes: &[Node], k: usize) -> Node
    requires { k < length nodes.now }
    ensures { result ≡ node_at nodes.now k }
{
    nodes[k]
}

/// The number of a node's name.
fn named_at(named: &[Named], k: usize) -> Named
    requires { k < length named.now }
    ensures { result ≡ named_at named.now k }
{
    named[k]
}

/// The number of a name: the one that it has, or else this one, which is noted.
fn number_of(
    table: &mut NameTable,
    texts: &TextHashes<'_>,
    key: Key,
    fresh: u32,
) -> Result<u32, NoMemory>
    requires { Finds table.old texts.now }
    ensures finds { OnOk result (Finds table.new texts.now) }
    ensures gives { IfOk result (GivesNumber texts.now (told texts.now key) fresh table.old.entries table.new.entries) }
{
    if let Some(number) = table.find(texts, key) {
        return Ok(number);
    }
    table.note(texts, key, fresh)?;
    Ok(fresh)
}
