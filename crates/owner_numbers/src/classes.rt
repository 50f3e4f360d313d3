ghost use Rattle.std.specs.Prelude.{◌≡◌, ◌≤◌, ◌<◌, ◌+◌, ℕ, Some, IfOk, OnOk, IfSome, IfNone};
ghost use Rattle.image_model.specs.Columns.{type_spec_signature};
ghost use Rattle.row_twins.specs.Linked.{HasRow};
ghost use Rattle.row_twins.specs.Twins.{IsWithin};
ghost use Rattle.owner_numbers.specs.Terms.{spec_count, level_at, HaveOneTerm};
ghost use Rattle.owner_numbers.specs.Sorting.{AreSorted, AreDone, HasClass, AreClasses, MayBeSorted};

use crate::by_classes::ByClasses;
use crate::equal::Equal;
use crate::levels::{deepest, has_level, hash_at, index_of, spec_count};
use hash_places::HashPlaces;
use il_base::NoMemory;
use image_model::tokens_name_one_type;
use image_streams::Image;
use row_twins::HashedRows;
use signature_facts::Owners;
use std::alloc::Global;
use type_names::TypeNames;

/// What is known of the rows of TypeSpec while they get their numbers.
#[derive(Drop)]
pub(crate) struct Sorted {
    /// The number of each row, counted from 1; 0 where it has none yet.
    pub(crate) classes: Vec<u32>,
    /// The numbers by the indexes of signatures.
    pub(crate) by_index: HashPlaces,
    /// The rows whose number is their own, by their hashes.
    pub(crate) firsts: HashedRows,
}

/// The image and what is told of its tokens.
#[derive(Drop)]
pub(crate) struct Given<'k, 'f, 'a, F: Owners> {
    pub(crate) image: &'k Image<'a>,
    pub(crate) names: &'k TypeNames<'k, 'a>,
    pub(crate) facts: &'f F,
}

/// The numbers of the rows of TypeSpec, deeper types after those that may stand in them.
pub(crate) fn classes_of<F: Owners>(
    alloc: Global,
    given: &Given<'_, '_, '_, F>,
) -> Result<Vec<u32>, NoMemory>
    requires { MayBeSorted given.now.image.now given.now.names.now (F.facts given.now.facts.now) }
    ensures { IfOk result (λ classes. AreClasses given.now.image.now classes.items) }
{
    let count = spec_count(given.image);
    let levels = u64::from(deepest(given.facts, count)) + 1;
    let mut sorted = none_sorted(alloc, given, count)?;
    for level in 0..levels {
        sort_level(&mut sorted, given, count, level as u32)?;
    }
    Ok(sorted.classes)
}

/// No row with a number.
fn none_sorted<F: Owners>(
    alloc: Global,
    given: &Given<'_, '_, '_, F>,
    count: u32,
) -> Result<Sorted, NoMemory>
    requires { count ≡ spec_count given.now.image.now }
    ensures { IfOk result (λ it. AreSorted given.now.image.now (F.facts given.now.facts.now) 0 it) }
{
    let classes = Vec::from_elem(alloc, 0, count as usize + 1)?;
    Ok(Sorted {
        classes,
        by_index: HashPlaces::new(alloc),
        firsts: HashedRows::new(alloc),
    })
}

/// Gives the rows a number whose type is so deep.
fn sort_level<F: Owners>(
    sorted: &mut Sorted,
    given: &Given<'_, '_, '_, F>,
    count: u32,
    level: u32,
) -> Result<(), NoMemory>
    requires count { count ≡ spec_count given.now.image.now }
    requires meets { MayBeSorted given.now.image.now given.now.names.now (F.facts given.now.facts.now) }
    requires sorted { AreSorted given.now.image.now (F.facts given.now.facts.now) level sorted.old }
    requires done { AreDone given.now.image.now (F.facts given.now.facts.now) sorted.old level 1 }
    ensures sorted { OnOk result (AreSorted given.now.image.now (F.facts given.now.facts.now) (level + 1) sorted.new) }
    ensures done { OnOk result (AreDone given.now.image.now (F.facts given.now.facts.now) sorted.new (level + 1) 1) }
{
    for k in 0..count {
        sort_row(sorted, given, level, k + 1)?;
    }
    Ok(())
}

/// Gives a row a number, where its type is so deep.
fn sort_row<F: Owners>(
    sorted: &mut Sorted,
    given: &Given<'_, '_, '_, F>,
    level: u32,
    row: u32,
) -> Result<(), NoMemory>
    requires meets { MayBeSorted given.now.image.now given.now.names.now (F.facts given.now.facts.now) }
    requires within { IsWithin (spec_count given.now.image.now) row }
    requires sorted { AreSorted given.now.image.now (F.facts given.now.facts.now) level sorted.old }
    requires done { AreDone given.now.image.now (F.facts given.now.facts.now) sorted.old level row }
    ensures sorted { OnOk result (AreSorted given.now.image.now (F.facts given.now.facts.now) level sorted.new) }
    ensures done { OnOk result (AreDone given.now.image.now (F.facts given.now.facts.now) sorted.new level (row + 1)) }
{
    if !has_level(given.facts, row, level) {
        return Ok(());
    }
    let index = index_of(given.image, row);
    let class = class_of(sorted, given, level, row, index)?;
    sorted.classes[row as usize] = class;
    sorted.by_index.insert(u64::from(index), class as usize)?;
    Ok(())
}

/// The number of a row: that of an earlier row with an equal term, or its own, which is kept.
fn class_of<F: Owners>(
    sorted: &mut Sorted,
    given: &Given<'_, '_, '_, F>,
    level: u32,
    row: u32,
    index: u32,
) -> Result<u32, NoMemory>
    requires meets { MayBeSorted given.now.image.now given.now.names.now (F.facts given.now.facts.now) }
    requires within { IsWithin (spec_count given.now.image.now) row }
    requires index { index ≡ type_spec_signature given.now.image.now row }
    requires level { level_at (F.facts given.now.facts.now) row ≡ Some level }
    requires sorted { AreSorted given.now.image.now (F.facts given.now.facts.now) level sorted.old }
    requires done { AreDone given.now.image.now (F.facts given.now.facts.now) sorted.old level row }
    ensures sorted { OnOk result (AreSorted given.now.image.now (F.facts given.now.facts.now) level sorted.new) }
    ensures classes { sorted.new.classes ≡ sorted.old.classes }
    ensures class { IfOk result (λ class. HasClass given.now.image.now sorted.new row class) }
{
    tokens_name_one_type();
    if let Some(class) = sorted.by_index.get(u64::from(index)) {
        return Ok(class as u32);
    }
    let hash = hash_at(given.facts, row);
    if let Some(class) = find_equal(sorted, given, level, hash, row) {
        return Ok(class);
    }
    sorted.firsts.add(hash, row)?;
    Ok(row)
}

/// The row with this hash whose number is its own and whose term is that of a row.
fn find_equal<F: Owners>(
    sorted: &Sorted,
    given: &Given<'_, '_, '_, F>,
    level: u32,
    hash: u64,
    row: u32,
) -> Option<u32>
    requires meets { MayBeSorted given.now.image.now given.now.names.now (F.facts given.now.facts.now) }
    requires within { IsWithin (spec_count given.now.image.now) row }
    requires level { level_at (F.facts given.now.facts.now) row ≡ Some level }
    requires sorted { AreSorted given.now.image.now (F.facts given.now.facts.now) level sorted.now }
    requires done { AreDone given.now.image.now (F.facts given.now.facts.now) sorted.now level row }
    ensures found { IfSome result (λ class. HasRow sorted.now.firsts.rows hash class × HaveOneTerm given.now.image.now class row) }
    ensures none { IfNone result ((class : ℕ) → HasRow sorted.now.firsts.rows hash class → HaveOneTerm given.now.image.now class row → ⊥) }
{
    given.names.tell_names();
    let known = ByClasses {
        image: given.image,
        names: given.names,
        classes: sorted.classes.as_slice(),
    };
    let test = Equal { known, row };
    sorted.firsts.find(hash, &test)
}
