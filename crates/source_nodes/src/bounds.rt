//! The sizes and lower bounds of arrays (ECMA-335 II.14.2, II.23.2.13).

ghost use Rattle.std.specs.Prelude.{◌≡◌, ◌<◌, ◌^◌, [], IfOk, Some, true, pos, ◌+ℤ◌, ◌-ℤ◌, map};
ghost use Rattle.source_model.specs.Shapes.{lower_bounds, lower_value, natural, size_value, sizes};
ghost use Rattle.source_model.specs.Source.{Source};
ghost use Rattle.source_model.specs.TypeRules.{is_within, lower_out_of_range, size_out_of_range};
ghost use Rattle.source_model.specs.Values.{int_at};
ghost use Rattle.source_nodes.specs.Dimensions.{AreInRange, bound_of, lower_of};
ghost use Rattle.source_nodes.specs.Integers.{distance};
ghost use Rattle.source_nodes.specs.Readers.{Reads};

use crate::reader::Reader;
use crate::shapes::Dimension;
use il_base::{Items, NoMemory, Numbers, Signed};
use std::alloc::Global;

impl<'a> Reader<'a> {
    /// The sizes of the dimensions at the front that have one.
    pub fn sizes(&self, alloc: Global, dimensions: &[Dimension]) -> Result<Numbers, NoMemory>
        ensures { IfOk result (λ found. (s : Source) → Reads self.now s → AreInRange s (map bound_of dimensions.now) →
            found ≡ sizes s (map bound_of dimensions.now)) }
    {
        let mut found = Items::new(alloc);
        let mut left = dimensions;
        while let [dimension, rest @ ..] = left {
            let Some(token) = dimension.size else {
                return Ok(found);
            };
            found.push(self.size_value(dimension.lower, token))?;
            left = rest;
        }
        Ok(found)
    }

    /// The lower bounds up to the last that is given, 0 for one that isn't.
    pub fn lower_bounds(&self, alloc: Global, dimensions: &[Dimension]) -> Result<Signed, NoMemory>
        ensures { IfOk result (λ found. (s : Source) → Reads self.now s → AreInRange s (map bound_of dimensions.now) →
            found ≡ lower_bounds s (map bound_of dimensions.now)) }
    {
        let mut found = Items::new(alloc);
        let mut left = up_to_last_lower(dimensions);
        while let [dimension, rest @ ..] = left {
            found.push(self.lower_value(dimension.lower))?;
            left = rest;
        }
        Ok(found)
    }

    // The size of a dimension, from the token of its lower bound and that of its size or upper bound.
    fn size_value(&self, lower: Option<u32>, token: u32) -> u32
        ensures { (s : Source) → Reads self.now s → lower_out_of_range s lower ≡ [] → size_out_of_range s lower (Some token) ≡ [] →
            result ≡ natural (size_value s lower token) }
    {
        match lower {
            None => size_of(i64::from(self.signed(token))),
            Some(first) => size_between(self.signed(first), self.signed(token)),
        }
    }

    // A lower bound, which is 0 where none is given.
    fn lower_value(&self, lower: Option<u32>) -> i32
        ensures { (s : Source) → Reads self.now s → lower_out_of_range s lower ≡ [] → result ≡ lower_value s lower }
    {
        match lower {
            None => 0,
            Some(token) => self.signed(token),
        }
    }

    // The number that an INT spells, where it lies less than 2^31 from 0.
    fn signed(&self, token: u32) -> i32
        ensures { (s : Source) → Reads self.now s → distance (int_at s token) < 2 ^ 31 → result ≡ int_at s token }
    {
        match self.integer(token) {
            Some(value) => signed_32(value),
            None => 0,
        }
    }
}

// The dimensions at the front, up to the last that has a lower bound.
fn up_to_last_lower(dimensions: &[Dimension]) -> &[Dimension]
    ensures { (s : Source) → AreInRange s (map bound_of dimensions.now) →
        AreInRange s (map bound_of result.now) × (lower_bounds s (map bound_of dimensions.now) ≡ map (lower_of s) result.now) }
{
    let mut left = dimensions;
    while let Some((last, rest)) = left.split_last() {
        if last.lower.is_some() {
            return left;
        }
        left = rest;
    }
    left
}

fn signed_32(value: i128) -> i32
    ensures { distance value < 2 ^ 31 → result ≡ value }
{
    if -0x8000_0000 < value && value < 0x8000_0000 {
        value as i32
    } else {
        0
    }
}

// The size from a lower to an upper bound.
fn size_between(first: i32, last: i32) -> u32
    ensures { is_within (pos 0) (pos 0x1FFFFFFF) ((last -ℤ first) +ℤ pos 1) ≡ true → result ≡ natural ((last -ℤ first) +ℤ pos 1) }
{
    size_of(i64::from(last) - i64::from(first) + 1)
}

// A size, where it is one.
fn size_of(n: i64) -> u32
    ensures { is_within (pos 0) (pos 0x1FFFFFFF) n ≡ true → result ≡ natural n }
{
    if 0 <= n && n <= 0x1FFF_FFFF {
        n as u32
    } else {
        0
    }
}
