ghost use Rattle.std.specs.Prelude.{◌≡◌, ◌↔◌, ◌<◌, ◌≤◌, ◌-◌, ◌^◌, ℕ, length, slice_get, IfOk, IsTrue, Some, ◌+◌};
ghost use Rattle.code_flow.specs.Frames.{Frame};
ghost use Rattle.code_flow.specs.Marks.{HaveMarks, IsPast, HavePasts, IsStray, returns_at, returns_after, fits_at, is_stray_by, prefix_at};
ghost use Rattle.code_flow.specs.Operations.{operation};
ghost use Rattle.code_flow.specs.Prefixes.{is_access, is_volatile_access, is_call, is_virtual_call, is_element_address, goes_with, is_prefix};

use crate::operation::{Operation, Prefix, operation_of};
use assembly_tree::Ins;
use il_lists::{Items, NoMemory};
use std::alloc::Global;

impl Operation {
    /// Whether it reads or writes at an address or in a field of an object.
    fn is_access(self) -> bool
        ensures { result ≡ is_access self }
    {
        match self {
            Operation::LoadIndirect(_)
            | Operation::LoadIndirectReference
            | Operation::StoreIndirect(_)
            | Operation::StoreIndirectReference
            | Operation::LoadObject
            | Operation::StoreObject
            | Operation::LoadField
            | Operation::StoreField => true,
            _ => false,
        }
    }

    fn is_volatile_access(self) -> bool
        ensures { result ≡ is_volatile_access self }
    {
        match self {
            Operation::LoadStatic | Operation::StoreStatic => true,
            _ => self.is_access(),
        }
    }

    fn is_call(self) -> bool
        ensures { result ≡ is_call self }
    {
        match self {
            Operation::Call | Operation::CallVirtual => true,
            _ => false,
        }
    }

    fn is_virtual_call(self) -> bool
        ensures { result ≡ is_virtual_call self }
    {
        match self {
            Operation::CallVirtual => true,
            _ => false,
        }
    }

    fn is_element_address(self) -> bool
        ensures { result ≡ is_element_address self }
    {
        match self {
            Operation::ElementAddress => true,
            _ => false,
        }
    }

    fn is_prefix(self) -> bool
        ensures { result ≡ is_prefix self }
    {
        match self {
            Operation::Prefix(_) => true,
            _ => false,
        }
    }
}

impl Prefix {
    /// Whether it may stand before such an instruction (ECMA-335 III.2).
    fn goes_with(self, does: Operation) -> bool
        ensures { result ≡ goes_with self does }
    {
        match self {
            Prefix::Constrained => does.is_virtual_call(),
            Prefix::Tail => does.is_call(),
            Prefix::Readonly => does.is_element_address(),
            Prefix::Unaligned => does.is_access(),
            Prefix::Volatile => does.is_volatile_access(),
        }
    }
}

fn returns_at(code: &[Ins], at: usize) -> bool
    ensures { result ≡ returns_at (slice_get code.now at) }
{
    match code.get(at) {
        Some(ins) => operation_of(ins.op).is_return(),
        None => false,
    }
}

/// Whether `ret` stands at a place, where the prefix wants it.
fn returns_after(code: &[Ins], prefix: Prefix, at: usize) -> bool
    ensures { result ≡ returns_after prefix (slice_get code.now at) }
{
    match prefix {
        Prefix::Tail => returns_at(code, at),
        Prefix::Constrained | Prefix::Readonly | Prefix::Unaligned | Prefix::Volatile => true,
    }
}

fn fits_at(code: &[Ins], marks: &[bool], prefix: Prefix, at: u32) -> bool
    requires { length marks.now ≡ length code.now }
    ensures { result ≡ fits_at code.now marks.now prefix at (slice_get code.now at) }
{
    match code.get(at as usize) {
        Some(ins) => prefix.goes_with(operation_of(ins.op))
            && returns_after(code, prefix, at as usize + 1)
            && !marks[at as usize],
        None => false,
    }
}

fn is_stray_by(code: &[Ins], marks: &[bool], at: u32, does: Operation) -> bool
    requires { length marks.now ≡ length code.now }
    ensures { result ≡ is_stray_by code.now marks.now at does }
{
    match does {
        Operation::Prefix(prefix) => !fits_at(code, marks, prefix, at),
        _ => false,
    }
}

fn stray_at(code: &[Ins], marks: &[bool], at: u32, ins: &Ins) -> bool
    requires { length marks.now ≡ length code.now }
    ensures { result ≡ is_stray_by code.now marks.now at (operation ins.now.op) }
{
    is_stray_by(code, marks, at, operation_of(ins.op))
}

/// Whether instruction `k` is a prefix that doesn't fit what follows (V17); `at` is the place past the prefixes after
/// `k`.
pub fn is_stray(code: &[Ins], marks: &[bool], at: u32, k: u32, ins: &Ins) -> bool
    requires { length marks.now ≡ length code.now }
    ensures { (f : Frame) → f.code ≡ code.now → HaveMarks f marks.now → IsPast code.now k at → slice_get code.now k ≡ Some ins.now → (IsTrue result ↔ IsStray f k) }
{
    stray_at(code, marks, at, ins)
}

/// Whether a prefix stands at a place.
fn has_prefix(code: &[Ins], at: usize) -> bool
    ensures { result ≡ prefix_at (slice_get code.now at) }
{
    match code.get(at) {
        Some(ins) => operation_of(ins.op).is_prefix(),
        None => false,
    }
}

/// The first place behind `k` at which no prefix stands, which may be the code's end.
fn past_of(code: &[Ins], k: u32) -> u32
    requires below { k < length code.now }
    requires few { length code.now < 2 ^ 32 }
    ensures { IsPast code.now k result }
{
    let count = code.len() as u32;
    for at in k + 1..count {
        if !has_prefix(code, at as usize) {
            return at;
        }
    }
    count
}

/// The same, from the place past the prefixes after the instruction before.
fn past_from(code: &[Ins], k: u32, known: u32) -> u32
    requires below { k < length code.now }
    requires few { length code.now < 2 ^ 32 }
    requires known { (j : ℕ) → j + 1 ≡ k → IsPast code.now j known }
    requires first { k ≡ 0 → known ≡ 0 }
    ensures { IsPast code.now k result }
{
    if known > k { known } else { past_of(code, k) }
}

/// For each instruction the first place behind it at which no prefix stands.
pub fn pasts_of(alloc: Global, code: &[Ins]) -> Result<Items<u32>, NoMemory>
    requires { length code.now < 2 ^ 32 }
    ensures { IfOk result (HavePasts code.now) }
{
    let mut places = Items::with_capacity(alloc, code.len())?;
    let mut known = 0u32;
    let count = code.len() as u32;
    for k in 0..count {
        let place = past_from(code, k, known);
        places.push(place)?;
        known = place;
    }
    Ok(places)
}
