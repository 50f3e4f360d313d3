//! Bytes that stand many times in a row (ECMA-335 II.16.3).

ghost use Rattle.std.specs.Prelude.{◌≡◌, ◌++◌, [], IfOk, IsTrue, List, ℕ, take};
ghost use Rattle.source_model.specs.Data.{first_bytes, repeated};
ghost use Rattle.lower_members.specs.Runs.{bytes_of_runs, run_bytes};

use il_base::{Bytes, Items, NoMemory};
use std::alloc::Global;

/// Some bytes, and how many times in a row they stand.
#[derive(Drop)]
pub struct Run {
    pub once: Bytes,
    pub count: u32,
}

impl Run {
    /// Whether the run has no bytes.
    pub fn is_empty(&self) -> bool
        ensures { IsTrue result → run_bytes self.now ≡ [] }
    {
        self.count == 0 || self.once.is_empty()
    }
}

/// Runs of bytes, one after the other.
pub type Runs = Items<Run>;

/// The first bytes of some runs, as many as are stated, else all. No run is read past them.
pub fn first_of(alloc: Global, runs: &[Run], size: Option<u32>) -> Result<Bytes, NoMemory>
    ensures { IfOk result (λ bytes. bytes ≡ first_bytes size (bytes_of_runs runs.now)) }
{
    let mut bytes = Bytes::new(alloc);
    let mut rest = runs;
    while let [run, more @ ..] = rest {
        if is_full(&bytes, size) {
            return Ok(cut(bytes, size));
        }
        push_run(&mut bytes, run, size)?;
        rest = more;
    }
    Ok(cut(bytes, size))
}

// The first bytes, as many as are stated, else all.
fn cut(bytes: Bytes, size: Option<u32>) -> Bytes
    ensures { result ≡ first_bytes size bytes }
{
    let mut first = bytes;
    if let Some(size) = size {
        first.truncate(size as usize);
    }
    first
}

// Whether there are as many bytes as are stated, so that none behind them counts.
fn is_full(bytes: &Bytes, size: Option<u32>) -> bool
    ensures { IsTrue result → (rest : List ℕ) → first_bytes size (bytes.now ++ rest) ≡ first_bytes size bytes.now }
{
    match size {
        Some(size) => size as usize <= bytes.len(),
        None => false,
    }
}

// Adds a run, at most up to as many bytes as are stated.
fn push_run(bytes: &mut Bytes, run: &Run, size: Option<u32>) -> Result<(), NoMemory>
    ensures { (rest : List ℕ) → IfOk result (λ _. first_bytes size (bytes.new ++ rest) ≡ first_bytes size (bytes.old ++ (repeated run.now.count run.now.once ++ rest))) }
{
    let mut left = run.count;
    while left > 0 {
        if is_full(bytes, size) {
            return Ok(());
        }
        push_once(bytes, run.once.as_slice(), size)?;
        left -= 1;
    }
    Ok(())
}

// Adds some bytes, at most up to as many as are stated.
fn push_once(bytes: &mut Bytes, more: &[u8], size: Option<u32>) -> Result<(), NoMemory>
    ensures { (rest : List ℕ) → IfOk result (λ _. first_bytes size (bytes.new ++ rest) ≡ first_bytes size (bytes.old ++ (more.now ++ rest))) }
{
    match size {
        Some(size) => {
            let room = (size as usize).saturating_sub(bytes.len());
            bytes.extend(front(more, room))
        }
        None => bytes.extend(more),
    }
}

// The first bytes, at most so many.
fn front(bytes: &[u8], count: usize) -> &[u8]
    ensures { result.now ≡ take count bytes.now }
{
    if count < bytes.len() {
        let (first, _) = bytes.split_at(count);
        first
    } else {
        bytes
    }
}
