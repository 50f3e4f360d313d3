ghost use Rattle.std.specs.Prelude.{◌≡◌, ◌++◌, ◌∷◌, [], None, Some, OnOk, OnErr};
ghost use Rattle.il_base.specs.Calls.{next_call, fails_next, taken, readable};

use crate::NoMemory;
use std::alloc::Global;
use std::marker::Model;

/// Which calls of a store in memory fail, and how much a call takes.
#[derive(Drop)]
pub struct Plan {
    calls: u64,
    failing: Vec<u64>,
    at_most: Option<usize>,
}

impl Model for Plan {
    ghost use Rattle.il_base.specs.Calls.{Calls};

    ghost Value = { Calls };

    ghost view = { λ p. record { count = p.calls; failing = p.failing.items; at_most = p.at_most } };
}

impl Plan {
    /// No calls so far, none of them to fail, and no greatest number.
    pub fn new(alloc: Global) -> Plan
        ensures { result ≡ record { count = 0; failing = []; at_most = None } }
    {
        Plan {
            calls: 0,
            failing: Vec::new(alloc),
            at_most: None,
        }
    }

    /// Lets the call with this number fail.
    pub fn fail_at(&mut self, call: u64) -> Result<(), NoMemory>
        ensures ok { OnOk result (self.new ≡ record self.old { failing = self.old.failing ++ call ∷ [] }) }
        ensures err { OnErr result (self.new ≡ self.old) }
    {
        self.failing.push(call)?;
        Ok(())
    }

    /// Lets each call take at most `count` bytes.
    pub fn at_most(&mut self, count: usize)
        ensures { self.new ≡ record self.old { at_most = Some count } }
    {
        self.at_most = Some(count);
    }

    /// Counts a call, and answers whether it is to fail.
    pub fn next(&mut self) -> bool
        ensures after { self.new ≡ record self.old { count = next_call self.old } }
        ensures fails { result ≡ fails_next self.old }
    {
        self.calls = self.calls.saturating_add(1);
        self.failing.contains(&self.calls)
    }

    /// How many of `count` bytes a call takes.
    pub fn taken(&self, count: usize) -> usize
        ensures { result ≡ taken self.now count }
    {
        match self.at_most {
            None => count,
            Some(most) => count.min(most),
        }
    }

    /// How many of `count` bytes a call reads.
    pub fn readable(&self, count: usize) -> usize
        ensures { result ≡ readable self.now count }
    {
        match self.at_most {
            None => count,
            Some(most) => count.min(most.max(1)),
        }
    }
}
