ghost use Rattle.std.specs.Prelude.{◌≡◌, ◌+◌, ◌≤◌, ◌++◌, [], length, None, IsOk, IsSome, OnOk, OnErr, IsSomeAnd};
ghost use Rattle.std.specs.Option.{option_copied};

use crate::NoMemory;
use crate::stored::Stored;
use std::alloc::Global;
use std::collections::BTreeMap;

/// Files in memory by their names.
#[derive(Drop)]
pub struct StoredFiles {
    alloc: Global,
    files: BTreeMap<String, Stored>,
}

impl StoredFiles {
    ghost use Rattle.il_base.specs.Stock.{held_at, Puts};
    ghost use Rattle.il_base.specs.StoredFiles.{stock_of};

    /// No files. Takes no memory.
    pub fn new(alloc: Global) -> StoredFiles
        ensures { stock_of result ≡ λ _. None }
    {
        StoredFiles {
            alloc,
            files: BTreeMap::new(alloc),
        }
    }

    /// What is stored under `name`.
    pub fn get(&self, name: &str) -> Option<&Stored>
        ensures { option_copied result ≡ stock_of self.now name.now }
    {
        self.files.get(name)
    }

    /// Stores this under `name`.
    pub fn put(&mut self, name: &str, stored: Stored) -> Result<(), NoMemory>
        ensures ok { OnOk result (Puts (stock_of self.old) (stock_of self.new) name.now stored) }
        ensures err { OnErr result (stock_of self.new ≡ stock_of self.old) }
    {
        let key = String::from_str(self.alloc, name)?;
        self.files.insert(key, stored)?;
        Ok(())
    }

    /// Empties what is stored under `name`, and stores it where it is absent. Takes no memory where it is there.
    pub fn start(&mut self, name: &str) -> Result<(), NoMemory>
        ensures ok { OnOk result (Puts (stock_of self.old) (stock_of self.new) name.now (record { bytes = []; room = (held_at (stock_of self.old) name.now).room })) }
        ensures err { OnErr result (stock_of self.new ≡ stock_of self.old) }
        ensures succeeds { IsSome (stock_of self.old name.now) → IsOk result }
    {
        match self.files.get_mut(name) {
            Some(stored) => {
                stored.clear();
                Ok(())
            }
            None => self.put(name, Stored::new(self.alloc)),
        }
    }

    /// Adds `piece` to what is stored under `name`, and stores it where it is absent. Takes no memory where it is there
    /// with room enough.
    pub fn append(&mut self, name: &str, piece: &[u8]) -> Result<(), NoMemory>
        ensures ok { OnOk result (Puts (stock_of self.old) (stock_of self.new) name.now
            (record { bytes = (held_at (stock_of self.old) name.now).bytes ++ piece.now; room = (held_at (stock_of self.old) name.now).room })) }
        ensures err { OnErr result (stock_of self.new ≡ stock_of self.old) }
        ensures succeeds { IsSomeAnd (stock_of self.old name.now) (λ held. length held.bytes + length piece.now ≤ held.room) → IsOk result }
    {
        match self.files.get_mut(name) {
            Some(stored) => stored.append(piece),
            None => {
                let mut stored = Stored::new(self.alloc);
                stored.append(piece)?;
                self.put(name, stored)
            }
        }
    }
}
