//! The files of a script, and the stores in memory that hold them.

use crate::fault::SessionFault;
use il_base::{Bytes, Items, MemShelf, Text, Words};
use std::alloc::Global;

/// A file of a script.
#[derive(Drop)]
pub struct Stored {
    name: Text,
    bytes: Bytes,
}

/// What a script has said so far.
#[derive(Drop)]
pub struct Stores {
    files: Items<Stored>,
    watched: Words,
}

impl Stores {
    /// No file, and none is looked at.
    pub fn new(alloc: Global) -> Stores {
        Stores {
            files: Items::new(alloc),
            watched: Words::new(alloc),
        }
    }

    /// The names of the files that are looked at.
    pub fn watched(&self) -> &[Text] {
        self.watched.as_slice()
    }

    /// Looks at these files from now on.
    pub fn watch(&mut self, watched: Words) {
        self.watched = watched;
    }

    /// Begins a file without bytes.
    pub fn begin(&mut self, alloc: Global, name: &str) -> Result<(), SessionFault> {
        let name = Text::new(alloc, named(name))?;
        let bytes = Bytes::new(alloc);
        self.files.push(Stored { name, bytes })?;
        Ok(())
    }

    /// Adds bytes to the file that was begun last.
    pub fn add(&mut self, bytes: &[u8], count: u32) -> Result<(), SessionFault> {
        let Some(mut last) = self.files.pop() else {
            return Err(SessionFault::Meaningless);
        };
        for _ in 0..count {
            last.bytes.extend(bytes)?;
        }
        self.files.push(last)?;
        Ok(())
    }

    /// A shelf that holds the files; of two with one name, the later.
    pub fn shelf(&self, alloc: Global) -> Result<MemShelf, SessionFault> {
        let mut shelf = MemShelf::new(alloc);
        for file in self.files.as_slice() {
            shelf.put(file.name.as_str(), file.bytes.as_slice())?;
        }
        Ok(shelf)
    }

    /// The bytes of the file of this name, as the script has them.
    pub fn file(&self, name: &str) -> Option<&[u8]> {
        let mut found = None;
        for file in self.files.as_slice() {
            if file.name.as_str() == name {
                found = Some(file.bytes.as_slice());
            }
        }
        found
    }
}

/// Words parted by single blanks, `''` being an empty word.
pub fn words_of(alloc: Global, line: &str) -> Result<Words, SessionFault> {
    let mut words = Words::new(alloc);
    if line.is_empty() {
        return Ok(words);
    }
    for word in line.split(' ') {
        words.push(Text::new(alloc, named(word))?)?;
    }
    Ok(words)
}

/// A word as a script has it: `''` for an empty one.
fn named(word: &str) -> &str {
    if word == "''" { "" } else { word }
}
