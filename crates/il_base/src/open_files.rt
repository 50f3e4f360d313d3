ghost use Rattle.std.specs.Prelude.{◌≤◌, length, IfOk};

use std::alloc::Global;
use std::fs::{self, OpenOptions};
use std::io::{self, Read, Seek, SeekFrom, Write};
use std::rt::Files;

/// The files of the system. The file of the last read stays open for further reads, and so does the file of the last
/// write.
#[derive(Drop)]
pub struct OpenFiles<R: Files> {
    rt: R,
    alloc: Global,
    reading: Option<Opened<R::File>>,
    writing: Option<Opened<R::File>>,
}

/// An open file, and the place where its next bytes are read.
#[derive(Drop)]
struct Opened<F> {
    name: String,
    file: F,
    at: u64,
}

impl<R: Files> OpenFiles<R> {
    /// No open files.
    pub fn new(rt: R, alloc: Global) -> OpenFiles<R> {
        OpenFiles {
            rt,
            alloc,
            reading: None,
            writing: None,
        }
    }

    /// Reads from the place `at` on, and answers how many bytes.
    pub fn read(&mut self, name: &str, at: u64, into: &mut [u8]) -> io::Result<usize>
        ensures { IfOk result (λ count. count ≤ length into.new) }
    {
        let mut opened = match self.reading.take() {
            Some(opened) if opened.name.as_str() == name => opened,
            _ => Opened {
                name: String::from_str(self.alloc, name)?,
                file: fs::open(&self.rt, name)?,
                at: 0,
            },
        };
        if opened.at != at {
            opened.file.seek(SeekFrom::Start(at))?;
        }
        let count = opened.file.read(into)?;
        opened.at = at.saturating_add(count as u64);
        self.reading = Some(opened);
        Ok(count)
    }

    /// Creates or empties the file.
    pub fn start(&mut self, name: &str) -> io::Result<()> {
        self.writing = None;
        let file = fs::create(&self.rt, name)?;
        let name = String::from_str(self.alloc, name)?;
        self.writing = Some(Opened { name, file, at: 0 });
        Ok(())
    }

    /// Writes at the end of the file, and answers how many bytes.
    pub fn append(&mut self, name: &str, piece: &[u8]) -> io::Result<usize>
        ensures { IfOk result (λ count. count ≤ length piece.now) }
    {
        let mut opened = match self.writing.take() {
            Some(opened) if opened.name.as_str() == name => opened,
            _ => Opened {
                name: String::from_str(self.alloc, name)?,
                file: OpenOptions::new()
                    .append(true)
                    .create(true)
                    .open(&self.rt, name)?,
                at: 0,
            },
        };
        let count = opened.file.write(piece)?;
        self.writing = Some(opened);
        Ok(count)
    }
}
