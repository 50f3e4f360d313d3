ghost use Rattle.std.specs.Prelude.{None, false};

use crate::counts::raise;
use crate::open_files::OpenFiles;
use crate::{Failed, Shelf};
use std::alloc::Global;
use std::rt::Files;

/// The files of the system. It tells nothing of them, and counts each fault.
///
/// The file of the last read stays open for further reads, and so does the file of the last write.
#[derive(Drop)]
pub struct DiskShelf<R: Files> {
    files: OpenFiles<R>,
    failed_reads: u64,
    failed_writes: u64,
}

impl<R: Files + Drop> DiskShelf<R> {
    /// The files that `rt` reaches. The names of open files are copied by `alloc`.
    pub fn new(rt: R, alloc: Global) -> DiskShelf<R> {
        DiskShelf {
            files: OpenFiles::new(rt, alloc),
            failed_reads: 0,
            failed_writes: 0,
        }
    }
}

impl<R: Files + Drop> Shelf for DiskShelf<R> {
    ghost tells = { λ _. false };

    ghost files = { λ _ _. None };

    ghost failed_reads = { λ s. s.failed_reads };

    ghost failed_writes = { λ s. s.failed_writes };

    fn read(&mut self, name: &str, at: u64, into: &mut [u8]) -> Result<usize, Failed> {
        match self.files.read(name, at, into) {
            Ok(count) => Ok(count),
            Err(_) => {
                raise(&mut self.failed_reads);
                Err(Failed)
            }
        }
    }

    fn start(&mut self, name: &str) -> Result<(), Failed> {
        match self.files.start(name) {
            Ok(()) => Ok(()),
            Err(_) => {
                raise(&mut self.failed_writes);
                Err(Failed)
            }
        }
    }

    fn append(&mut self, name: &str, piece: &[u8]) -> Result<usize, Failed> {
        match self.files.append(name, piece) {
            Ok(count) => {
                if count == 0 && !piece.is_empty() {
                    raise(&mut self.failed_writes);
                }
                Ok(count)
            }
            Err(_) => {
                raise(&mut self.failed_writes);
                Err(Failed)
            }
        }
    }
}
