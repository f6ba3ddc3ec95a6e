// Files of the system as a shelf.
ghost use Rattle.std.specs.Prelude.{◌≡◌, None};

use crate::real::ReaderSource;
use crate::{ReadFault, SIZE_LIMIT, Shelf, ShelfFault, read_whole};
use std::alloc::Global;
use std::fs::File;
use std::io::ErrorKind;
use std::rt::Files;

/// Files of the system, by their paths: a relative one counts from the directory that the program was started in. Its counts stop
/// at the last value of a u64.
#[derive(Drop)]
pub struct FileShelf<'a, R: Files> {
    system: &'a R,
    faults: u64,
    refused: u64,
}

/// Opens a file and reads it to its end, or until it has given more bytes than a file may have.
fn load_file<R: Files>(system: &R, alloc: Global, path: &str) -> Result<Vec<u8>, ShelfFault> {
    let file = match File::open(system, path) {
        Ok(file) => file,
        Err(e) => return Err(fault_of(e.kind())),
    };
    match read_whole(alloc, &mut ReaderSource::new(file), SIZE_LIMIT) {
        Ok(bytes) => Ok(bytes),
        Err(ReadFault::TooLarge) => Err(ShelfFault::TooLarge),
        Err(ReadFault::Failed) => Err(ShelfFault::Failed),
        Err(ReadFault::NoMemory) => Err(ShelfFault::NoMemory),
    }
}

/// Why a file isn't opened. No file has a path that passes through something which isn't a directory, or that holds a NUL.
fn fault_of(kind: ErrorKind) -> ShelfFault {
    match kind {
        ErrorKind::NotFound | ErrorKind::NotADirectory | ErrorKind::InvalidInput => {
            ShelfFault::Absent
        }
        ErrorKind::OutOfMemory => ShelfFault::NoMemory,
        _ => ShelfFault::Failed,
    }
}

impl<'a, R: Files> FileShelf<'a, R> {
    ghost use Rattle.cq_outside.specs.Counted.{load_faults, loads_refused};

    /// A shelf from which nothing was loaded yet.
    pub fn new(system: &'a R) -> Self
        ensures faults { load_faults result ≡ 0 }
        ensures refused { loads_refused result ≡ 0 }
    {
        FileShelf {
            system,
            faults: 0,
            refused: 0,
        }
    }
}

impl<'a, R: Files> Shelf for FileShelf<'a, R> {
    ghost files = { λ _. None };

    ghost faults = { λ s. s.faults };

    ghost refused = { λ s. s.refused };

    fn load(&mut self, alloc: Global, name: &str) -> Result<Vec<u8>, ShelfFault> {
        let loaded = load_file(self.system, alloc, name);
        match loaded {
            Err(ShelfFault::Failed) => self.faults = self.faults.saturating_add(1),
            Err(ShelfFault::Absent | ShelfFault::TooLarge) => {
                self.refused = self.refused.saturating_add(1)
            }
            Ok(_) | Err(ShelfFault::NoMemory) => {}
        }
        loaded
    }
}
