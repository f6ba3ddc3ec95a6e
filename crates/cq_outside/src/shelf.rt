// What a shelf of files is to its readers.
ghost use Rattle.std.specs.Prelude.{◌≡◌, ℕ, List, Option};
ghost use Rattle.cq_outside.specs.Files.{Loads, CountsFault, CountsRefusal};

use std::alloc::{AllocError, Global};

/// The most bytes that a file or the input may have.
pub const SIZE_LIMIT: usize = 16_777_216;

/// Why a file isn't given.
#[derive(Clone, Copy, Debug, PartialEq, Eq)]
pub enum ShelfFault {
    /// There is no file of this name.
    Absent,
    /// The file has more than `SIZE_LIMIT` bytes.
    TooLarge,
    /// The load failed, for a cause that lies outside the program.
    Failed,
    /// There is no memory for the file's bytes.
    NoMemory,
}

impl From<AllocError> for ShelfFault {
    ghost use Rattle.cq_outside.specs.declared.shelf.ShelfFault.TheVariants.{NoMemory};

    ghost from_gives = { λ _ e. e ≡ NoMemory };

    fn from(_: AllocError) -> Self {
        ShelfFault::NoMemory
    }
}

/// Files that are loaded whole by their names.
pub trait Shelf {
    /// The bytes of each file by its name, where the shelf tells them.
    ghost files: { Self → Option (List ℕ → Option (List ℕ)) };

    /// How often a load failed.
    ghost faults: { Self → ℕ };

    /// How many loads were refused, for a file that is absent or too large.
    ghost refused: { Self → ℕ };

    /// The bytes of the file of this name. A load that is to fail looks at no file.
    fn load(&mut self, alloc: Global, name: &str) -> Result<Vec<u8>, ShelfFault>
        ensures same { files self.new ≡ files self.old }
        ensures bytes { Loads (files self.old) name.now result }
        ensures cause { CountsFault (faults self.old) (faults self.new) result }
        ensures refuses { CountsRefusal (refused self.old) (refused self.new) result };
}
