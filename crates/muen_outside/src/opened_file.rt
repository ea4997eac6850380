ghost use Rattle.std.specs.Prelude.{ℕ, Option};

use std::fs::OpenFile;
use std::io::Read;

/// A file that was opened to be read, and that may be asked for its size. What comes of asking, it may
/// tell or not: what is proved of code over every file holds over those that tell.
pub trait OpenedFile: Read {
    /// This may come of asking how many bytes it has.
    ghost sizes: { Self → Option ℕ → Type 0 };

    /// How many bytes it has, where that is known.
    fn size(&self) -> Option<u64>
        ensures { sizes self.now result };
}

/// Each file of the system, by what the system knows of it. It tells nothing.
impl<F: Read + OpenFile> OpenedFile for F {
    ghost sizes = { λ _ _. Unit {0} };

    fn size(&self) -> Option<u64> {
        self.metadata().ok().map(|known| known.len())
    }
}
