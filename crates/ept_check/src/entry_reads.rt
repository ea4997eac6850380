//! Tables that are read entry by entry.
ghost use Rattle.std.specs.Prelude.{◌≡◌, ℕ, suc, ◌<◌, List};
ghost use Rattle.machine_layout.specs.Memory.{Page, is_there};
ghost use Rattle.machine_layout.specs.Walks.{entry_of};

/// The pages of a memory, of which the entries of tables are read one by one. Code over every such
/// memory comes to what stands in a table by `entry` alone, so `reads` counts all entries that it reads.
pub trait Entries {
    /// The pages that are there, each by its number.
    ghost pages: { Self → List Page };

    /// How many entries were read.
    ghost reads: { Self → ℕ };

    /// This entry of the table in the page of this number. None where the page isn't there.
    fn entry(&mut self, page: u64, index: u64) -> Option<u64>
        requires { index < 512 }
        ensures entry { result ≡ entry_of (pages self.old) page index }
        ensures pages { pages self.new ≡ pages self.old }
        ensures reads { reads self.new ≡ suc (reads self.old) };

    /// Whether the page of this number is there.
    fn has(&self, page: u64) -> bool
        ensures { result ≡ is_there (pages self.now) page };
}
