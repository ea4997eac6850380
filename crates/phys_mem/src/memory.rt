//! What memory does.
ghost use Rattle.std.specs.Prelude.{◌≡◌, ◌/◌, ◌%◌, List, OnSome, option_map};
ghost use Rattle.std.specs.Borrow.{sem, LendsSo, Array, u8 as byte};
ghost use Rattle.muen_num.specs.AccessSize.{bytes_of};
ghost use Rattle.machine_layout.specs.Memory.{Page, page_of, is_there, change, load_of, store_of};

use muen_num::AccessSize;

/// The bytes of a page of memory (Intel SDM volume 3, 4-level paging and EPT).
pub const PAGE_BYTES: usize = 4096;

/// Physical memory by its pages. Addresses are physical, and in bytes.
pub trait PhysMem: Drop {
    /// The pages that are there, each by its number.
    ghost pages: { Self → List Page };

    /// The number that is stored at an address, the lowest byte first. None where its page isn't
    /// there.
    fn load(&self, at: u64, size: AccessSize) -> Option<u64>
        requires { at % bytes_of size ≡ 0 }
        ensures { result ≡ load_of (pages self.now) at (bytes_of size) };

    /// Stores the low bytes of a number at an address, and tells whether its page is there. Where it
    /// isn't, nothing changes.
    fn store(&mut self, at: u64, size: AccessSize, value: u64) -> bool
        requires { at % bytes_of size ≡ 0 }
        ensures done { result ≡ is_there (pages self.old) (at / 4096) }
        ensures after { pages self.new ≡ store_of (pages self.old) at (bytes_of size) value };

    /// The bytes of the page of this number, lent. None where it isn't there.
    fn page(&self, number: u64) -> Option<&[u8; PAGE_BYTES]>
        ensures { option_map (λ p. p.now) result ≡ page_of (pages self.now) number };

    /// The bytes of the page of this number, lent for writing: what is left in them is what the page
    /// has then, and all other pages stay as they are. None where it isn't there.
    fn page_mut(&mut self, number: u64) -> Option<&mut [u8; PAGE_BYTES]>
        ensures value { option_map (λ p. p.now) result ≡ page_of (pages self.old) number }
        ensures* lends { sem 𝓛 (LendsSo Self.row (Array byte 4096) self.entry result
            (λ n w. OnSome result (pages n ≡ change (pages self.old) number (λ _. w)))
            (λ n. pages n ≡ pages self.old)) };
}
