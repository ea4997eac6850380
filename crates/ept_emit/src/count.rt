//! How many pages tables take.
ghost use Rattle.std.specs.Prelude.{◌≡◌, ◌*◌, ◌/◌, ◌^◌, ◌<◌, ◌≤◌, All};
ghost use Rattle.ept_emit.specs.Pages.{AreApart, IsMapped, count, ept_pages, is_taken};

use crate::window::GuestRange;
use machine_layout::entries::{PML4_LEVEL, entry_size};

// How many aligned ranges of so many bytes these ranges touch: one table stands for each.
fn values_taken(ranges: &[GuestRange], entry_size: u64) -> u64
    requires mapped { All IsMapped ranges.now }
    requires apart { AreApart ranges.now }
    requires some { 0 < entry_size }
    requires whole { 2 ^ 48 ≡ 2 ^ 48 / entry_size * entry_size }
    ensures value { result ≡ count (is_taken ranges.now entry_size) 0 (2 ^ 48 / entry_size) }
    ensures small { result ≤ 2 ^ 48 }
{
    let mut all = 0;
    let mut next = 0;
    for range in ranges {
        let last = (range.guest + range.size - 1) / entry_size;
        all += last + 1 - (range.guest / entry_size).max(next);
        next = last + 1;
    }
    all
}

/// How many pages the tables of windows at these guest addresses take: the PML4, and a page for each
/// table below it. The ranges ascend, share no address, aren't empty, and end at 2^48 or before it. What
/// windows show, and how, doesn't matter, and nothing is gone through page by page.
pub fn pages(ranges: &[GuestRange]) -> u64
    requires mapped { All IsMapped ranges.now }
    requires apart { AreApart ranges.now }
    ensures { result ≡ ept_pages ranges.now }
{
    1 + values_taken(ranges, entry_size(PML4_LEVEL))
        + values_taken(ranges, entry_size(PML4_LEVEL - 1))
        + values_taken(ranges, entry_size(PML4_LEVEL - 2))
}
