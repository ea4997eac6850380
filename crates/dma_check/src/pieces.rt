//! How far positions are alike.
ghost use Rattle.std.specs.Prelude.{◌≡◌, ◌<◌, ◌≤◌, ◌^◌, ◌*◌, ◌+◌, ◌-◌, ℕ, All};
ghost use Rattle.dma_check.specs.Marked.{IsPath, Reaches};
ghost use Rattle.dma_check.specs.Pieces.{AreAlike, Keeps};
ghost use Rattle.dma_check.specs.Views.{View};

use crate::held::DmaWindow;
use crate::path::Path;
use machine_layout::entries::entry_size;
use muen_num::limits::GUEST_END;

/// The level of the lowest table to which a walk comes: it comes to no other by an address for which the
/// same entry of it stands. 4 where it comes to none of the second level.
pub(crate) fn level_of(path: &Path) -> u32
    ensures few { result ≤ 4 }
    ensures reaches { (v : View) (q : ℕ) → IsPath v q path.now → Reaches v q result }
{
    if path.level_0.is_some() {
        return 0;
    }
    if path.level_1.is_some() {
        return 1;
    }
    if path.level_2.is_some() {
        return 2;
    }
    if path.level_3.is_some() {
        return 3;
    }
    4
}

/// The end of the addresses for which one entry of a table of this level stands, with this one; of level 4
/// all addresses.
pub(crate) fn end_of(addr: u64, level: u32) -> u64
    requires addr { addr < 2 ^ 48 }
    requires level { level ≤ 4 }
    ensures more { addr < result }
    ensures low { result ≤ 2 ^ 48 }
    ensures alike { (source : ℕ) → AreAlike (2 ^ 48 * source + addr) (result - addr) level }
{
    if level == 4 {
        return GUEST_END;
    }
    let size = entry_size(level);
    (addr / size + 1) * size
}

// How far from an address on a window has each address, or none, and no further than so many bytes.
fn kept_by(window: &DmaWindow, addr: u64, most: u64) -> u64
    requires addr { addr < 2 ^ 48 }
    requires most { most ≤ 2 ^ 48 }
    requires some { 0 < most }
    ensures some { 0 < result }
    ensures most { result ≤ most }
    ensures keeps { Keeps addr (addr + result) window.now }
{
    if addr < window.guest {
        return most.min(window.guest - addr);
    }
    if addr - window.guest < window.size {
        return most.min(window.size - (addr - window.guest));
    }
    most
}

/// How far from an address on each window has each address, or none, and no further than so many bytes.
pub(crate) fn kept(windows: &[DmaWindow], addr: u64, most: u64) -> u64
    requires addr { addr < 2 ^ 48 }
    requires most { most ≤ 2 ^ 48 }
    requires some { 0 < most }
    ensures some { 0 < result }
    ensures most { result ≤ most }
    ensures keeps { All (Keeps addr (addr + result)) windows.now }
{
    let mut least = most;
    for window in windows {
        least = kept_by(window, addr, least);
    }
    least
}
