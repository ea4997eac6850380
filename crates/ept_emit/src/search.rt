//! Which window has an address of an entry.
ghost use Rattle.std.specs.Prelude.{◌≡◌, ◌+◌, ◌*◌, ◌^◌, ◌<◌, ◌≤◌, All, IfSome};
ghost use Rattle.ept_emit.specs.Pages.{AreApart, ranges_of};
ghost use Rattle.ept_emit.specs.Entries.{IsEmittable, window_touching};
ghost use Rattle.ept_emit.specs.Searches.{IsPast};
ghost use Rattle.machine_layout.specs.Walks.{entry_size};

use crate::Window;
use machine_layout::entries::entry_size;

// How many windows end by this address.
fn windows_before(windows: &[Window], address: u64) -> usize
    requires emittable { All IsEmittable windows.now }
    requires apart { AreApart (ranges_of windows.now) }
    ensures { IsPast windows.now address result }
{
    let mut low = 0;
    let mut high = windows.len();
    while low < high {
        let middle = low + (high - low) / 2;
        let window = windows[middle];
        if window.guest + window.size <= address {
            low = middle + 1;
        } else {
            high = middle;
        }
    }
    low
}

/// The first window that has an address of this entry of this level, by binary search.
pub(crate) fn window_on(windows: &[Window], level: u32, entry: u64) -> Option<Window>
    requires emittable { All IsEmittable windows.now }
    requires apart { AreApart (ranges_of windows.now) }
    requires level { level < 4 }
    requires small { entry_size level * entry < 2 ^ 48 }
    ensures value { result ≡ window_touching windows.now (entry_size level * entry) (entry_size level) }
    ensures emittable { IfSome result IsEmittable }
    ensures touched { IfSome result (λ w. entry_size level * entry < w.guest + w.size) }
{
    let bytes = entry_size(level);
    let start = bytes * entry;
    let index = windows_before(windows, start);
    if index == windows.len() {
        return None;
    }
    let window = windows[index];
    if window.guest < start + bytes {
        Some(window)
    } else {
        None
    }
}
