//! Windows: which has a guest address, up to where that stays so, and where it leads.
ghost use Rattle.std.specs.Prelude.{◌≡◌, ◌+◌, ◌%◌, ◌^◌, ◌<◌, ◌≤◌, nat_le, All, IfSome};
ghost use Rattle.ept_check.specs.Pieces.{Holds, HasNoEdgeBetween};
ghost use Rattle.ept_check.specs.Sound.{AreApart, IsWhole};
ghost use Rattle.ept_emit.specs.Emitted.{translation_in, window_at};
ghost use Rattle.ept_emit.specs.Searches.{IsPast};

use ept_emit::Window;
use machine_layout::Walk;
use muen_num::AccessKind;

/// Guest addresses of which one window has all, or none has any.
#[derive(Clone, Copy)]
pub(crate) struct Piece {
    pub(crate) window: Option<Window>,
    /// The first address behind them.
    pub(crate) end: u64,
}

// How many windows end by this address.
fn windows_before(windows: &[Window], addr: u64) -> usize
    requires { AreApart windows.now }
    ensures { IsPast windows.now addr result }
{
    windows.partition_point(
        |w: &Window| -> bool
            ensures { result ≡ nat_le (w.now.guest + w.now.size) addr }
        { w.guest <= addr && w.size <= addr - w.guest },
    )
}

/// The piece that begins at an address, and ends at a limit or before it.
pub(crate) fn piece_from(windows: &[Window], addr: u64, limit: u64) -> Piece
    requires whole { All IsWhole windows.now }
    requires apart { AreApart windows.now }
    requires limit { addr < limit }
    requires pages { limit % 4096 ≡ 0 }
    ensures window { result.window ≡ window_at windows.now addr }
    ensures holds { IfSome result.window (Holds addr) }
    ensures apart { All (HasNoEdgeBetween addr result.end) windows.now }
    ensures some { addr < result.end }
    ensures near { result.end ≤ limit }
    ensures pages { result.end % 4096 ≡ 0 }
{
    let k = windows_before(windows, addr);
    if k == windows.len() {
        return Piece {
            window: None,
            end: limit,
        };
    }
    let window = windows[k];
    if addr < window.guest {
        return Piece {
            window: None,
            end: limit.min(window.guest),
        };
    }
    Piece {
        window: Some(window),
        end: limit.min(window.guest + window.size),
    }
}

/// Where an access of a guest address is led by the window that has it.
pub(crate) fn translation(window: Option<Window>, addr: u64, kind: AccessKind) -> Walk
    requires { IfSome window (Holds addr) }
    ensures { result ≡ translation_in window addr kind }
{
    match window {
        None => Walk::Violation(0),
        Some(w) if w.rights.allows(kind) => Walk::At(w.address + (addr - w.guest)),
        Some(w) => Walk::Violation(w.rights.bits() as u64),
    }
}
