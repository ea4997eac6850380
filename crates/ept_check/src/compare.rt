//! Where an entry that references no table leads accesses, against the windows.
ghost use Rattle.std.specs.Prelude.{◌≡◌, ◌%◌, ◌^◌, ◌<◌, ◌&&◌, not, IfSome};
ghost use Rattle.ept_check.specs.Entries.{pages};
ghost use Rattle.ept_check.specs.Faults.{contents, table_fault_of_kind, is_at, same};
ghost use Rattle.ept_check.specs.Pieces.{Holds, led_by_entry};
ghost use Rattle.ept_check.specs.Search.{first_from};
ghost use Rattle.ept_check.specs.Sound.{AreSubjectWindows};
ghost use Rattle.ept_check.specs.Tables.{addr_of};
ghost use Rattle.ept_emit.specs.Emitted.{translation, translation_in};
ghost use Rattle.machine_layout.specs.Memory.{is_there};

use crate::entries::{ended, pages};
use crate::entry_reads::Entries;
use crate::types::{FaultKind, TableFault};
use crate::windows::{piece_from, translation};
use ept_emit::Window;
use machine_layout::Walk;
use muen_num::AccessKind;
use muen_num::limits::{GUEST_END, PAGE};

/// How many pages of guest addresses a subject has.
pub(crate) const SUBJECT_PAGES: u64 = GUEST_END / PAGE;

/// The guest address of a position.
pub(crate) fn addr_of(position: u64) -> u64
    ensures value { result ≡ addr_of position }
    ensures small { result < 2 ^ 48 }
{
    PAGE * (position % SUBJECT_PAGES)
}

/// The fault of this kind at a position.
pub(crate) fn fault(kind: FaultKind, position: u64) -> TableFault
    ensures { result ≡ table_fault_of_kind kind position }
{
    TableFault {
        kind,
        subject: (position / SUBJECT_PAGES) as usize,
        addr: addr_of(position),
    }
}

fn same(a: Walk, b: Walk) -> bool
    ensures { result ≡ same a b }
{
    match (a, b) {
        (Walk::At(x), Walk::At(y)) => x == y,
        (Walk::Violation(x), Walk::Violation(y)) => x == y,
        (Walk::Misconfigured, Walk::Misconfigured) => true,
        _ => false,
    }
}

fn is_at(a: Walk) -> bool
    ensures { result ≡ is_at a }
{
    match a {
        Walk::At(_) => true,
        _ => false,
    }
}

fn leaks(walked: Walk, told: Walk) -> bool
    ensures { result ≡ (is_at walked && not (same walked told)) }
{
    is_at(walked) && !same(walked, told)
}

fn lacks(walked: Walk, told: Walk) -> bool
    ensures { result ≡ (not (is_at walked) && not (same walked told)) }
{
    !is_at(walked) && !same(walked, told)
}

// The fault of contents at a position.
fn compare_at<E: Entries>(
    entries: &E,
    window: Option<Window>,
    level: u32,
    entry: u64,
    rights: u64,
    at: u64,
) -> Option<TableFault>
    requires level { level < 4 }
    requires window { IfSome window (Holds (addr_of at)) }
    ensures { result ≡ contents (led_by_entry (is_there (E.pages entries.now)) level entry rights) (λ q kind. translation_in window (addr_of q) kind) at }
{
    let addr = addr_of(at);
    let walked_read = ended(
        entries,
        level,
        entry,
        addr,
        AccessKind::Read.bit() as u64,
        rights,
    );
    let walked_write = ended(
        entries,
        level,
        entry,
        addr,
        AccessKind::Write.bit() as u64,
        rights,
    );
    let walked_fetch = ended(
        entries,
        level,
        entry,
        addr,
        AccessKind::Fetch.bit() as u64,
        rights,
    );
    let told_read = translation(window, addr, AccessKind::Read);
    let told_write = translation(window, addr, AccessKind::Write);
    let told_fetch = translation(window, addr, AccessKind::Fetch);
    if leaks(walked_read, told_read)
        || leaks(walked_write, told_write)
        || leaks(walked_fetch, told_fetch)
    {
        return Some(fault(FaultKind::Leak, at));
    }
    if lacks(walked_read, told_read)
        || lacks(walked_write, told_write)
        || lacks(walked_fetch, told_fetch)
    {
        return Some(fault(FaultKind::Lacks, at));
    }
    None
}

/// The first fault of contents among the positions for which an entry stands that references no table,
/// from its first position on. Between borders of windows one look is enough.
pub(crate) fn compare<E: Entries>(
    entries: &E,
    windows: &[Window],
    level: u32,
    entry: u64,
    rights: u64,
    first: u64,
) -> Option<TableFault>
    requires windows { AreSubjectWindows (is_there (E.pages entries.now)) windows.now }
    requires level { level < 4 }
    requires first { first % pages level ≡ 0 }
    requires small { first < 2 ^ 60 }
    ensures { result ≡ first_from (contents (led_by_entry (is_there (E.pages entries.now)) level entry rights) (λ q kind. translation windows.now (addr_of q) kind)) first (pages level) }
{
    let end = first + pages(level);
    let mut at = first;
    while at < end {
        let addr = addr_of(at);
        let piece = piece_from(windows, addr, addr + PAGE * (end - at));
        if let Some(fault) = compare_at(entries, piece.window, level, entry, rights, at) {
            return Some(fault);
        }
        at += (piece.end - addr) / PAGE;
    }
    None
}
