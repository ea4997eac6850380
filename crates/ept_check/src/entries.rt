//! Entries of tables, and where one leads that references no table.
ghost use Rattle.std.specs.Prelude.{◌≡◌, ℕ, ◌^◌, ◌<◌, ◌≤◌};
ghost use Rattle.ept_check.specs.Entries.{ended, leads_on, pages};
ghost use Rattle.machine_layout.specs.Memory.{is_there};
ghost use Rattle.machine_layout.specs.Walks.{index_at, leaf_end};

use crate::entry_reads::Entries;
use machine_layout::Walk;
use machine_layout::entries::{
    TABLE_ENTRIES, entry_size, is_leaf, is_misconfigured, is_present, page_number, rights_of,
};
use muen_num::limits::PAGE;

/// How many pages of guest addresses an entry of a table of this level stands for.
pub(crate) fn pages(level: u32) -> u64
    requires { level < 4 }
    ensures value { result ≡ pages level }
    ensures some { 0 < result }
    ensures few { result ≤ 2 ^ 27 }
{
    entry_size(level) / PAGE
}

/// Which entry of a table of this level a guest address takes.
pub(crate) fn index_at(level: u32, addr: u64) -> u64
    requires { level < 4 }
    ensures value { result ≡ index_at level addr }
    ensures few { result < 512 }
{
    addr / entry_size(level) % TABLE_ENTRIES
}

/// Whether an entry of a table of this level references a table.
pub(crate) fn leads_on(level: u32, entry: u64) -> bool
    requires { level < 4 }
    ensures { result ≡ leads_on level entry }
{
    is_present(entry) && !(is_misconfigured(level, entry) || is_leaf(level, entry))
}

// Where a walk ends that has come to this physical address: first the rights are checked, and then
// whether the address is in memory.
fn leaf_end<E: Entries>(entries: &E, want: u64, rights: u64, address: u64) -> Walk
    ensures { (addr : ℕ) → result ≡ leaf_end (is_there (E.pages entries.now)) addr want rights address }
{
    if rights & want != want {
        return Walk::Violation(rights);
    }
    if entries.has(address / PAGE) {
        return Walk::At(address);
    }
    Walk::Misconfigured
}

/// Where a walk for a guest address ends at an entry that references no table, with the rights of the
/// entries above.
pub(crate) fn ended<E: Entries>(
    entries: &E,
    level: u32,
    entry: u64,
    addr: u64,
    want: u64,
    rights: u64,
) -> Walk
    requires { level < 4 }
    ensures { result ≡ ended (is_there (E.pages entries.now)) level entry addr want rights }
{
    if !is_present(entry) {
        return Walk::Violation(0);
    }
    if is_misconfigured(level, entry) {
        return Walk::Misconfigured;
    }
    let address = PAGE * page_number(entry) + addr % entry_size(level);
    leaf_end(entries, want, rights & rights_of(entry), address)
}
