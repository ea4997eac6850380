//! The walk of EPT tables, before the rights are judged.
ghost use Rattle.std.specs.Prelude.{◌≡◌, ℕ, ◌%◌, ◌^◌, ◌<◌, slice_index_or};
ghost use Rattle.std.specs.List.{All};
ghost use Rattle.machine_layout.specs.Memory.{is_there};
ghost use Rattle.machine_layout.specs.Walks.{index_at, leaf_end, entry_of, walk_from, addresses_from};
ghost use Rattle.ept_walk.specs.Ends.{judged, LeadsToPage, IsEntryOf};

use machine_layout::Walk;
use machine_layout::entries::{
    entry_address, entry_size, is_leaf, is_misconfigured, is_present, page_number, rights_of,
};
use muen_num::AccessSize;
use muen_num::limits::PAGE;
use phys_mem::PhysMem;

/// How many levels of tables there are.
pub const LEVELS: usize = 4;

/// What the tables map an address to, and the rights that all its entries have, as bits 2:0 of an
/// entry.
#[derive(Clone, Copy, Debug)]
pub struct Target {
    pub rights: u64,
    pub address: u64,
}

/// Where the tables lead.
#[derive(Clone, Copy, Debug)]
pub enum End {
    /// An entry isn't present.
    Absent,
    /// An entry isn't in memory, or has bits that it may not have.
    Invalid,
    Leads(Target),
}

// The entry of an address in the table of this page.
fn read_entry<M: PhysMem>(mem: &M, level: u32, table: u64, addr: u64) -> Option<u64>
    requires level { level < 4 }
    requires table { table < 2 ^ 52 }
    ensures { result ≡ entry_of (M.pages mem.now) table (index_at level addr) }
{
    mem.load(entry_address(level, table, addr), AccessSize::Eight)
}

// Where the tables lead from that of this page on, with the rights of the entries so far. The page
// of each table that is read is noted at its level.
pub(crate) fn trace<M: PhysMem>(
    mem: &M,
    addr: u64,
    level: u32,
    table: u64,
    rights: u64,
    tables: &mut [u64; LEVELS],
) -> End
    requires level { level < 4 }
    requires table { table < 2 ^ 52 }
    ensures end { (want : ℕ) → walk_from (entry_of (M.pages mem.now)) (is_there (M.pages mem.now)) addr want level table rights ≡ judged (is_there (M.pages mem.now)) addr want result }
    ensures noted { All (IsEntryOf tables.new) (addresses_from (entry_of (M.pages mem.now)) addr level table) }
    ensures above { (i : ℕ) → level < i → slice_index_or tables.new i 0 ≡ slice_index_or tables.old i 0 }
    ensures page { addr % 4096 ≡ 0 → LeadsToPage result }
{
    tables[level as usize] = table;
    let Some(entry) = read_entry(mem, level, table, addr) else {
        return End::Invalid;
    };
    if !is_present(entry) {
        return End::Absent;
    }
    if is_misconfigured(level, entry) {
        return End::Invalid;
    }
    let found = rights & rights_of(entry);
    let number = page_number(entry);
    if is_leaf(level, entry) {
        return End::Leads(Target {
            rights: found,
            address: PAGE * number + addr % entry_size(level),
        });
    }
    trace(mem, addr, level - 1, number, found, tables)
}

// Where a walk ends that has come to this physical address: first the rights are checked, and then
// whether the address is in memory.
pub(crate) fn leaf_end<M: PhysMem>(mem: &M, want: u64, rights: u64, address: u64) -> Walk
    ensures { (addr : ℕ) → result ≡ leaf_end (is_there (M.pages mem.now)) addr want rights address }
{
    if rights & want != want {
        return Walk::Violation(rights);
    }
    if is_there(mem, address / PAGE) {
        Walk::At(address)
    } else {
        Walk::Misconfigured
    }
}

// Whether the page of this number is in memory.
pub(crate) fn is_there<M: PhysMem>(mem: &M, number: u64) -> bool
    ensures { result ≡ is_there (M.pages mem.now) number }
{
    mem.page(number).is_some()
}
