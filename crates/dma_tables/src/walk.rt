//! The walk of the tables (Intel VT-d specification, legacy mode): root table, context table, and four
//! levels of second-level tables.
//!
//! The level of a second-level table is 3 for the one that a context entry refers to, and 0 for the one
//! whose entries refer to pages of memory.
ghost use Rattle.std.specs.Prelude.{◌≡◌, ◌*◌, ◌<◌, ◌^◌, IfSome, option_map};
ghost use Rattle.std.specs.List.{find};
ghost use Rattle.std.specs.Str.{bytes_eq};
ghost use Rattle.dma_tables.specs.DmaWalk.{context_table, device_page, device_walk, dma_walk, has_right, highest_table, is_context, is_paging, is_root, next_page, page_in, paged, root_page, word_of};

use crate::file::{DmaDevice, DmaFile};
use crate::tables::DmaTables;
use machine_layout::entries::{ENTRY_BYTES, TABLE_ENTRIES, entry_size};
use machine_layout::{bits, word_at};
use muen_num::Name;
use muen_num::limits::{GUEST_END, PAGE};

// A word of the page with this number, where it is one of the file.
fn word_of(file: &DmaFile, page: u64, i: usize) -> Option<u64>
    requires { i < 512 }
    ensures { result ≡ word_of file.now page i }
{
    let root = file.base / PAGE;
    let count = (file.pages.len() / PAGE as usize) as u64;
    if page < root || page - root >= count {
        return None;
    }
    let at = PAGE * (page - root) + ENTRY_BYTES * i as u64;
    Some(word_at(file.pages.items(), at as usize))
}

// The page that an entry refers to.
fn page_in(entry: u64) -> u64
    ensures value { result ≡ page_in entry }
    ensures small { result < 2 ^ 28 }
{
    bits(entry, 12, 39)
}

// A root entry that is present.
fn is_root(low: u64, high: u64) -> bool
    ensures { result ≡ is_root low high }
{
    bits(low, 0, 0) == 1 && bits(low, 1, 11) == 0 && bits(low, 40, 63) == 0 && high == 0
}

// The context table of a bus.
fn context_table(file: &DmaFile, bus: u8) -> Option<u64>
    ensures { result ≡ context_table (word_of file.now) (root_page file.now) bus }
{
    let root = file.base / PAGE;
    let low = word_of(file, root, 2 * bus as usize)?;
    let high = word_of(file, root, 2 * bus as usize + 1)?;
    if is_root(low, high) {
        Some(page_in(low))
    } else {
        None
    }
}

// A context entry that is present, with four levels of tables behind it.
fn is_context(low: u64, high: u64) -> bool
    ensures { result ≡ is_context low high }
{
    bits(low, 0, 0) == 1
        && bits(low, 1, 11) == 0
        && bits(low, 40, 63) == 0
        && bits(high, 0, 2) == 2
        && bits(high, 3, 7) == 0
        && bits(high, 24, 63) == 0
}

// The highest second-level table of a device, by the context table of its bus.
fn highest_table(file: &DmaFile, table: u64, devfn: u8) -> Option<u64>
    ensures { result ≡ highest_table (word_of file.now) table devfn }
{
    let low = word_of(file, table, 2 * devfn as usize)?;
    let high = word_of(file, table, 2 * devfn as usize + 1)?;
    if is_context(low, high) {
        Some(page_in(low))
    } else {
        None
    }
}

fn has_right(write: bool, entry: u64) -> bool
    ensures { result ≡ has_right write entry }
{
    if write {
        bits(entry, 1, 1) == 1
    } else {
        bits(entry, 0, 0) == 1
    }
}

// A second-level entry that is present and has this right.
fn is_paging(write: bool, entry: u64) -> bool
    ensures { result ≡ is_paging write entry }
{
    has_right(write, entry) && bits(entry, 2, 11) == 0 && bits(entry, 40, 63) == 0
}

// What the entry for an address refers to, in a second-level table of this level.
fn next_page(file: &DmaFile, addr: u64, write: bool, level: u32, table: u64) -> Option<u64>
    requires { level < 4 }
    ensures value { result ≡ next_page (word_of file.now) addr write level table }
    ensures small { IfSome result (λ page. page < 2 ^ 28) }
{
    let index = addr / entry_size(level) % TABLE_ENTRIES;
    let entry = word_of(file, table, index as usize)?;
    if is_paging(write, entry) {
        Some(page_in(entry))
    } else {
        None
    }
}

// The page of memory for an address, from the highest second-level table on.
fn paged(file: &DmaFile, addr: u64, write: bool, table: u64) -> Option<u64>
    ensures value { result ≡ paged (word_of file.now) addr write table }
    ensures small { IfSome result (λ page. page < 2 ^ 28) }
{
    let table = next_page(file, addr, write, 3, table)?;
    let table = next_page(file, addr, write, 2, table)?;
    let table = next_page(file, addr, write, 1, table)?;
    next_page(file, addr, write, 0, table)
}

// The page of memory that a device reaches by an address.
fn device_page(file: &DmaFile, device: &DmaDevice, addr: u64, write: bool) -> Option<u64>
    ensures value { result ≡ device_page (word_of file.now) (root_page file.now) device.now addr write }
    ensures small { IfSome result (λ page. page < 2 ^ 28) }
{
    let table = context_table(file, device.bus)?;
    let table = highest_table(file, table, device.devfn)?;
    paged(file, addr, write, table)
}

// Where a device reads or writes by an address.
#[tactic(auto, unfolding(crate::specs::DmaWalk::device_walk))]
fn device_walk(file: &DmaFile, device: &DmaDevice, addr: u64, write: bool) -> Option<u64>
    ensures { result ≡ device_walk file.now device.now addr write }
{
    if addr >= GUEST_END {
        return None;
    }
    let page = device_page(file, device, addr, write)?;
    Some(PAGE * page + addr % PAGE)
}

fn device_named<'a>(devices: &'a [DmaDevice], name: &Name) -> Option<&'a DmaDevice>
    ensures { option_map (λ d. d.now) result ≡ find (λ d. bytes_eq d.name name.now) devices.now }
{
    devices.iter().find(|device| device.name == *name)
}

impl DmaTables {
    /// Where the device of this name writes, or reads, by an address; `None` where the tables let it
    /// reach nothing there: it isn't one of theirs, the address is 2^48 or more, or an entry on the way
    /// lies outside the tables' pages, isn't present, lacks the right, or has a bit set that the tables
    /// don't define.
    #[tactic(auto, unfolding(crate::specs::DmaWalk::dma_walk))]
    pub fn walk(&self, device: &Name, address: u64, write: bool) -> Option<u64>
        ensures { result ≡ dma_walk self.now device.now address write }
    {
        let file = self.file();
        let device = device_named(file.devices.items(), device)?;
        device_walk(file, device, address, write)
    }
}
