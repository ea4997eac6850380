//! Entries of EPT tables (Intel SDM volume 3, the extended page table mechanism: the formats of
//! entries, and EPT misconfigurations), for who writes tables and for who reads them.
//!
//! The level of a table is 3 for the PML4 table, 2 for a page directory pointer table, 1 for a page
//! directory, and 0 for a page table.
ghost use Rattle.std.specs.Prelude.{◌≡◌, ◌+◌, ◌*◌, ◌%◌, ◌^◌, ◌<◌, ◌≤◌};
ghost use Rattle.machine_layout.specs.Walks.{bits_of, entry_size, index_at, entry_address, is_present, is_leaf, has_lone_rights, has_no_type, is_misaligned, has_reserved, is_beyond, is_misconfigured};

use crate::bits;
use muen_num::limits::{LARGE_PAGE, PAGE};

/// The level of the PML4 table.
pub const PML4_LEVEL: u32 = 3;

/// The level of a page table.
const PAGE_TABLE_LEVEL: u32 = 0;

/// The bytes of a huge page, which an entry of a page directory pointer table maps: 1 GiB. Those of a
/// large page, which one of a page directory maps, are 2 MiB.
pub const HUGE_PAGE: u64 = 1 << 30;

/// The bytes of guest addresses that an entry of the PML4 table stands for.
const PML4_ENTRY_SIZE: u64 = 1 << 39;

/// How many entries a table has.
pub const TABLE_ENTRIES: u64 = 512;

/// How many bytes an entry has.
pub const ENTRY_BYTES: u64 = 8;

/// The rights to read, write and execute, as bits 2:0 of an entry have them.
pub const ALL_RIGHTS: u64 = 7;

/// Writing without reading.
const WRITE_ALONE: u64 = 2;

/// Execution without reading.
const EXECUTE_ALONE: u64 = 4;

/// Writing and execution without reading.
const WRITE_AND_EXECUTE: u64 = 6;

/// The lowest bit of the memory type of an entry that maps a page.
const TYPE_LOW: u32 = 3;

/// The highest bit of it.
const TYPE_HIGH: u32 = 5;

/// What the memory type is multiplied by, so that it stands in its bits of an entry.
pub const TYPE_UNIT: u64 = 1 << TYPE_LOW;

/// The bit of an entry above a page table that says that it maps a page.
const MAPS_PAGE_BIT: u32 = 7;

/// An entry's bit of that alone.
pub const MAPS_PAGE: u64 = 1 << MAPS_PAGE_BIT;

/// How many bytes of guest addresses an entry of a table of this level stands for.
pub fn entry_size(level: u32) -> u64
    requires { level < 4 }
    ensures value { result ≡ entry_size level }
    ensures some { 4096 ≤ result }
    ensures small { result ≤ 2 ^ 39 }
{
    match level {
        0 => PAGE,
        1 => LARGE_PAGE,
        2 => HUGE_PAGE,
        _ => PML4_ENTRY_SIZE,
    }
}

/// The physical address of the entry for a guest address, in the table of this level that has the
/// page of this number.
pub fn entry_address(level: u32, table: u64, addr: u64) -> u64
    requires level { level < 4 }
    requires table { table < 2 ^ 52 }
    ensures address { result ≡ entry_address table (index_at level addr) }
    ensures aligned { result % 8 ≡ 0 }
{
    PAGE * table + ENTRY_BYTES * (addr / entry_size(level) % TABLE_ENTRIES)
}

/// Bits 2:0 of an entry, the rights: read, write and execute.
pub fn rights_of(entry: u64) -> u64
    ensures { result ≡ bits_of entry 0 2 }
{
    bits(entry, 0, 2)
}

/// Bits 51:12 of an entry, the number of the page that it maps or that has the table that it
/// references.
pub fn page_number(entry: u64) -> u64
    ensures value { result ≡ bits_of entry 12 51 }
    ensures small { result < 2 ^ 40 }
{
    bits(entry, 12, 51)
}

/// Whether an entry is present: it has some right.
pub fn is_present(entry: u64) -> bool
    ensures { result ≡ is_present entry }
{
    rights_of(entry) != 0
}

/// Whether an entry of a table of this level maps a page: bit 7 says so but in a PML4 table, and in a
/// page table each entry does.
pub fn is_leaf(level: u32, entry: u64) -> bool
    ensures { result ≡ is_leaf level entry }
{
    level == PAGE_TABLE_LEVEL
        || level < PML4_LEVEL && bits(entry, MAPS_PAGE_BIT, MAPS_PAGE_BIT) == 1
}

// Writing without reading, or execution alone, which this project's machine hasn't.
fn has_lone_rights(entry: u64) -> bool
    ensures { result ≡ has_lone_rights entry }
{
    let rights = rights_of(entry);
    rights == WRITE_ALONE || rights == EXECUTE_ALONE || rights == WRITE_AND_EXECUTE
}

// A memory type that there isn't.
fn has_no_type(entry: u64) -> bool
    ensures { result ≡ has_no_type entry }
{
    matches!(bits(entry, TYPE_LOW, TYPE_HIGH), 2 | 3 | 7)
}

// An address bit below the size of the page is set.
fn is_misaligned(level: u32, entry: u64) -> bool
    requires { level < 4 }
    ensures { result ≡ is_misaligned level entry }
{
    PAGE * page_number(entry) % entry_size(level) != 0
}

// A bit is set that must be zero where an entry references a table: one of 7:3 in a PML4 table, and
// one of 6:3 in the others.
fn has_reserved(level: u32, entry: u64) -> bool
    ensures { result ≡ has_reserved level entry }
{
    if level == PML4_LEVEL {
        bits(entry, 3, 7) != 0
    } else {
        bits(entry, 3, 6) != 0
    }
}

// An address bit is set above those that the machine has.
fn is_beyond(entry: u64) -> bool
    ensures { result ≡ is_beyond entry }
{
    bits(entry, 40, 51) != 0
}

/// Whether an entry of a table of this level that is present has bits that it may not have.
pub fn is_misconfigured(level: u32, entry: u64) -> bool
    requires { level < 4 }
    ensures { result ≡ is_misconfigured level entry }
{
    if has_lone_rights(entry) || is_beyond(entry) {
        return true;
    }
    if is_leaf(level, entry) {
        has_no_type(entry) || is_misaligned(level, entry)
    } else {
        has_reserved(level, entry)
    }
}
