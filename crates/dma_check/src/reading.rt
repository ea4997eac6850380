//! The tables of a file, entry by entry (Intel VT-d specification, legacy mode: the formats of the root
//! entry, the context entry, and the second-level paging entry).
ghost use Rattle.std.specs.Prelude.{◌≡◌, ◌<◌, ◌^◌, ◌*◌, ◌+◌, ◌%◌, ℕ, Bool, List, Option, IfSome, option_and_then, option_map};
ghost use Rattle.dma_check.specs.Again.{highest_of};
ghost use Rattle.dma_check.specs.Held.{view_by};
ghost use Rattle.dma_check.specs.Marked.{IsPath};
ghost use Rattle.dma_check.specs.Views.{bus_of, devfn_of, has_page, is_present, table_below};
ghost use Rattle.dma_tables.specs.DmaWalk.{context_table, has_right, highest_table, is_context, is_paging, is_root, next_page, page_in, paged, root_page, word_of};
ghost use Rattle.image_pack.specs.declared.parts.SpanPart.{SpanPart};
ghost use Rattle.machine_layout.specs.Walks.{index_at};
ghost use Rattle.muen_num.specs.declared.limits.TheConstants.{PAGE};

use crate::path::Path;
use dma_tables::DmaFile;
use machine_layout::entries::{ENTRY_BYTES, TABLE_ENTRIES, entry_size};
use machine_layout::{bits, word_at};
use muen_num::limits::PAGE;

/// The page of the root table.
pub(crate) fn root_page(file: &DmaFile) -> u64
    ensures { result ≡ root_page file.now }
{
    file.base / PAGE
}

/// Whether the file has this page.
pub(crate) fn has_page(file: &DmaFile, page: u64) -> bool
    ensures { result ≡ has_page file.now page }
{
    let root = root_page(file);
    let count = (file.pages.len() / PAGE as usize) as u64;
    root <= page && page - root < count
}

// A word of the page with this number, where it is one of the file.
fn word_of(file: &DmaFile, page: u64, i: usize) -> Option<u64>
    requires { i < 512 }
    ensures { result ≡ word_of file.now page i }
{
    let root = file.base / PAGE;
    let count = (file.pages.len() / PAGE as usize) as u64;
    if page < root || page - root >= count {
        return None;
    }
    let at = PAGE * (page - root) + ENTRY_BYTES * i as u64;
    Some(word_at(file.pages.items(), at as usize))
}

// The page that an entry refers to.
fn page_in(entry: u64) -> u64
    ensures value { result ≡ page_in entry }
    ensures small { result < 2 ^ 28 }
{
    bits(entry, 12, 39)
}

// A root entry that is present.
fn is_root(low: u64, high: u64) -> bool
    ensures { result ≡ is_root low high }
{
    bits(low, 0, 0) == 1 && bits(low, 1, 11) == 0 && bits(low, 40, 63) == 0 && high == 0
}

// The context table of a bus.
fn context_table(file: &DmaFile, bus: u8) -> Option<u64>
    ensures { result ≡ context_table (word_of file.now) (root_page file.now) bus }
{
    let root = file.base / PAGE;
    let low = word_of(file, root, 2 * bus as usize)?;
    let high = word_of(file, root, 2 * bus as usize + 1)?;
    if is_root(low, high) {
        Some(page_in(low))
    } else {
        None
    }
}

// A context entry that is present, with four levels of tables behind it.
fn is_context(low: u64, high: u64) -> bool
    ensures { result ≡ is_context low high }
{
    bits(low, 0, 0) == 1
        && bits(low, 1, 11) == 0
        && bits(low, 40, 63) == 0
        && bits(high, 0, 2) == 2
        && bits(high, 3, 7) == 0
        && bits(high, 24, 63) == 0
}

// The highest second-level table of a device, by the context table of its bus.
fn highest_in(file: &DmaFile, table: u64, devfn: u8) -> Option<u64>
    ensures { result ≡ highest_table (word_of file.now) table devfn }
{
    let low = word_of(file, table, 2 * devfn as usize)?;
    let high = word_of(file, table, 2 * devfn as usize + 1)?;
    if is_context(low, high) {
        Some(page_in(low))
    } else {
        None
    }
}

// The same, where there is a context table.
fn highest_table(file: &DmaFile, context: Option<u64>, devfn: u8) -> Option<u64>
    ensures { result ≡ option_and_then (λ table. highest_table (word_of file.now) table devfn) context }
{
    match context {
        None => None,
        Some(table) => highest_in(file, table, devfn),
    }
}

fn has_right(write: bool, entry: u64) -> bool
    ensures { result ≡ has_right write entry }
{
    if write {
        bits(entry, 1, 1) == 1
    } else {
        bits(entry, 0, 0) == 1
    }
}

// A second-level entry that is present and has this right.
fn is_paging(write: bool, entry: u64) -> bool
    ensures { result ≡ is_paging write entry }
{
    has_right(write, entry) && bits(entry, 2, 11) == 0 && bits(entry, 40, 63) == 0
}

// .. with some right.
fn is_present(entry: u64) -> bool
    ensures { result ≡ is_present entry }
{
    is_paging(true, entry) || is_paging(false, entry)
}

// The entry for an address in a second-level table of this level.
fn entry_at(file: &DmaFile, addr: u64, level: u32, table: u64) -> Option<u64>
    requires { level < 4 }
    ensures { result ≡ word_of file.now table (index_at level addr) }
{
    let index = addr / entry_size(level) % TABLE_ENTRIES;
    word_of(file, table, index as usize)
}

// The table to which the entry for an address refers, in a table of this level.
fn table_in(file: &DmaFile, addr: u64, level: u32, table: u64) -> Option<u64>
    requires { level < 4 }
    ensures { result ≡ table_below (word_of file.now) addr level table }
{
    let entry = entry_at(file, addr, level, table)?;
    if is_present(entry) {
        Some(page_in(entry))
    } else {
        None
    }
}

// The same, where there is a table.
fn table_below(file: &DmaFile, addr: u64, level: u32, table: Option<u64>) -> Option<u64>
    requires { level < 4 }
    ensures { result ≡ option_and_then (table_below (word_of file.now) addr level) table }
{
    match table {
        None => None,
        Some(table) => table_in(file, addr, level, table),
    }
}

// What the entry for an address refers to, for a read or a write, in a second-level table of this level.
fn next_page(file: &DmaFile, addr: u64, write: bool, level: u32, table: u64) -> Option<u64>
    requires { level < 4 }
    ensures value { result ≡ next_page (word_of file.now) addr write level table }
    ensures small { IfSome result (λ page. page < 2 ^ 28) }
{
    let entry = entry_at(file, addr, level, table)?;
    if is_paging(write, entry) {
        Some(page_in(entry))
    } else {
        None
    }
}

// The page of memory for an address, from the highest second-level table on.
fn paged(file: &DmaFile, addr: u64, write: bool, table: u64) -> Option<u64>
    ensures value { result ≡ paged (word_of file.now) addr write table }
    ensures small { IfSome result (λ page. page < 2 ^ 28) }
{
    let table = next_page(file, addr, write, 3, table)?;
    let table = next_page(file, addr, write, 2, table)?;
    let table = next_page(file, addr, write, 1, table)?;
    next_page(file, addr, write, 0, table)
}

/// Where a read or a write by an address comes to, from the highest second-level table on, if there is one.
pub(crate) fn walk(file: &DmaFile, addr: u64, write: bool, table: Option<u64>) -> Option<u64>
    ensures value { result ≡ option_map (λ page. PAGE * page + addr % PAGE) (option_and_then (paged (word_of file.now) addr write) table) }
    ensures small { IfSome result (λ place. place < 2 ^ 40) }
{
    let Some(table) = table else {
        return None;
    };
    let page = paged(file, addr, write, table)?;
    Some(PAGE * page + addr % PAGE)
}

/// The highest second-level table of a source.
pub(crate) fn highest_of(file: &DmaFile, source: u32) -> Option<u64>
    requires { source < 65536 }
    ensures { result ≡ highest_of file.now source }
{
    let context = context_table(file, (source / 256) as u8);
    highest_table(file, context, (source % 256) as u8)
}

/// The tables to which the walk for an address of a source comes.
pub(crate) fn path_of(file: &DmaFile, source: u32, addr: u64) -> Path
    requires source { source < 65536 }
    requires addr { addr < 2 ^ 48 }
    ensures { (spans : List SpanPart) (declared : ℕ → ℕ → Bool → Option ℕ) → IsPath (view_by file.now spans declared) (2 ^ 48 * source + addr) result }
{
    let context = context_table(file, (source / 256) as u8);
    let level_3 = highest_table(file, context, (source % 256) as u8);
    let level_2 = table_below(file, addr, 3, level_3);
    let level_1 = table_below(file, addr, 2, level_2);
    let level_0 = table_below(file, addr, 1, level_1);
    Path {
        root: root_page(file),
        context,
        level_3,
        level_2,
        level_1,
        level_0,
    }
}
