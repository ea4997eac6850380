//! Tables, entry by entry.
ghost use Rattle.std.specs.Prelude.{◌≡◌, ◌≢◌, ℕ, suc, ◌+◌, ◌*◌, ◌/◌, ◌%◌, ◌^◌, ◌<◌, ◌≤◌, length, All};
ghost use Rattle.ept_emit.specs.Pages.{AreApart, ept_pages, ranges_of};
ghost use Rattle.ept_emit.specs.Emitted.{AreAscending, AreInOrder, AreReadAlone, AreReadOrZero, AreTranslating, HaveGreatestPages, HaveMemoryTypes, HaveOnePath, eptp_of};
ghost use Rattle.ept_emit.specs.Entries.{IsEmittable, word_at};
ghost use Rattle.ept_emit.specs.Needs.{needs};
ghost use Rattle.ept_emit.specs.Tables.{AreNumbered, AreWritten};
ghost use Rattle.machine_layout.specs.Walks.{entry_size};
ghost use Rattle.policy_types.specs.declared.rights.Rights.TheVariants.{Rwx};

use crate::Window;
use crate::entries::{is_whole, leaf_entry, set_word, table_entry};
use crate::search::window_on;
use machine_layout::entries::{PML4_LEVEL, TABLE_ENTRIES};
use muen_num::limits::PAGE;
use policy_types::Rights;

// Writes one entry of a table, and all tables below it, which are those from `used` on. `entry` counts
// over all tables of the level. Entries that reference a table have the rights `pointers`. Returns the
// number after the last table.
#[cycle(writing)]
fn write_entry(
    out: &mut [u8],
    base: u64,
    used: usize,
    windows: &[Window],
    pointers: Rights,
    level: u32,
    table: usize,
    entry: u64,
) -> usize
    requires emittable { All IsEmittable windows.now }
    requires apart { AreApart (ranges_of windows.now) }
    requires level { level < 4 }
    requires base { 4096 * base + length out.old ≤ 2 ^ 40 }
    requires table { table < used }
    requires entry { entry_size level * (entry + 1) ≤ 2 ^ 48 }
    requires room { 4096 * (used + needs windows.now level entry 1) ≤ length out.old }
    ensures few { result ≤ used + needs windows.now level entry 1 }
    ensures more { used ≤ result }
    ensures numbered { AreNumbered pointers (word_at out.new) base used result windows.now level table (λ g. g / entry_size level ≡ entry) }
    ensures rest { (j : ℕ) → j < 512 * used → j ≢ 512 * table + entry % 512 → word_at out.new j ≡ word_at out.old j }
    ensures beyond { (j : ℕ) → 512 * result ≤ j → word_at out.new j ≡ word_at out.old j }
{
    let word = TABLE_ENTRIES as usize * table + (entry % TABLE_ENTRIES) as usize;
    let Some(window) = window_on(windows, level, entry) else {
        set_word(out, word, 0);
        return used;
    };
    if is_whole(window, level, entry) {
        set_word(out, word, leaf_entry(window, level, entry));
        return used;
    }
    set_word(out, word, table_entry(pointers, base + used as u64));
    write_table(
        out,
        base,
        used + 1,
        windows,
        pointers,
        level - 1,
        used,
        entry,
    )
}

// Writes a whole table, which the entry `parent` of the level above references, and all tables below
// it, which are those from `used` on. Returns the number after the last table.
#[cycle(writing)]
fn write_table(
    out: &mut [u8],
    base: u64,
    used: usize,
    windows: &[Window],
    pointers: Rights,
    level: u32,
    table: usize,
    parent: u64,
) -> usize
    requires emittable { All IsEmittable windows.now }
    requires apart { AreApart (ranges_of windows.now) }
    requires level { level < 4 }
    requires base { 4096 * base + length out.old ≤ 2 ^ 40 }
    requires table { table < used }
    requires parent { entry_size (suc level) * (parent + 1) ≤ 2 ^ 48 }
    requires room { 4096 * (used + needs windows.now level (512 * parent) 512) ≤ length out.old }
    ensures few { result ≤ used + needs windows.now level (512 * parent) 512 }
    ensures more { used ≤ result }
    ensures numbered { AreNumbered pointers (word_at out.new) base used result windows.now level table (λ g. g / entry_size level / 512 ≡ parent) }
    ensures rest { (j : ℕ) → j < 512 * used → j / 512 ≢ table → word_at out.new j ≡ word_at out.old j }
    ensures beyond { (j : ℕ) → 512 * result ≤ j → word_at out.new j ≡ word_at out.old j }
{
    let mut top = used;
    for i in 0..TABLE_ENTRIES {
        top = write_entry(
            out,
            base,
            top,
            windows,
            pointers,
            level,
            table,
            TABLE_ENTRIES * parent + i,
        );
    }
    top
}

/// Writes tables for these windows into `out`, which is to lie at the physical address `at`: the table
/// of the highest level first, and each further table in the next page, in the order in which ascending
/// guest addresses need them. An address of a window is mapped by the greatest page, up to the
/// window's, whose aligned range around it lies wholly in the window; an entry that maps a page has
/// the window's rights and memory type, one that references a table has the rights `pointers`, and all
/// else is 0. Returns how many pages these tables take; those behind them in `out` are zero.
///
/// Windows ascend by guest address and share none. `out` has as many bytes as tables of small pages
/// would take.
pub fn write_tables(windows: &[Window], pointers: Rights, at: u64, out: &mut [u8]) -> usize
    requires emittable { All IsEmittable windows.now }
    requires apart { AreApart (ranges_of windows.now) }
    requires at { at % 4096 ≡ 0 }
    requires end { at + 4096 * ept_pages (ranges_of windows.now) ≤ 2 ^ 40 }
    requires room { length out.old ≡ 4096 * ept_pages (ranges_of windows.now) }
    ensures some { 1 ≤ result }
    ensures few { result ≤ ept_pages (ranges_of windows.now) }
    ensures numbered { AreNumbered pointers (word_at out.new) (at / 4096) 1 result windows.now 3 0 (λ addr. addr < 2 ^ 48) }
    ensures rest { (j : ℕ) → 512 * result ≤ j → word_at out.new j ≡ 0 }
    ensures len { length out.new ≡ length out.old }
{
    out.fill(0);
    write_table(out, at / PAGE, 1, windows, pointers, PML4_LEVEL, 0, 0)
}

/// Writes the EPT tables for these windows into `out`, which is to lie at the physical address `at`
/// (Intel SDM volume 3, "VMX Support for Address Translation"): those that `write_tables` writes, where
/// an entry that references a table has all rights. Pages that large pages save are zero at the end.
///
/// Windows ascend by guest address and share none. `out` has as many bytes as tables of small pages
/// would take.
pub fn emit(windows: &[Window], at: u64, out: &mut [u8])
    requires emittable { All IsEmittable windows.now }
    requires apart { AreApart (ranges_of windows.now) }
    requires at { at % 4096 ≡ 0 }
    requires end { at + 4096 * ept_pages (ranges_of windows.now) ≤ 2 ^ 40 }
    requires room { length out.old ≡ 4096 * ept_pages (ranges_of windows.now) }
    ensures walk { AreTranslating windows.now at out.new }
    ensures alone { AreReadAlone at out.new }
    ensures paths { HaveOnePath at out.new }
    ensures leaves { HaveGreatestPages windows.now at out.new }
    ensures types { HaveMemoryTypes windows.now at out.new }
    ensures ascending { AreAscending at out.new }
    ensures order { AreInOrder at out.new }
    ensures rest { AreReadOrZero (ept_pages (ranges_of windows.now)) at out.new }
    ensures written { AreWritten Rwx windows.now (at / 4096) out.new }
    ensures len { length out.new ≡ length out.old }
{
    write_tables(windows, Rights::Rwx, at, out);
}

/// The extended-page-table pointer of tables whose PML4 table is at `at`: memory type write back, walks
/// of four levels, and no accessed and dirty flags: bits 11:0 are 1EH (Intel SDM volume 3, format of the
/// EPTP).
pub fn eptp(at: u64) -> u64
    requires aligned { at % 4096 ≡ 0 }
    requires end { at ≤ 2 ^ 40 }
    ensures pointer { result ≡ eptp_of at }
    ensures low { result % 4096 ≡ 30 }
{
    const WRITE_BACK: u64 = 6;
    const WALK_LENGTH: u64 = 4;
    at + WRITE_BACK + 8 * (WALK_LENGTH - 1)
}
