//! The entries of tables, and which pages map windows.
ghost use Rattle.std.specs.Prelude.{◌≡◌, ◌≢◌, ℕ, ◌+◌, ◌*◌, ◌^◌, ◌<◌, ◌≤◌, length};
ghost use Rattle.ept_emit.specs.Entries.{IsEmittable, is_whole, leaf_entry, level_of, table_entry, type_of, word_at};
ghost use Rattle.machine_layout.specs.Walks.{entry_size};

use crate::{Leaf, Window};
use machine_layout::entries::{ENTRY_BYTES, MAPS_PAGE, TYPE_UNIT, entry_size};
use muen_num::limits::PAGE;
use policy_types::{Caching, Rights};

// The level of the tables whose entries map pages of this size.
fn level_of(leaf: Leaf) -> u32
    ensures { result ≡ level_of leaf }
{
    match leaf {
        Leaf::Small => 0,
        Leaf::Large => 1,
        Leaf::Huge => 2,
    }
}

// The memory type of an entry that maps a page.
fn type_of(caching: Caching) -> u64
    ensures value { result ≡ type_of caching }
    ensures small { result < 8 }
{
    match caching {
        Caching::Uc => 0,
        Caching::Wc => 1,
        Caching::Wt => 4,
        Caching::Wp => 5,
        Caching::Wb => 6,
    }
}

/// Whether this entry of this level maps a page of the window.
pub(crate) fn is_whole(window: Window, level: u32, entry: u64) -> bool
    requires emittable { IsEmittable window }
    requires level { level < 4 }
    requires small { entry_size level * entry < 2 ^ 48 }
    ensures { result ≡ is_whole window level entry }
{
    if level == 0 {
        return true;
    }
    let bytes = entry_size(level);
    let start = bytes * entry;
    level <= level_of(window.leaf)
        && window.guest <= start
        && start + bytes <= window.guest + window.size
}

/// The entry that maps a page of the window.
pub(crate) fn leaf_entry(window: Window, level: u32, entry: u64) -> u64
    requires emittable { IsEmittable window }
    requires level { level < 4 }
    requires touched { entry_size level * entry < window.guest + window.size }
    ensures { result ≡ leaf_entry window level entry }
{
    let start = entry_size(level) * entry;
    let size_bit = if level == 0 { 0 } else { MAPS_PAGE };
    window.address
        + start.saturating_sub(window.guest)
        + size_bit
        + TYPE_UNIT * type_of(window.caching)
        + u64::from(window.rights.bits())
}

/// The entry that references the table in a page.
pub(crate) fn table_entry(pointers: Rights, page: u64) -> u64
    requires { page < 2 ^ 28 }
    ensures { result ≡ table_entry pointers page }
{
    PAGE * page + u64::from(pointers.bits())
}

/// Writes a word of the tables: entry `i` of table `k` is word `512 * k + i`.
pub(crate) fn set_word(out: &mut [u8], word: usize, value: u64)
    requires { 8 * word + 8 ≤ length out.old }
    ensures here { word_at out.new word ≡ value }
    ensures others { (j : ℕ) → j ≢ word → word_at out.new j ≡ word_at out.old j }
{
    let start = ENTRY_BYTES as usize * word;
    out[start..start + ENTRY_BYTES as usize].copy_from_slice(&value.to_le_bytes());
}
