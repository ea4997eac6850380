//! Tables that were worked by hand.
ghost use Rattle.std.specs.Prelude.{◌≡◌, All, IfOk, IsTrue};
ghost use Rattle.ept_emit.specs.Pages.{AreApart, IsMapped, guest_range_of, ranges_of};
ghost use Rattle.ept_emit.specs.Entries.{IsEmittable, level_of};
ghost use Rattle.machine_layout.specs.Walks.{entry_size};

use crate::agree::agree;
use ept_emit::{Caching, GuestRange, Leaf, Rights, Window, emit, eptp, pages};
use muen_num::limits::{GUEST_END, LARGE_PAGE, PAGE, PHYSICAL_END};
use std::alloc::{AllocError, Global};
use std::test::Fail;

const TABLES_AT: u64 = 0x10_0000;

// The bytes of the window's greatest page.
fn page_of(leaf: Leaf) -> u64
    ensures { result ≡ entry_size (level_of leaf) }
{
    match leaf {
        Leaf::Small => PAGE,
        Leaf::Large => LARGE_PAGE,
        Leaf::Huge => 512 * LARGE_PAGE,
    }
}

fn is_emittable(window: Window) -> bool
    ensures { IsTrue result → IsEmittable window }
{
    if window.size == 0 {
        return false;
    }
    if window.guest % PAGE != 0 || window.size % PAGE != 0 || window.address % PAGE != 0 {
        return false;
    }
    if window.guest >= GUEST_END || window.size > PHYSICAL_END || window.address >= PHYSICAL_END {
        return false;
    }
    let page = page_of(window.leaf);
    window.guest + window.size <= GUEST_END
        && window.address + window.size <= PHYSICAL_END
        && window.address % page == window.guest % page
}

fn are_emittable(windows: &[Window]) -> bool
    ensures { IsTrue result → All IsEmittable windows.now }
{
    for window in windows {
        if !is_emittable(*window) {
            return false;
        }
    }
    true
}

// Whether they ascend, share no address, aren't empty, and end where guest addresses do.
fn are_apart(ranges: &[GuestRange]) -> bool
    ensures mapped { IsTrue result → All IsMapped ranges.now }
    ensures apart { IsTrue result → AreApart ranges.now }
{
    let mut end = 0;
    for range in ranges {
        if range.size == 0 || range.size > GUEST_END {
            return false;
        }
        if range.guest < end || range.guest > GUEST_END - range.size {
            return false;
        }
        end = range.guest + range.size;
    }
    true
}

// An entry of a table, and 1 where there is none.
fn entry(out: &[u8], table: usize, index: usize) -> u64 {
    if table >= 1024 || index >= 512 {
        return 1;
    }
    let start = 4096 * table + 8 * index;
    match out.get(start..start + 8) {
        Some(bytes) => match bytes.first_chunk::<8>() {
            Some(bytes) => u64::from_le_bytes(*bytes),
            None => 1,
        },
        None => 1,
    }
}

// How many entries aren't 0.
fn entries_set(out: &[u8]) -> usize {
    let mut count = 0;
    for word in out.chunks_exact(8) {
        if word.iter().any(|byte| *byte != 0) && count < 4096 {
            count += 1;
        }
    }
    count
}

fn range_of(window: &Window) -> GuestRange
    ensures { result ≡ guest_range_of window.now }
{
    GuestRange {
        guest: window.guest,
        size: window.size,
    }
}

fn ranges_of(alloc: Global, windows: &[Window]) -> Result<Vec<GuestRange>, AllocError>
    ensures { IfOk result (λ v. v.items ≡ ranges_of windows.now) }
{
    windows.iter().map(|window| range_of(window)).collect(alloc)
}

// Whether emitting gives these entries, each with its table and its index in the table, and all
// others are 0.
fn emits(
    alloc: Global,
    windows: &[Window],
    expected: &[(usize, usize, u64)],
) -> Result<bool, AllocError> {
    let ranges = ranges_of(alloc, windows)?;
    if !are_emittable(windows) || !are_apart(&ranges) {
        return Ok(false);
    }
    let count = pages(&ranges);
    if count > 1024 {
        return Ok(false);
    }
    let mut out = vec![in alloc; 255u8; (PAGE * count) as usize]?;
    emit(windows, TABLES_AT, out.as_mut_slice());
    for (table, index, value) in expected {
        if entry(&out, *table, *index) != *value {
            return Ok(false);
        }
    }
    Ok(entries_set(&out) == expected.len())
}

fn small(guest: u64, address: u64, rights: Rights, caching: Caching) -> Window {
    Window {
        guest,
        size: PAGE,
        address,
        rights,
        caching,
        leaf: Leaf::Small,
    }
}

#[test]
fn a_large_page_beside_a_small_one(rt: HostRuntime) -> Result<(), Fail> {
    let rights = Rights::Rx;
    let code = small(0x40_0000, 0x10_7000, rights, Caching::Wb);
    let data = Window {
        guest: 0x80_0000,
        size: LARGE_PAGE,
        address: 0x20_0000,
        rights: Rights::Rw,
        caching: Caching::Wb,
        leaf: Leaf::Large,
    };
    let expected = [
        (0, 0, 0x10_1007),
        (1, 0, 0x10_2007),
        (2, 2, 0x10_3007),
        (2, 4, 0x20_00b3),
        (3, 0, 0x10_7035),
    ];
    agree(&rt, eptp(TABLES_AT), 0x10_001E);
    agree(&rt, emits(rt.alloc(), &[code, data], &expected)?, true);
    Ok(())
}

#[test]
fn a_page_of_a_gigabyte(rt: HostRuntime) -> Result<(), Fail> {
    let window = Window {
        guest: 0x4000_0000,
        size: 0x4000_0000,
        address: 0x8000_0000,
        rights: Rights::Rw,
        caching: Caching::Wb,
        leaf: Leaf::Huge,
    };
    let expected = [(0, 0, 0x10_1007), (1, 1, 0x8000_00b3)];
    agree(&rt, emits(rt.alloc(), &[window], &expected)?, true);
    Ok(())
}

#[test]
fn the_highest_page(rt: HostRuntime) -> Result<(), Fail> {
    let window = small(0xffff_ffff_f000, 0x10_6000, Rights::R, Caching::Uc);
    let expected = [
        (0, 511, 0x10_1007),
        (1, 511, 0x10_2007),
        (2, 511, 0x10_3007),
        (3, 511, 0x10_6001),
    ];
    agree(&rt, emits(rt.alloc(), &[window], &expected)?, true);
    Ok(())
}
