//! Numbers in pages, the lowest byte first.
ghost use Rattle.std.specs.Prelude.{◌≡◌, ◌+◌, ◌≤◌, drop, length, take};
ghost use Rattle.machine_layout.specs.Memory.{le_bytes, le_number, over};
ghost use Rattle.muen_num.specs.AccessSize.{bytes_of};

use machine_layout::{put_bytes, put_word, word_at};
use muen_num::AccessSize;

// The number of two bytes at this offset.
fn two_bytes_at(page: &[u8], at: usize) -> u16
    requires { at + 2 ≤ length page.now }
    ensures { result ≡ le_number (take 2 (drop at page.now)) }
{
    match page[at..at + 2].first_chunk::<2>() {
        Some(bytes) => u16::from_le_bytes(*bytes),
        None => unreachable!(),
    }
}

// The number of four bytes at this offset.
fn four_bytes_at(page: &[u8], at: usize) -> u32
    requires { at + 4 ≤ length page.now }
    ensures { result ≡ le_number (take 4 (drop at page.now)) }
{
    match page[at..at + 4].first_chunk::<4>() {
        Some(bytes) => u32::from_le_bytes(*bytes),
        None => unreachable!(),
    }
}

// The number of this size at this offset.
#[tactic(auto, unfolding(machine_layout::specs::PageFields::number_at))]
pub(crate) fn number_at(page: &[u8], at: usize, size: AccessSize) -> u64
    requires { at + bytes_of size ≤ length page.now }
    ensures { result ≡ le_number (take (bytes_of size) (drop at page.now)) }
{
    match size {
        AccessSize::One => u64::from(page[at]),
        AccessSize::Two => u64::from(two_bytes_at(page, at)),
        AccessSize::Four => u64::from(four_bytes_at(page, at)),
        AccessSize::Eight => word_at(page, at),
    }
}

// Writes the low bytes of a number at this offset.
pub(crate) fn put_number(page: &mut [u8], at: usize, size: AccessSize, number: u64)
    requires { at + bytes_of size ≤ length page.old }
    ensures { page.new ≡ over page.old at (le_bytes (bytes_of size) number) }
{
    match size {
        AccessSize::One => put_bytes(page, at, &[(number & 0xff) as u8]),
        AccessSize::Two => put_bytes(page, at, &((number & 0xffff) as u16).to_le_bytes()),
        AccessSize::Four => put_bytes(page, at, &((number & 0xffff_ffff) as u32).to_le_bytes()),
        AccessSize::Eight => put_word(page, at, number),
    }
}
