//! Which accesses of ports and of MSRs leave a subject, by its bitmaps.
ghost use Rattle.std.specs.Prelude.{◌≡◌, ◌+◌};
ghost use Rattle.std.specs.List.{list_any};
ghost use Rattle.muen_num.specs.Range.{numbers_below};
ghost use Rattle.muen_num.specs.AccessSize.{bytes_of};
ghost use Rattle.machine_layout.specs.Exits.{is_set, port_is_set, port_exits, msr_bit, msr_exits};

use muen_num::AccessSize;
use muen_num::limits::{HIGH_MSR_FIRST, HIGH_MSR_LAST, LAST_PORT, LOW_MSR_LAST};

/// How many ports an I/O bitmap covers, and so the first port of bitmap B (Intel SDM volume 3,
/// I/O-bitmap addresses).
pub const BITMAP_PORTS: usize = 0x8000;

/// Bits of a byte.
const BITS: usize = 8;

/// The bytes at which the parts of an MSR bitmap begin (Intel SDM volume 3, MSR-bitmap address): for
/// reads of the low MSRs, for reads of the high ones, and for writes of either.
const LOW_READS: usize = 0;

const HIGH_READS: usize = 1024;

const LOW_WRITES: usize = 2048;

const HIGH_WRITES: usize = 3072;

// Whether a bit of a bitmap is set; it isn't where the bitmap has no such byte.
#[tactic(auto, unfolding(crate::specs::Exits::is_set))]
fn is_set(bitmap: &[u8], bit: usize) -> bool
    ensures { result ≡ is_set bitmap.now bit }
{
    if bit / BITS < bitmap.len() {
        (bitmap[bit / BITS] >> (bit % BITS)) % 2 == 1
    } else {
        false
    }
}

// Whether the bit of a port is set.
fn port_is_set(a: &[u8], b: &[u8], port: usize) -> bool
    ensures { result ≡ port_is_set a.now b.now port }
{
    if port < BITMAP_PORTS {
        is_set(a, port)
    } else {
        is_set(b, port - BITMAP_PORTS)
    }
}

// Whether one of so many ports has its bit set.
fn one_is_set(a: &[u8], b: &[u8], first: u16, count: u8) -> bool
    ensures { result ≡ list_any (λ k. port_is_set a.now b.now (first + k)) (numbers_below count) }
{
    for k in 0..count {
        if port_is_set(a, b, usize::from(first) + usize::from(k)) {
            return true;
        }
    }
    false
}

/// Whether an access of ports leaves the subject to which I/O bitmaps A and B belong: it goes past
/// port FFFFH, or one of its ports has its bit set.
pub fn port_exits(a: &[u8], b: &[u8], port: u16, size: AccessSize) -> bool
    ensures { result ≡ port_exits a.now b.now port (bytes_of size) }
{
    let wraps = u64::from(port) + u64::from(size.bytes()) > LAST_PORT + 1;
    wraps || one_is_set(a, b, port, size.bytes())
}

/// The bit that an MSR bitmap has for reads or for writes of an MSR. None of an MSR outside both ranges.
pub fn msr_bit(index: u32, write: bool) -> Option<usize>
    ensures { result ≡ msr_bit index write }
{
    let low = if write { LOW_WRITES } else { LOW_READS };
    let high = if write { HIGH_WRITES } else { HIGH_READS };
    let index = u64::from(index);
    if index <= LOW_MSR_LAST {
        return Some(BITS * low + index as usize);
    }
    if HIGH_MSR_FIRST <= index && index <= HIGH_MSR_LAST {
        return Some(BITS * high + (index - HIGH_MSR_FIRST) as usize);
    }
    None
}

/// Whether a read or a write of an MSR leaves the subject to which the MSR bitmap belongs: its bit is
/// set, or the bitmap has no bit for it.
#[tactic(auto, unfolding(crate::specs::Exits::msr_exits))]
pub fn msr_exits(bitmap: &[u8], index: u32, write: bool) -> bool
    ensures { result ≡ msr_exits bitmap.now index write }
{
    match msr_bit(index, write) {
        None => true,
        Some(bit) => is_set(bitmap, bit),
    }
}
