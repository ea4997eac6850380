//! I/O bitmaps A and B.
ghost use Rattle.std.specs.Prelude.{◌≡◌, ℕ, ◌+◌, ◌-◌, ◌<◌, min, not, length};
ghost use Rattle.machine_layout.specs.Exits.{is_set, port_exits};
ghost use Rattle.iobm_emit.specs.Ports.{is_granted, is_granted_access};

use machine_layout::{BITMAP_PORTS, clear_bits, set_all};
use muen_num::limits::PAGE;
use policy_types::PortRange;

// The bit of a port in the bitmap of the ports from `base` on; of a port outside them the nearest
// end of the bitmap.
fn bit_of(port: usize, base: usize) -> usize
    ensures { result ≡ min (port - base) BITMAP_PORTS }
{
    port.saturating_sub(base).min(BITMAP_PORTS)
}

// Writes the bitmap of the ports from `base` on.
fn write_bitmap(ports: &[PortRange], base: usize, bitmap: &mut [u8])
    requires { length bitmap.old ≡ PAGE }
    ensures { (bit : ℕ) → bit < BITMAP_PORTS → is_set bitmap.new bit ≡ not (is_granted ports.now (base + bit)) }
{
    set_all(bitmap);
    for range in ports {
        let first = bit_of(usize::from(range.start), base);
        let end = bit_of(usize::from(range.end) + 1, base);
        clear_bits(bitmap, first, end);
    }
}

/// Writes bitmap A of ports 0 to 7FFFH and bitmap B of ports 8000H to FFFFH, a page each, whatever
/// stood there before. An access of any size doesn't exit where each port that it touches is in one
/// of the ranges and it doesn't wrap past FFFFH; every other access exits.
pub fn emit(ports: &[PortRange], a: &mut [u8], b: &mut [u8])
    requires a_page { length a.old ≡ PAGE }
    requires b_page { length b.old ≡ PAGE }
    ensures { (port size : ℕ) → port_exits a.new b.new port size ≡ not (is_granted_access ports.now port size) }
{
    write_bitmap(ports, 0, a);
    write_bitmap(ports, BITMAP_PORTS, b);
}
