//! Bits of I/O bitmaps that were computed by hand.
use crate::agree::agree;
use iobm_emit::{PortRange, emit};
use std::test::Fail;

#[test]
fn bits_of_two_ranges(rt: HostRuntime) -> Result<(), Fail> {
    let mut a = vec![in rt.alloc(); 0u8; 4096]?;
    let mut b = vec![in rt.alloc(); 0u8; 4096]?;
    let keyboard = PortRange {
        start: 0x60,
        end: 0x64,
    };
    let first_of_b = PortRange {
        start: 0x8000,
        end: 0x8000,
    };
    emit(&[keyboard, first_of_b], &mut a, &mut b);
    agree(&rt, a.get(11..14), Some([0xFF, 0xE0, 0xFF].as_slice()));
    agree(&rt, b.get(..2), Some([0xFE, 0xFF].as_slice()));
    Ok(())
}
