//! Fields of an entry, and bits of bitmaps.
use crate::agree::{agree, agree_at};
use machine_layout::{bits, msr_exits, port_exits};
use muen_num::AccessSize;
use std::test::Fail;

#[test]
fn ports_at_the_ends_of_bitmaps(rt: HostRuntime) -> Result<(), Fail> {
    // all ports but 7FFFH to 8000H, and FFFEH to FFFFH
    let mut a = vec![in rt.alloc(); 0xFFu8; 4096]?;
    let mut b = vec![in rt.alloc(); 0xFFu8; 4096]?;
    if let (Some(last), Some(first)) = (a.get_mut(4095), b.get_mut(0)) {
        *last = 0x7F;
        *first = 0xFE;
    }
    if let Some(last) = b.get_mut(4095) {
        *last = 0x3F;
    }
    let table = [
        (0x7FFFu16, AccessSize::One, false),
        (0x7FFF, AccessSize::Two, false),
        (0x7FFF, AccessSize::Four, true),
        (0x7FFE, AccessSize::Two, true),
        (0x8000, AccessSize::One, false),
        (0x8000, AccessSize::Two, true),
        (0xFFFE, AccessSize::Two, false),
        (0xFFFF, AccessSize::One, false),
        (0xFFFF, AccessSize::Two, true),
        (0xFFFE, AccessSize::Four, true),
    ];
    for (port, size, exits) in table {
        agree_at(&rt, port_exits(&a, &b, port, size), exits, port);
    }
    Ok(())
}

#[test]
fn msrs_of_four_parts(rt: HostRuntime) -> Result<(), Fail> {
    // IA32_SYSENTER_CS may be read, IA32_EFER may be written
    let mut bitmap = vec![in rt.alloc(); 0xFFu8; 4096]?;
    if let Some(byte) = bitmap.get_mut(46) {
        *byte = 0xEF;
    }
    if let Some(byte) = bitmap.get_mut(3072 + 16) {
        *byte = 0xFE;
    }
    let table = [
        (0x174u32, false, false),
        (0x174, true, true),
        (0x175, false, true),
        (0xC000_0080, true, false),
        (0xC000_0080, false, true),
        (0x2000, false, true),
        (0xC000_2000, true, true),
    ];
    for (index, write, exits) in table {
        agree_at(&rt, msr_exits(&bitmap, index, write), exits, index);
    }
    Ok(())
}

#[test]
fn fields_of_an_entry(rt: HostRuntime) {
    agree(&rt, bits(0x8000_00b3, 12, 51), 0x80000);
    agree(&rt, bits(u64::MAX, 0, 63), u64::MAX);
}
