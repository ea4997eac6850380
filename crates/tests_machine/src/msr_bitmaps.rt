//! Bytes at offsets that were computed by hand.
use msrbm_emit::{MsrGrant, emit, emit_area};
use std::test::Fail;

// The three MSRs of SYSENTER, to be read and written.
const SYSENTER: MsrGrant = MsrGrant {
    start: 0x174,
    end: 0x176,
    read: true,
    write: true,
};

// IA32_EFER, to be read.
const EFER: MsrGrant = MsrGrant {
    start: 0xC000_0080,
    end: 0xC000_0080,
    read: true,
    write: false,
};

#[test]
fn bits_of_two_grants(rt: HostRuntime) -> Result<(), Fail> {
    let mut bitmap = vec![in rt.alloc(); 0u8; 4096]?;
    emit(&[SYSENTER, EFER], &mut bitmap);
    let reads = (bitmap.get(46).copied(), bitmap.get(1024 + 16).copied());
    let writes = (
        bitmap.get(2048 + 46).copied(),
        bitmap.get(3072 + 16).copied(),
    );
    assert!(rt; reads == (Some(0x8F), Some(0xFE)));
    assert!(rt; writes == (Some(0x8F), Some(0xFF)));
    Ok(())
}

#[test]
#[tactic(auto, unfolding(msrbm_emit::specs::Area::msr_count))]
fn area_of_two_grants(rt: HostRuntime) -> Result<(), Fail> {
    let mut area = vec![in rt.alloc(); 0xFFu8; 4096]?;
    emit_area(&[SYSENTER, EFER], &mut area);
    let first = (
        area.get(0).copied(),
        area.get(1).copied(),
        area.get(8).copied(),
    );
    let last = (
        area.get(48).copied(),
        area.get(51).copied(),
        area.get(64).copied(),
    );
    assert!(rt; first == (Some(0x74), Some(0x01), Some(0)));
    assert!(rt; last == (Some(0x80), Some(0xC0), Some(0)));
    Ok(())
}
