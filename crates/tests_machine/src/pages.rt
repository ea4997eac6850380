//! The page of a state, byte by byte.
use crate::agree::agree;
use state_page::{SubjectState, read, write};
use std::test::Fail;

fn byte_at(page: &[u8], at: usize) -> Option<u8> {
    page.get(at).copied()
}

#[test]
fn bytes_of_a_state(rt: HostRuntime) -> Result<(), Fail> {
    let mut state = SubjectState::start(0x0102_0304_0506_0708);
    state.regs[0] = 0x11;
    state.regs[15] = 0x2200;
    state.epc = 0x33;
    state.vbase = 0x44;
    state.halted = true;
    let mut page = vec![in rt.alloc(); 0xFFu8; 4096]?;
    write(&state, &mut page);
    let registers = (byte_at(&page, 0), byte_at(&page, 121));
    let words = (
        byte_at(&page, 128),
        byte_at(&page, 136),
        byte_at(&page, 144),
    );
    let flags = (byte_at(&page, 152), byte_at(&page, 153));
    agree(&rt, registers, (Some(0x11), Some(0x22)));
    agree(&rt, words, (Some(0x08), Some(0x33), Some(0x44)));
    agree(&rt, flags, (Some(0x0A), Some(0)));
    assert!(rt; read(&page) == state);
    Ok(())
}
