//! What the kernel makes of exits and events.
use crate::agree::{agree, agree_at};
use guest_isa::{Finish, inject};
use state_page::SubjectState;
use std::test::Fail;

#[test]
fn after_each_exit(rt: HostRuntime) -> Result<(), Fail> {
    let table = [
        (12, true, Finish::Halt),
        (12, false, Finish::Halt),
        (18, false, Finish::On),
        (48, true, Finish::On),
        (48, false, Finish::Stop),
        (0, false, Finish::Stop),
    ];
    for (reason, has_trap, finish) in table {
        agree_at(&rt, Finish::after(reason, has_trap), finish, reason);
    }
    Ok(())
}

#[test]
fn addresses_wrap(rt: HostRuntime) -> Result<(), Fail> {
    let mut s = SubjectState::start(u64::MAX - 3);
    s.vbase = u64::MAX;
    s.halted = true;
    let mut on = s;
    Finish::On.apply(&mut on);
    agree(&rt, on.pc, 4);
    let mut stopped = s;
    Finish::Stop.apply(&mut stopped);
    agree(&rt, stopped.pc, u64::MAX - 3);
    inject(&mut s, 255);
    agree(&rt, (s.pc, s.epc, s.halted), (2039, u64::MAX - 3, false));
    Ok(())
}
